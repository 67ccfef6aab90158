// Answers as the lines show them.
use std::fmt;

// A float to its last bit: the value cut to six decimals, for a reader, and its bits in hexadecimal. A NaN has none of its own.
#[derive(Clone, Copy)]
pub struct Exact(pub f64);

impl fmt::Display for Exact {
    fn fmt<W: fmt::Write>(&self, f: &mut fmt::Formatter<W>) -> fmt::Result {
        let x = self.0;
        if x.is_nan() {
            return write!(f, "NaN");
        }
        let bits = x.to_bits();
        let sign = if x.is_sign_negative() { "-" } else { "" };
        if x.is_finite() {
            let millionths = floats::truncated(x.abs() * 1000000.0);
            let whole = millionths / 1000000;
            let rest = millionths % 1000000;
            write!(f, "{sign}{whole}.{rest:06} ({bits:016x})")
        } else {
            write!(f, "{sign}infinity ({bits:016x})")
        }
    }
}

// What a call refuses by.
// Kept: `replay` has the same few lines; no crate lies below the two programs alone, and both hold what C gets, a number.
#[derive(Clone, Copy)]
pub struct Refused(u64);

impl fmt::Display for Refused {
    fn fmt<W: fmt::Write>(&self, f: &mut fmt::Formatter<W>) -> fmt::Result {
        let number = self.0;
        write!(f, "refused {number}")
    }
}

// What a call returned: 0 is success.
pub fn outcome(number: u64) -> Result<(), Refused> {
    if number == 0 {
        Ok(())
    } else {
        Err(Refused(number))
    }
}

// Numbers after what they are, a space in front of each.
#[derive(Clone, Copy)]
pub struct Numbers<'a> {
    what: &'a str,
    list: &'a [u64],
}

impl<'a> Numbers<'a> {
    // The first `count` of a list.
    // Kept: the C interface writes a list's length apart from the list, and this is where the two come together.
    pub fn first(what: &'a str, list: &'a [u64], count: u64) -> Self {
        let list = list.get(..count as usize).unwrap_or(list);
        Numbers { what, list }
    }
}

impl fmt::Display for Numbers<'_> {
    fn fmt<W: fmt::Write>(&self, f: &mut fmt::Formatter<W>) -> fmt::Result {
        let what = self.what;
        write!(f, "{what}")?;
        for number in self.list {
            write!(f, " {number}")?;
        }
        Ok(())
    }
}

// A line: what was tried, and what was answered. Where it cannot be written, the next is tried all the same.
pub fn tell<T: fmt::Display + Drop>(rt: &impl Print, tried: &str, answer: Result<T, Refused>) {
    let _ = match answer {
        Ok(value) => println!(rt; "{tried}: {value}"),
        Err(refused) => println!(rt; "{tried}: {refused}"),
    };
}

// The same of a call that makes something: only whether it does is told.
pub fn tell_made<T: Drop>(rt: &impl Print, tried: &str, made: Result<T, Refused>) {
    tell(rt, tried, made.map(|_| "accepted"));
}
