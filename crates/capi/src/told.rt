// What the calls tell to C.
ghost use Rattle.std.specs.Prelude.{◌≡◌};
ghost use Rattle.basics.specs.Answers.{answered};
ghost use Rattle.capi.specs.Answers.{number_in, written};
ghost use Rattle.capi.specs.Sheets.{flag_of, entry_of};

use basics::Refusal;

// 0, or the number of the refusal.
pub(crate) fn number_of<T: Drop>(answer: Result<T, Refusal>) -> u64
    ensures { result ≡ number_in answer }
{
    match answer {
        Ok(_) => 0,
        Err(refusal) => u64::from(refusal),
    }
}

// Tells whether there is a value, and writes it where there is one.
pub(crate) fn tell(found: Option<u64>, flag: &mut u64, value: &mut u64)
    ensures flag { flag.new ≡ flag_of found }
    ensures value { value.new ≡ entry_of value.old found }
{
    match found {
        Some(v) => {
            *flag = 1;
            *value = v;
        }
        None => *flag = 0,
    }
}

// Tells a count, where there is one: 0, or the number of the refusal.
pub(crate) fn tell_count(answer: Result<usize, Refusal>, count: &mut u64) -> u64
    ensures number { result ≡ number_in answer }
    ensures count { count.new ≡ written (answered (λ n. n) answer) count.old }
{
    if let Ok(n) = answer {
        *count = n as u64;
    }
    number_of(answer)
}
