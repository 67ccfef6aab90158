// Numbers and coordinates in the text of surveyors: read from a field of a line, and put into a lent buffer.
#![tactic(auto)]

ghost use Rattle.std.specs.Prelude.{◌≡◌, ◌+◌, ◌^◌, ◌≤◌, ◌<◌, length, MatchOption};
ghost use Rattle.std.proofs.Math.Option.{none};
ghost use Rattle.text.specs.Writers.{Puts};
ghost use Rattle.decimals.specs.Decimals.{number_in, number_read, millimetres_in, coordinate_read, magnitude_text, coordinate_text};
ghost use Rattle.decimals.specs.Posts.{digit_in, with_digit, digits_in, decimals_in, thousandths_in, IsCut};

use millimetres::Millimetres;
use text::Writer;

// ---- numbers

// The digit that a byte is.
fn digit_of(byte: u8) -> Option<u64>
    ensures { number_read result ≡ digit_in byte }
{
    Some(u64::from(char::from(byte).to_digit(10)?))
}

// The number that a field of digits is: one digit or more, and at most this many. Nineteen always fit.
fn read_digits(field: &[u8], most: usize) -> Option<u64>
    requires { most ≤ 19 }
    ensures { number_read result ≡ digits_in most field.now }
{
    if field.is_empty() || field.len() > most {
        return None;
    }
    let mut n = 0;
    for byte in field {
        n = n * 10 + digit_of(*byte)?;
    }
    Some(n)
}

// The number with one digit more, if the byte is one and the number still fits.
fn with_digit(n: u64, byte: u8) -> Option<u64>
    ensures { number_read result ≡ with_digit n byte }
{
    let digit = digit_of(byte)?;
    n.checked_mul(10)?.checked_add(digit)
}

// The number that a field is: 1 to 20 digits, at most 2^64 - 1. Within the reading of a whole line it would be stored and read again
// for each digit.
#[inline(never)]
pub fn read_number(field: &[u8]) -> Option<u64>
    ensures { number_read result ≡ number_in field.now }
{
    if field.len() != 20 {
        return read_digits(field, 19);
    }
    // the twentieth digit may be one too many
    let n = read_digits(&field[..19], 19)?;
    with_digit(n, field[19])
}

// ---- coordinates

// The thousandths that one to three decimals are: those left out are zeros.
fn read_decimals(field: &[u8]) -> Option<u64>
    ensures { number_read result ≡ decimals_in field.now }
{
    let n = read_digits(field, 3)?;
    Some(match field.len() {
        1 => n * 100,
        2 => n * 10,
        _ => n,
    })
}

// What stands before the point, and the thousandths after it: a second point is no digit.
fn cut_at_point(field: &[u8]) -> Option<(&[u8], u64)>
    ensures { MatchOption result (thousandths_in field.now ≡ none)
        (λ cut. IsCut field.now cut.0.now cut.1) }
{
    let Some(point) = basics::find(field, &b'.') else {
        return Some((field, 0));
    };
    let decimals = read_decimals(&field[point + 1..])?;
    Some((&field[..point], decimals))
}

// The thousandths that a coordinate is without its minus.
fn read_thousandths(field: &[u8]) -> Option<u64>
    ensures { number_read result ≡ thousandths_in field.now }
{
    let (whole, decimals) = cut_at_point(field)?;
    let n = read_digits(whole, 7)? * 1000 + decimals;
    (n <= millimetres::LIMIT).then_some(n)
}

// The millimetres that a coordinate is.
pub fn read_coordinate(field: &[u8]) -> Option<Millimetres>
    ensures { coordinate_read result ≡ millimetres_in field.now }
{
    match field.strip_prefix(b"-") {
        Some(magnitude) => {
            let n = read_thousandths(magnitude)?;
            Some(Millimetres::signed(true, n))
        }
        None => {
            let n = read_thousandths(field)?;
            Some(Millimetres::signed(false, n))
        }
    }
}

// ---- what is written

// The whole metres, the point and three decimals.
#[tactic(auto, using(crate::proofs::Written::magnitude_length))]
fn put_magnitude(writer: &mut Writer, n: u64)
    requires { writer.old.at + length (magnitude_text n) < 2 ^ 64 }
    ensures { Puts (magnitude_text n) writer.old writer.new }
{
    writer.put_decimal(n / 1000);
    writer.put_byte(b'.');
    writer.put_byte(b'0' + (n / 100 % 10) as u8);
    writer.put_byte(b'0' + (n / 10 % 10) as u8);
    writer.put_byte(b'0' + (n % 10) as u8);
}

// A coordinate, with no minus on zero.
pub fn put_coordinate(writer: &mut Writer, millimetres: Millimetres)
    requires { writer.old.at + length (coordinate_text millimetres.count) < 2 ^ 64 }
    ensures { Puts (coordinate_text millimetres.count) writer.old writer.new }
{
    if millimetres.count < 0 {
        writer.put_byte(b'-');
    }
    put_magnitude(writer, millimetres.count.unsigned_abs());
}
