// The 32-byte records of the files: an id and three floats, little-endian.
#![tactic(auto)]

ghost use Rattle.std.specs.Prelude.{◌≡◌};
ghost use Rattle.records.specs.Records.{number_at, float_at, record_at};

use basics::Refusal;

// A record as it stands in a file: its number, and three floats of any value.
#[derive(Clone, Copy)]
pub struct Record {
    pub id: u64,
    pub x: f64,
    pub y: f64,
    pub z: f64,
}

// The number in eight bytes, the lowest first.
#[tactic(auto, using(crate::proofs::Laws::eight_bytes))]
pub fn number_of(bytes: &[u8; 8]) -> u64
    ensures { result ≡ number_at bytes.now 0 }
{
    u64::from_le_bytes(*bytes)
}

// Every pattern of a NaN is a NaN.
#[tactic(auto, unfolding(crate::specs::Records::float_at))]
pub fn float_of(bytes: &[u8; 8]) -> f64
    ensures { result ≡ float_at bytes.now 0 }
{
    std::num::f64_from_bits_with_nan(number_of(bytes))
}

// The record in 32 bytes.
pub fn record_of(bytes: &[u8; 32]) -> Record
    ensures { result ≡ record_at bytes.now 0 }
{
    let (parts, _) = bytes.as_chunks::<8>();
    Record {
        id: number_of(&parts[0]),
        x: float_of(&parts[1]),
        y: float_of(&parts[2]),
        z: float_of(&parts[3]),
    }
}

// The record that the bytes are: damaged where they are not 32.
impl TryFrom<&[u8]> for Record {
    ghost use Rattle.records.specs.Records.{read_answer, reading};

    type Error = Refusal;

    ghost try_from_gives = { λ bytes result. read_answer result ≡ reading bytes.now };

    #[tactic(auto, unfolding(crate::specs::Records::reading, crate::specs::Records::length_tests, basics::specs::Refusals::fault, basics::specs::Refusals::answer))]
    fn try_from(bytes: &[u8]) -> Result<Record, Refusal> {
        let bytes = bytes.as_array().ok_or(Refusal::Damaged)?;
        Ok(record_of(bytes))
    }
}
