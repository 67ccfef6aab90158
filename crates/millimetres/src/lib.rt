// Whole millimetres, and the coordinates that they are: a number of millimetres divided once by 1,000. A coordinate is turned
// back by a rounded product, and an exact test of what it gives.
#![tactic(auto)]

ghost use Rattle.std.specs.Prelude.{◌≤◌, ◌≡◌, nat_abs};
ghost use Rattle.millimetres.specs.Millimetres.{limit, signed, value_of, decimal_of};

// 1,048,576 in millimetres.
pub const LIMIT: u64 = 1_048_576_000;

// A number of them that a coordinate may have.
#[derive(Clone, Copy)]
pub struct Millimetres {
    pub count: i64,
    ghost within: { nat_abs count ≤ limit },
}

impl Millimetres {
    ghost use Rattle.millimetres.specs.Told.{whole_of};

    // A number with its sign.
    // Kept: `minus` is a part of the number, as in a float; an enum of two signs would be made of a test and matched at once.
    pub fn signed(minus: bool, n: u64) -> Millimetres
        requires { n ≤ limit }
        ensures { result.count ≡ signed minus n }
    {
        let n = n as i64;
        if minus {
            Millimetres { count: -n }
        } else {
            Millimetres { count: n }
        }
    }

    // The millimetres that a coordinate is, if it is any within the limit.
    pub fn of(x: f64) -> Option<Millimetres>
        ensures { whole_of result ≡ decimal_of x }
    {
        let count = floats::truncated(floats::abs(x) * 1000.0 + 0.5);
        if count > LIMIT {
            return None;
        }
        let millimetres = Millimetres::signed(x < 0.0, count);
        floats::same_bits(millimetres.value(), x).then_some(millimetres)
    }

    // Their coordinate.
    pub fn value(self) -> f64
        ensures { result ≡ value_of self.count }
    {
        (self.count as f64) / 1000.0
    }
}
