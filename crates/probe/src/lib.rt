// The functions that serve the public calls, for the comparison with the Rust. Nothing else is here.
#![tactic(auto)]

mod cells;
mod containers;

ghost use Rattle.std.specs.Prelude.{◌≡◌};
ghost use Rattle.std.specs.Float.Ieee.{to_unsigned};
ghost use Rattle.floats.specs.Sqrt.{sqrt_of};
ghost use Rattle.floats.specs.Ceil.{ceil_of};
ghost use Rattle.floats.specs.Tests.{abs_of, min_of, max_of};

#[unsafe(no_mangle)]
pub extern "C" fn probe_sqrt(x: f64) -> f64
    ensures { result ≡ sqrt_of x }
{
    floats::sqrt(x)
}

#[unsafe(no_mangle)]
pub extern "C" fn probe_truncated(x: f64) -> u64
    ensures { result ≡ to_unsigned 64 x }
{
    floats::truncated(x)
}

#[unsafe(no_mangle)]
pub extern "C" fn probe_ceil(x: f64) -> f64
    ensures { result ≡ ceil_of x }
{
    floats::ceil(x)
}

#[unsafe(no_mangle)]
pub extern "C" fn probe_abs(x: f64) -> f64
    ensures { result ≡ abs_of x }
{
    floats::abs(x)
}

#[unsafe(no_mangle)]
pub extern "C" fn probe_min(a: f64, b: f64) -> f64
    ensures { result ≡ min_of a b }
{
    floats::min(a, b)
}

#[unsafe(no_mangle)]
pub extern "C" fn probe_max(a: f64, b: f64) -> f64
    ensures { result ≡ max_of a b }
{
    floats::max(a, b)
}
