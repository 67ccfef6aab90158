// Distances told by their squares, with no root. A root keeps the order, and so does its difference from a radius: a square
// whose distance is known tells of every larger or every smaller one. That square is made from its root, with none taken.
#![tactic(auto)]

ghost use Rattle.std.specs.Prelude.{◌≡◌, Bool, true, false, Float};
ghost use Rattle.std.specs.Float.Ieee.{lt, le};
ghost use Rattle.floats.specs.Rounded.{zero_f};
ghost use Rattle.floats.specs.Tests.{Binary64};
ghost use Rattle.windows.specs.Window.{distance_at, told_by, steady, lies, Rooted, Square, Tells};

// The least root of which a square is made. The square of a far smaller one is rounded to fewer digits.
const LEAST: f64 = 1e-150;

// The largest. The square of a far larger one is infinite.
const LARGEST: f64 = 1e150;

// A root times this is just above it, by more than what rounding changes.
const ABOVE: f64 = 1.0000000000001;

// A root times this is just below it.
const BELOW: f64 = 0.9999999999999;

// What is known of the distances that lie from one bound to another, each told by its square: the root, less the radius where
// there is one. Those whose squares are from `low` to `high` lie there, and those whose squares are up to `under` or from `over`
// on do not.
// Kept: a NaN for a square not known: comparing with it gives false, as it should; an Option would need a case at each.
#[derive(Clone, Copy)]
pub struct Window {
    pub radius: Option<f64>,
    pub from: f64,
    pub to: f64,
    pub low: f64,
    pub high: f64,
    pub under: f64,
    pub over: f64,
    pub ghost tells: { Tells radius from to low high under over },
}

// The distance at a root.
#[tactic(auto, unfolding(crate::specs::Window::distance_at))]
fn distance_at(radius: Option<f64>, root: f64) -> f64
    ensures { result ≡ distance_at radius root }
{
    radius.map_or(root, |r| root - r)
}

// The root at a distance, but for rounding.
fn root_at(radius: Option<f64>, distance: f64) -> f64 {
    radius.map_or(distance, |r| r + distance)
}

// The distance that a square tells.
#[tactic(auto, unfolding(crate::specs::Window::told_by))]
pub fn told(radius: Option<f64>, s: f64) -> f64
    ensures { result ≡ told_by radius s }
{
    distance_at(radius, floats::sqrt(s))
}

// Whether a larger square has no smaller distance.
#[tactic(auto, unfolding(crate::specs::Window::steady))]
fn is_steady(radius: Option<f64>) -> bool
    ensures { result ≡ steady radius }
{
    radius.is_none_or(floats::is_finite)
}

// Whether a number is surely the root of its own square, both rounded.
fn is_root(x: f64) -> bool
    ensures { result ≡ true → Rooted x }
{
    (LEAST <= x) & (x <= LARGEST)
}

// A root beside m, where m is above zero, and else the least.
fn beside(m: f64, factor: f64) -> f64 {
    if m > 0.0 { m * factor } else { LEAST }
}

// The square of a root beside that of a bound, where a test passes at the root's distance. Where it does not, or where the
// square tells nothing, a NaN.
fn square_beside<F: Fn(f64) -> bool>(radius: Option<f64>, bound: f64, factor: f64, passes: F) -> f64
    requires { F.IsAlwaysCallable passes }
    ensures { (root : Float) × (passed : Bool) × F.post passes (distance_at radius root) passed × Square radius root passed result }
{
    let root = beside(root_at(radius, bound), factor);
    let passed = passes(distance_at(radius, root));
    if passed & (is_steady(radius) & is_root(root)) {
        root * root
    } else {
        f64::NAN
    }
}

// A square from which on distances are at least a bound, or a NaN.
fn square_from(radius: Option<f64>, from: f64) -> f64
    ensures { (s : Float) → Binary64 s → le result s ≡ true → le from (told_by radius s) ≡ true }
{
    square_beside(radius, from, ABOVE, |distance| from <= distance)
}

// A square up to which distances are below a bound, or a NaN.
fn square_below(radius: Option<f64>, from: f64) -> f64
    ensures { (s : Float) → Binary64 s → lt zero_f s ≡ true → le s result ≡ true → le from (told_by radius s) ≡ false }
{
    square_beside(radius, from, BELOW, |distance| !(from <= distance))
}

// A square up to which distances are at most a bound, or a NaN.
pub fn square_within(radius: Option<f64>, to: f64) -> f64
    ensures { (s : Float) → Binary64 s → lt zero_f s ≡ true → le s result ≡ true → le (told_by radius s) to ≡ true }
{
    square_beside(radius, to, BELOW, |distance| distance <= to)
}

// A square from which on distances are above a bound, or a NaN.
pub fn square_above(radius: Option<f64>, to: f64) -> f64
    ensures { (s : Float) → Binary64 s → le result s ≡ true → le (told_by radius s) to ≡ false }
{
    square_beside(radius, to, ABOVE, |distance| !(distance <= to))
}

impl Window {
    // The window of the distances from one bound to another.
    pub fn new(radius: Option<f64>, from: f64, to: f64) -> Window
        ensures radius { result.radius ≡ radius }
        ensures from { result.from ≡ from }
        ensures to { result.to ≡ to }
    {
        Window {
            radius,
            from,
            to,
            low: square_from(radius, from),
            high: square_within(radius, to),
            under: square_below(radius, from),
            over: square_above(radius, to),
        }
    }

    // The same bounds, with no square tried: every distance has to be worked out.
    pub fn untried(from: f64, to: f64) -> Window
        ensures from { result.from ≡ from }
        ensures to { result.to ≡ to }
    {
        Window {
            radius: None,
            from,
            to,
            low: f64::NAN,
            high: f64::NAN,
            under: f64::NAN,
            over: f64::NAN,
        }
    }

    // Whether the distance that a square tells lies in the window.
    pub fn holds(self, s: f64) -> bool
        ensures { result ≡ lies self.from self.to (told_by self.radius s) }
    {
        if self.over <= s {
            return false;
        }
        if (0.0 < s) & ((self.low <= s) & (s <= self.high)) {
            return true;
        }
        if (0.0 < s) & (s <= self.under) {
            return false;
        }
        let distance = told(self.radius, s);
        (self.from <= distance) & (distance <= self.to)
    }
}
