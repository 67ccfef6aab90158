// Module 5: the sheet. `GridSearch` keeps its settings and what they give; `GridSearch::new` makes it, and a later
// call is handed it back and checks that it is the one its settings give. From gemlab's `util/grid_search.rs`.
#![tactic(auto)]

ghost use Rattle.std.specs.Prelude.{◌≤◌, ◌≡◌, true};
ghost use Rattle.basics.specs.Lists.{all};
ghost use Rattle.basics.specs.Refusals.{fault};
ghost use Rattle.basics.specs.Answers.{fault_in};
ghost use Rattle.floats.specs.Rounded.{◌⊕◌, ◌⊖◌, ◌⊗◌, ◌⊘◌, of_nat};
ghost use Rattle.geometry.specs.Position.{coords, position_of, dimension};
ghost use Rattle.grid.specs.Divisions.{counts, division};
ghost use Rattle.grid_search.specs.Sheet.{number_of, tolerance_of, largest as largest_of, lowered as lowered_of, raised as raised_of, side_of, covered_of, diagonal as diagonal_of, sheet_from, past_limits, out_of_limits, in_order, made, new_sheet, same_position, same_sheet, sheet_ok};
ghost use Rattle.grid_search.specs.Steps.{in_force_tests, Widened};

use basics::Refusal;
use geometry::{Dimension, Position};
use grid::Divisions;

// The sheet. In 2D every third coordinate is +0 and the third division 1.
#[derive(Clone, Copy)]
pub struct GridSearch {
    // the settings: dimension, corners, and divisions of the longest axis, tolerance and border, each given or left out
    pub ndim: usize,
    pub low: Position,
    pub high: Position,
    pub number: Option<u64>,
    pub tolerance: Option<f64>,
    pub border_tol: Option<f64>,
    // what they give
    pub ndiv: Divisions,
    pub xmin: Position,
    pub xmax: Position,
    pub side_length: f64,
    pub tol_dist: f64,
    pub radius: f64,
}

// What a sheet is made of: the settings, with a number of axes that is one.
#[derive(Clone, Copy)]
struct Settings {
    ndim: Dimension,
    low: Position,
    high: Position,
    number: Option<u64>,
    tolerance: Option<f64>,
    border_tol: Option<f64>,
}

// √3, to the nearest `f64`.
const SQRT_3: f64 = 1.7320508075688772;

// The largest tolerance and border, and the least tolerance: 2^-20.
const MOST: f64 = 1024.0;

const LEAST: f64 = 0.00000095367431640625;

// A corner with each coordinate moved outwards where the border is above 0.
fn widened<F: Fn(f64) -> f64>(ndim: Dimension, border: f64, corner: Position, moved: F) -> Position
    requires { F.IsAlwaysCallable moved }
    ensures { Widened (F.post moved) border (coords ndim.n corner) result }
{
    if border > 0.0 {
        let corner = Position {
            x: moved(corner.x),
            y: moved(corner.y),
            z: moved(corner.z),
        };
        return corner.in_use(ndim);
    }
    corner.in_use(ndim)
}

// The low corner moved outwards by the border.
pub fn lowered(ndim: Dimension, border: f64, low: Position) -> Position
    ensures { result ≡ position_of (lowered_of border (coords ndim.n low)) }
{
    widened(ndim, border, low, |x| x - border)
}

// The high corner moved outwards by the border.
pub fn raised(ndim: Dimension, border: f64, high: Position) -> Position
    ensures { result ≡ position_of (raised_of border (coords ndim.n high)) }
{
    widened(ndim, border, high, |x| x + border)
}

// The largest of the lengths along the axes in use.
pub fn largest(ndim: Dimension, lengths: Position) -> f64
    ensures { result ≡ largest_of (coords ndim.n lengths) }
{
    let first = floats::max(lengths.x, lengths.y);
    if ndim.n == 2 {
        return first;
    }
    floats::max(first, lengths.z)
}

// The side of n containers along an axis.
fn side_along(xmin: f64, xmax: f64, n: u64) -> f64
    requires { n ≤ 1024 }
    ensures { result ≡ (xmax ⊖ xmin) ⊘ of_nat n }
{
    (xmax - xmin) / (n as f64)
}

// The side of the square or cubic containers: the largest along an axis.
// Kept: nine callers have this of a sheet or an index, and each would make a struct of two of its fields for this call.
fn side(ndim: Dimension, xmin: Position, xmax: Position, ndiv: Divisions) -> f64
    requires divisions { all division (counts ndim.n ndiv) ≡ true }
    ensures { result ≡ side_of (coords ndim.n xmin) (coords ndim.n xmax) (counts ndim.n ndiv) }
{
    let n = ndiv.in_use(ndim);
    let sides = Position {
        x: side_along(xmin.x, xmax.x, n.x),
        y: side_along(xmin.y, xmax.y, n.y),
        z: side_along(xmin.z, xmax.z, n.z),
    };
    largest(ndim, sides)
}

// Where n containers from xmin on end.
fn end_along(xmin: f64, side: f64, n: u64) -> f64
    requires { n ≤ 1024 }
    ensures { result ≡ xmin ⊕ side ⊗ of_nat n }
{
    xmin + side * (n as f64)
}

// The high corner of the containers, which cover the box.
// Kept: nine callers have this of a sheet or an index, and each would make a struct of two of its fields for this call.
pub fn covered(ndim: Dimension, xmin: Position, side: f64, ndiv: Divisions) -> Position
    requires divisions { all division (counts ndim.n ndiv) ≡ true }
    ensures { result ≡ position_of (covered_of side (coords ndim.n xmin) (counts ndim.n ndiv)) }
{
    let n = ndiv.in_use(ndim);
    let ends = Position {
        x: end_along(xmin.x, side, n.x),
        y: end_along(xmin.y, side, n.y),
        z: end_along(xmin.z, side, n.z),
    };
    ends.in_use(ndim)
}

// The diagonal of a square or a cube of side 1.
fn diagonal(ndim: Dimension) -> f64
    ensures { result ≡ diagonal_of ndim.n }
{
    if ndim.n == 2 {
        std::f64::consts::SQRT_2
    } else {
        SQRT_3
    }
}

// The sheet that settings give which passed the tests 1 to 9.
fn built(settings: Settings) -> GridSearch
    requires in_order { in_order (coords settings.ndim.n settings.low) (coords settings.ndim.n settings.high) ≡ true }
    requires least { 1 ≤ number_of settings.number }
    requires most { number_of settings.number ≤ 1024 }
    ensures { result ≡ sheet_from (coords settings.ndim.n settings.low) (coords settings.ndim.n settings.high)
        settings.number settings.tolerance settings.border_tol }
{
    let Settings {
        ndim,
        low,
        high,
        number,
        tolerance,
        border_tol,
    } = settings;
    // the divisions come from the corners before the border widens them
    let ndiv = grid::num_divisions(ndim, number.unwrap_or(GridSearch::NDIV), low, high);
    let border = border_tol.unwrap_or(GridSearch::BORDER_TOL);
    let xmin = lowered(ndim, border, low);
    let side_length = side(ndim, xmin, raised(ndim, border, high), ndiv);
    let xmax = covered(ndim, xmin, side_length, ndiv);
    let d = diagonal(ndim);
    let tol_dist = d * tolerance.unwrap_or(GridSearch::TOLERANCE);
    let low = low.in_use(ndim);
    let high = high.in_use(ndim);
    GridSearch {
        ndim: ndim.n,
        low,
        high,
        number,
        tolerance,
        border_tol,
        ndiv,
        xmin,
        xmax,
        side_length,
        tol_dist,
        radius: d * side_length / 2.0,
    }
}

// Whether tolerance or border is above 1,024, or a tolerance above 0 below 1/1,048,576.
pub fn past_limits(tolerance: f64, border: f64) -> bool
    ensures { result ≡ past_limits tolerance border }
{
    (MOST < tolerance) | ((MOST < border) | ((0.0 < tolerance) & (tolerance < LEAST)))
}

// 3: a float not finite or past its limit.
fn out_of_limits(settings: Settings, tolerance: f64, border: f64) -> bool
    ensures { result ≡ out_of_limits (coords settings.ndim.n settings.low) (coords settings.ndim.n settings.high)
        tolerance border }
{
    let low_ok = geometry::position_ok(settings.ndim, settings.low);
    let high_ok = geometry::position_ok(settings.ndim, settings.high);
    let finite = floats::is_finite(tolerance) & floats::is_finite(border);
    !(low_ok & (high_ok & finite)) | past_limits(tolerance, border)
}

// 7: the high corner is above the low one on every axis.
// Kept: a sheet and an index have the corners as two fields, as gemlab has: a struct of both would be made at each call.
pub fn is_above(ndim: Dimension, low: Position, high: Position) -> bool
    ensures { result ≡ in_order (coords ndim.n low) (coords ndim.n high) }
{
    geometry::on_every_axis(ndim, low.x < high.x, low.y < high.y, low.z < high.z)
}

// What turns settings away, with the divisions, the tolerance and the border that are in force: 3 to 9.
fn settings_fault(settings: Settings, ndiv_long: u64, tol: f64, border: f64) -> Result<(), Refusal>
    ensures { fault_in result ≡ fault (in_force_tests (coords settings.ndim.n settings.low) (coords settings.ndim.n settings.high)
        ndiv_long tol border) }
{
    if out_of_limits(settings, tol, border) {
        return Err(Refusal::Limit);
    }
    if ndiv_long == 0 {
        return Err(Refusal::NoDivisions);
    }
    if ndiv_long == 1 {
        return Err(Refusal::OneDivision);
    }
    if ndiv_long > 1024 {
        return Err(Refusal::ManyDivisions);
    }
    if !is_above(settings.ndim, settings.low, settings.high) {
        return Err(Refusal::Corners);
    }
    if tol <= 0.0 {
        return Err(Refusal::Tolerance);
    }
    if border < 0.0 {
        return Err(Refusal::Border);
    }
    Ok(())
}

// The sheet of settings, or what turns them away: 3 to 10.
fn sheet_from(settings: Settings) -> Result<GridSearch, Refusal>
    ensures { made result ≡ new_sheet (coords settings.ndim.n settings.low) (coords settings.ndim.n settings.high)
        settings.number settings.tolerance settings.border_tol }
{
    let ndiv_long = settings.number.unwrap_or(GridSearch::NDIV);
    let tol = settings.tolerance.unwrap_or(GridSearch::TOLERANCE);
    let border = settings.border_tol.unwrap_or(GridSearch::BORDER_TOL);
    settings_fault(settings, ndiv_long, tol, border)?;
    let sheet = built(settings);
    if sheet.side_length <= 2.0 * tol {
        return Err(Refusal::Side);
    }
    Ok(sheet)
}

// The tolerance in force.
pub fn tolerance_in_force(tolerance: Option<f64>) -> f64
    ensures { result ≡ tolerance_of tolerance }
{
    tolerance.unwrap_or(GridSearch::TOLERANCE)
}

impl GridSearch {
    // What a setting is where it is left out.
    pub const NDIV: u64 = 100;

    pub const TOLERANCE: f64 = 1e-4;

    pub const BORDER_TOL: f64 = 1e-2;

    // The sheet of these corners and settings, or why there is none.
    pub fn new(
        xmin: &[f64],
        xmax: &[f64],
        ndiv: Option<u64>,
        tolerance: Option<f64>,
        border_tol: Option<f64>,
    ) -> Result<GridSearch, Refusal>
        ensures { made result ≡ new_sheet xmin.now xmax.now ndiv tolerance border_tol }
    {
        let ndim = Dimension::try_from(xmin.len())?;
        if xmax.len() != ndim.n {
            return Err(Refusal::Length);
        }
        let low = Position::new(xmin);
        let high = Position::new(xmax);
        sheet_from(Settings {
            ndim,
            low,
            high,
            number: ndiv,
            tolerance,
            border_tol,
        })
    }
}

// Whether two positions are the same bit for bit.
// Kept: `==` of floats takes -0 for +0, and a derive compares by it.
fn same_position(p: Position, q: Position) -> bool
    ensures { result ≡ same_position p q }
{
    floats::same_bits(p.x, q.x) & (floats::same_bits(p.y, q.y) & floats::same_bits(p.z, q.z))
}

// Whether two sheets of the same settings are the same bit for bit.
// Kept: a derived `==` would compare its floats by `==`, which takes -0 for +0.
fn same_sheet(s: GridSearch, t: GridSearch) -> bool
    ensures { result ≡ same_sheet s t }
{
    (s.ndim == t.ndim)
        & (same_position(s.low, t.low)
            & (same_position(s.high, t.high)
                & ((s.ndiv == t.ndiv)
                    & (same_position(s.xmin, t.xmin)
                        & (same_position(s.xmax, t.xmax)
                            & (floats::same_bits(s.side_length, t.side_length)
                                & (floats::same_bits(s.tol_dist, t.tol_dist)
                                    & floats::same_bits(s.radius, t.radius))))))))
}

// Whether a sheet is the one that its settings give, bit for bit.
pub fn is_sheet(s: GridSearch) -> bool
    ensures { result ≡ sheet_ok s }
{
    let Ok(ndim) = Dimension::try_from(s.ndim) else {
        return false;
    };
    let settings = Settings {
        ndim,
        low: s.low,
        high: s.high,
        number: s.number,
        tolerance: s.tolerance,
        border_tol: s.border_tol,
    };
    match sheet_from(settings) {
        Ok(t) => same_sheet(s, t),
        Err(_) => false,
    }
}
