// Module 8: the marks on a line, a circle, a cylinder or a plane. From gemlab's `search_on_line` and its kin.
#![tactic(auto)]

mod asked;
mod near;
mod sound;
mod walk;

ghost use Rattle.basics.specs.Answers.{fault_in};
ghost use Rattle.basics.specs.Refusals.{fault};
ghost use Rattle.geometry.specs.Axes.{dimension};
ghost use Rattle.table.specs.Lent.{lent};
ghost use Rattle.listing.specs.Place.{line, circle, cylinder, plane, asked_of, asked, place_tests};
ghost use Rattle.listing.specs.Listing.{listing, Lists};
ghost use Rattle.std.specs.Prelude.{◌≡◌, true, ltb};

use basics::Refusal;
use geometry::{Dimension, Position};
use grid_search::GridSearch;
pub use sound::SoundLibrary;
use table::Library;

// A place: what the marks of a listing lie on.
#[derive(Clone, Copy)]
pub enum Place {
    // the line through two points
    Line(Position, Position),
    // the circle of a centre and a radius
    Circle(Position, f64),
    // the cylinder of two points on its axis and a radius
    Cylinder(Position, Position, f64),
    // the plane through z, x or y
    PlaneXY(f64),
    PlaneYZ(f64),
    PlaneXZ(f64),
}

// Which of the marks on a place are kept: all, or those whose coordinate on an axis lies in a closed range.
// Kept: calls read `Filter::Everything` and `Filter::Range`, the request's words; an Option of a range would read `None`.
#[derive(Clone, Copy)]
pub enum Filter {
    Everything,
    Range { axis: u64, low: f64, high: f64 },
}

// What turns a place and a filter away: 16, 3, and 15 where a row is in use.
// Kept: `SoundLibrary` and `Walk` above hold this; a type for the sheet alone would be made of theirs for this one call.
#[tactic(auto, using(crate::proofs::Places::right_lengths), unfolding(crate::specs::Place::place_tests, basics::specs::Refusals::fault))]
fn place_fault(sheet: GridSearch, used: usize, place: Place, filter: Filter) -> Result<(), Refusal>
    requires { dimension sheet.ndim ≡ true }
    ensures { fault_in result ≡ fault (place_tests sheet (asked sheet.ndim place) filter (ltb 0 used)) }
{
    let ndim = Dimension { n: sheet.ndim };
    let unfit = asked::is_unfit(ndim, place) | asked::is_unfit_filter(ndim, filter);
    let within = asked::place_ok(ndim, place) & asked::filter_ok(filter);
    if unfit {
        return Err(Refusal::Unfit);
    }
    if !within {
        return Err(Refusal::Limit);
    }
    if (0 < used) & asked::is_pinched(ndim, place) {
        return Err(Refusal::Close);
    }
    Ok(())
}

// The listing of `search_on`, past the check of the library. It becomes part of each caller, whose frame then holds the sheet and
// the library once.
// Kept: what a listing is asked with, in the order of the request: a struct of some of it would be taken apart at once.
#[inline(always)]
pub fn search_checked_on(
    of: SoundLibrary,
    place: Place,
    filter: Filter,
    list: &mut [u64],
) -> Result<usize, Refusal>
    ensures { Lists (listing of.entry.sheet (lent of.entry.library) (asked of.entry.sheet.ndim place) filter list.old)
        result list.new }
{
    place_fault(of.sheet, of.library.used, place, filter)?;
    walk::list_on(of, place, filter, list)
}

// The listing of `search_on_place`, past the check of the library, with its frame as in `search_checked_on`.
// Kept: C names a place by a number, with its slices apart; 16 is judged by the number, and then 2 by the slices.
#[inline(always)]
pub fn search_checked_on_place(
    of: SoundLibrary,
    place: u64,
    a: &[f64],
    b: &[f64],
    number: f64,
    filter: Filter,
    list: &mut [u64],
) -> Result<usize, Refusal>
    ensures { Lists (listing of.entry.sheet (lent of.entry.library) (asked_of place a.now b.now number) filter list.old)
        result list.new }
{
    let Some(on) = asked::made(place, a, b, number) else {
        return Err(Refusal::Unfit);
    };
    let ndim = Dimension { n: of.sheet.ndim };
    if asked::is_unfit(ndim, on) | asked::is_unfit_filter(ndim, filter) {
        return Err(Refusal::Unfit);
    }
    if asked::has_wrong_length(ndim, place, a, b) {
        return Err(Refusal::Length);
    }
    search_checked_on(of, on, filter, list)
}

// Lists the marks on a place that the filter keeps: their ids, ascending and once each, stand at the front of the list, and
// the answer is how many they are. The list beyond them stays. A mark is on the place where one of its rows counts: the
// centre of the row's container is within container radius + `tol_dist` of the place, and the row's point within `tol_dist`.
// Refused with the first that applies, the list as it was: 24 (row slices too long), 13 (the sheet or the rows are damaged),
// 16 (a circle in 3D, a cylinder or a plane in 2D, a filter on an axis that is not there), 3 (a coordinate, a radius or an end
// of the range is none), 15 (the ends of a line or a cylinder are too close, while a row is in use), 14 (the list is shorter
// than the listing). 2 cannot come up: the place holds positions, of whatever dimension.
// Kept: what a listing is asked with, in the order of the request: a struct of some of it would be taken apart at once.
pub fn search_on(
    sheet: GridSearch,
    library: Library,
    place: Place,
    filter: Filter,
    list: &mut [u64],
) -> Result<usize, Refusal>
    ensures { Lists (listing sheet (lent library.entry) (asked sheet.ndim place) filter list.old) result list.new }
{
    rows::library_fault(sheet, library)?;
    let of = SoundLibrary {
        sheet,
        library,
        counts: None,
    };
    search_checked_on(of, place, filter, list)
}

// The listing of a place that is given by a number and slices, as `search_on` gives it, with 2 (a position's length is not
// the dimension) between 16 and 3. The place is 0 for the line through a and b, 1 for the circle of centre a and radius
// `number`, 2 for the cylinder of axis a, b and radius `number`, and 3, 4 and 5 for the planes xy, yz and xz at the coordinate
// `number`; any other is 16. A slice that the place has no use for is not read.
// Kept: C names a place by a number, with its slices apart; 16 is judged by the number, and then 2 by the slices.
pub fn search_on_place(
    sheet: GridSearch,
    library: Library,
    place: u64,
    a: &[f64],
    b: &[f64],
    number: f64,
    filter: Filter,
    list: &mut [u64],
) -> Result<usize, Refusal>
    ensures { Lists (listing sheet (lent library.entry) (asked_of place a.now b.now number) filter list.old) result list.new }
{
    rows::library_fault(sheet, library)?;
    let of = SoundLibrary {
        sheet,
        library,
        counts: None,
    };
    search_checked_on_place(of, place, a, b, number, filter, list)
}

// Lists the marks on the line through a and b, as `search_on` lists those on a place. Refused with the first of 24, 13, 16
// (the filter), 2, 3, 15 and 14 that applies, the list as it was; so is each of the calls below.
// Kept: as `search_on_place`, by C's number: its slices are judged (2) between 16 and 3, and a `Place` is made of positions.
#[tactic(auto, unfolding(crate::specs::Place::asked_of))]
pub fn search_on_line(
    sheet: GridSearch,
    library: Library,
    a: &[f64],
    b: &[f64],
    filter: Filter,
    list: &mut [u64],
) -> Result<usize, Refusal>
    ensures { Lists (listing sheet (lent library.entry) (line a.now b.now) filter list.old) result list.new }
{
    search_on_place(sheet, library, 0, a, b, 0.0, filter, list)
}

// Lists the marks on the circle of a centre and a radius, in the plane: 24, 13, 16, 2, 3, 14.
// Kept: as `search_on_place`, by C's number: its slices are judged (2) between 16 and 3, and a `Place` is made of positions.
#[tactic(auto, unfolding(crate::specs::Place::asked_of))]
pub fn search_on_circle(
    sheet: GridSearch,
    library: Library,
    center: &[f64],
    radius: f64,
    filter: Filter,
    list: &mut [u64],
) -> Result<usize, Refusal>
    ensures { Lists (listing sheet (lent library.entry) (circle center.now radius) filter list.old) result list.new }
{
    search_on_place(sheet, library, 1, center, center, radius, filter, list)
}

// Lists the marks on the cylinder in space whose axis goes through a and b: 24, 13, 16, 2, 3, 15, 14.
// Kept: as `search_on_place`, by C's number: its slices are judged (2) between 16 and 3, and a `Place` is made of positions.
#[tactic(auto, unfolding(crate::specs::Place::asked_of))]
pub fn search_on_cylinder(
    sheet: GridSearch,
    library: Library,
    a: &[f64],
    b: &[f64],
    radius: f64,
    filter: Filter,
    list: &mut [u64],
) -> Result<usize, Refusal>
    ensures { Lists (listing sheet (lent library.entry) (cylinder a.now b.now radius) filter list.old) result list.new }
{
    search_on_place(sheet, library, 2, a, b, radius, filter, list)
}

// Lists the marks on the plane parallel to x and y at a z, in space: 24, 13, 16, 3, 14.
#[tactic(auto, unfolding(crate::specs::Place::asked))]
pub fn search_on_plane_xy(
    sheet: GridSearch,
    library: Library,
    z: f64,
    filter: Filter,
    list: &mut [u64],
) -> Result<usize, Refusal>
    ensures { Lists (listing sheet (lent library.entry) (plane 2 z) filter list.old) result list.new }
{
    search_on(sheet, library, Place::PlaneXY(z), filter, list)
}

// Lists the marks on the plane parallel to y and z at an x, in space: 24, 13, 16, 3, 14.
#[tactic(auto, unfolding(crate::specs::Place::asked))]
pub fn search_on_plane_yz(
    sheet: GridSearch,
    library: Library,
    x: f64,
    filter: Filter,
    list: &mut [u64],
) -> Result<usize, Refusal>
    ensures { Lists (listing sheet (lent library.entry) (plane 0 x) filter list.old) result list.new }
{
    search_on(sheet, library, Place::PlaneYZ(x), filter, list)
}

// Lists the marks on the plane parallel to x and z at a y, in space: 24, 13, 16, 3, 14.
#[tactic(auto, unfolding(crate::specs::Place::asked))]
pub fn search_on_plane_xz(
    sheet: GridSearch,
    library: Library,
    y: f64,
    filter: Filter,
    list: &mut [u64],
) -> Result<usize, Refusal>
    ensures { Lists (listing sheet (lent library.entry) (plane 1 y) filter list.old) result list.new }
{
    search_on(sheet, library, Place::PlaneXZ(y), filter, list)
}
