// Which rows count: the distance of a point from a place, the filter, and the tests of a container and of a point.
ghost use Rattle.std.specs.Prelude.{◌<◌, ◌≡◌, true, false, ◌&&◌, ◌⊎◌, Float};
ghost use Rattle.std.specs.Float.{inf};
ghost use Rattle.std.specs.Float.Ieee.{neg, le};
ghost use Rattle.floats.specs.Tests.{within};
ghost use Rattle.geometry.specs.Axes.{dimension};
ghost use Rattle.geometry.specs.Position.{coords};
ghost use Rattle.grid.specs.Divisions.{counts};
ghost use Rattle.grid.specs.Containers.{containers};
ghost use Rattle.listing.specs.Place.{asked, unfit, unfit_filter, place_distance, passes, container_near, point_near, centre_of};
ghost use Rattle.windows.specs.Window.{lies};
ghost use Rattle.rows.specs.Posts.{Divided};
ghost use Rattle.listing.specs.Ready.{Lined, Windowed, MadeFor};

use crate::{Filter, Place};
use geometry::{Dimension, Line, Position};
use grid::ContainerKey;
use grid_search::GridSearch;
use windows::Window;

// A place made ready for many points: the line through its ends, and the windows for a container's centre and for a point.
#[derive(Clone, Copy)]
pub(crate) struct Ready {
    pub(crate) place: Place,
    pub(crate) line: Line,
    pub(crate) center: Window,
    pub(crate) point: Window,
}

// The window of the distances from a place that lie from one bound to another.
fn window_of(place: Place, from: f64, to: f64) -> Window
    requires { (from ≡ inf true) ⊎ (from ≡ neg to) }
    ensures tells { Windowed place result }
    ensures from { result.from ≡ from }
    ensures to { result.to ≡ to }
{
    match place {
        Place::Line(_, _) => Window::new(None, from, to),
        Place::Circle(_, radius) | Place::Cylinder(_, _, radius) => {
            Window::new(Some(radius), from, to)
        }
        _ => Window::untried(from, to),
    }
}

const NOWHERE: Position = Position {
    x: 0.0,
    y: 0.0,
    z: 0.0,
};

// The line through a place's ends. Of another place it is not used.
fn line_of(ndim: Dimension, place: Place) -> Line
    ensures { Lined ndim.n place result }
{
    match place {
        Place::Line(a, b) | Place::Cylinder(a, b, _) => Line::new(ndim, a, b),
        _ => Line::new(ndim, NOWHERE, NOWHERE),
    }
}

// The place made ready: for a container's centre distances up to container radius + tol_dist count, for a point those
// whose magnitude is at most tol_dist.
// Kept: `SoundLibrary` and `Walk` above hold this; a type for the sheet alone would be made of theirs for this one call.
pub(crate) fn made_ready(sheet: GridSearch, place: Place) -> Ready
    requires { dimension sheet.ndim ≡ true }
    ensures made { MadeFor sheet result }
    ensures place { result.place ≡ place }
{
    let tol_dist = sheet.tol_dist;
    Ready {
        place,
        line: line_of(Dimension { n: sheet.ndim }, place),
        center: window_of(
            place,
            f64::from_bits(0xfff0_0000_0000_0000),
            sheet.radius + tol_dist,
        ),
        point: window_of(place, -tol_dist, tol_dist),
    }
}

// Whether the distance of a point lies in a window. The place is told apart before the point is worked out: a plane takes one
// coordinate of it, and the compiler leaves the others out. Of that one the magnitude is compared, since no branch on its side of
// the plane could be foreseen.
fn lies_at<F: Fn() -> Position>(
    ndim: Dimension,
    place: Place,
    line: Line,
    w: Window,
    point: F,
) -> bool
    requires callable { F.IsAlwaysCallable point }
    requires fit { unfit ndim.n (asked ndim.n place) ≡ false }
    requires line { Lined ndim.n place line }
    requires window { Windowed place w }
    ensures { (x : Position) × (F.post point x × (result ≡ lies w.from w.to (place_distance (asked ndim.n place) (coords ndim.n x)))) }
{
    match place {
        Place::Line(_, _) => w.holds(geometry::line_square(ndim, line, point())),
        Place::Circle(center, _) => w.holds(geometry::point_square(ndim, center, point())),
        Place::Cylinder(_, _, _) => w.holds(geometry::line_square(ndim, line, point())),
        Place::PlaneXY(z) => magnitude(point().z - z) <= w.to,
        Place::PlaneYZ(x) => magnitude(point().x - x) <= w.to,
        Place::PlaneXZ(y) => magnitude(point().y - y) <= w.to,
    }
}

// Whether the filter keeps a point.
#[tactic(auto, unfolding(crate::specs::Place::passes))]
pub(crate) fn keeps(ndim: Dimension, filter: Filter, x: Position) -> bool
    requires { unfit_filter ndim.n filter ≡ false }
    ensures { result ≡ passes filter (coords ndim.n x) }
{
    match filter {
        Filter::Everything => true,
        Filter::Range { axis, low, high } => {
            let v = x.axis(axis as usize);
            (low <= v) & (v <= high)
        }
    }
}

// The magnitude, for a comparison: a zero may keep its sign. With one test the compiler makes no branch of it.
fn magnitude(x: f64) -> f64
    ensures { (t : Float) → le result t ≡ within t x }
{
    if x < 0.0 { -x } else { x }
}

// The centre of a container.
// Kept: `SoundLibrary` and `Walk` above hold this; a type for the sheet alone would be made of theirs for this one call.
fn center_of(sheet: GridSearch, key: ContainerKey) -> Position
    requires divided { Divided sheet }
    requires key { key.0 < containers (counts sheet.ndim sheet.ndiv) }
    ensures { coords sheet.ndim result ≡ centre_of sheet key.0 }
{
    let ndim = Dimension { n: sheet.ndim };
    grid::container_center(ndim, sheet.side_length, sheet.ndiv, sheet.xmin, key)
}

// Whether a container's centre is within container radius + tol_dist of the place, by the signed distance.
// Kept: `SoundLibrary` and `Walk` above hold this; a type for the sheet alone would be made of theirs for this one call.
pub(crate) fn container_near(sheet: GridSearch, r: Ready, key: ContainerKey) -> bool
    requires divided { Divided sheet }
    requires fit { unfit sheet.ndim (asked sheet.ndim r.place) ≡ false }
    requires key { key.0 < containers (counts sheet.ndim sheet.ndiv) }
    requires made { MadeFor sheet r }
    ensures { result ≡ container_near sheet (asked sheet.ndim r.place) key.0 }
{
    let ndim = Dimension { n: sheet.ndim };
    lies_at(ndim, r.place, r.line, r.center, || center_of(sheet, key))
}

// Whether a point is within tol_dist of the place, by the magnitude of its distance, and kept by the filter.
// Kept: `SoundLibrary` and `Walk` above hold this; a type for the sheet alone would be made of theirs for this one call.
pub(crate) fn point_counts(sheet: GridSearch, r: Ready, filter: Filter, x: Position) -> bool
    requires axes { dimension sheet.ndim ≡ true }
    requires fit { unfit sheet.ndim (asked sheet.ndim r.place) ≡ false }
    requires filter { unfit_filter sheet.ndim filter ≡ false }
    requires made { MadeFor sheet r }
    ensures { result ≡ (point_near sheet (asked sheet.ndim r.place) (coords sheet.ndim x) && passes filter (coords sheet.ndim x)) }
{
    let ndim = Dimension { n: sheet.ndim };
    lies_at(ndim, r.place, r.line, r.point, || x) & keeps(ndim, filter, x)
}
