// What turns a place and a filter away, and the place that a number and slices name.
ghost use Rattle.std.specs.Prelude.{◌≡◌, Float};
ghost use Rattle.listing.specs.Place.{asked_of, asked as asked_in, unfit, unfit_filter, wrong_length, place_limits, filter_limits, pinched};
ghost use Rattle.listing.specs.Posts.{Named};

use crate::{Filter, Place};
use geometry::{Dimension, Position};

// Whether there is no such place in so many dimensions: 16.
#[tactic(auto, unfolding(crate::specs::Place::asked, crate::specs::Place::unfit))]
pub(crate) fn is_unfit(ndim: Dimension, place: Place) -> bool
    ensures { result ≡ unfit ndim.n (asked_in ndim.n place) }
{
    match place {
        Place::Line(_, _) => false,
        Place::Circle(_, _) => ndim.n != 2,
        _ => ndim.n != 3,
    }
}

// Whether the filter is on an axis that is not there: 16.
#[tactic(auto, unfolding(crate::specs::Place::unfit_filter))]
pub(crate) fn is_unfit_filter(ndim: Dimension, filter: Filter) -> bool
    ensures { result ≡ unfit_filter ndim.n filter }
{
    match filter {
        Filter::Everything => false,
        Filter::Range {
            axis,
            low: _,
            high: _,
        } => ndim.n as u64 <= axis,
    }
}

// Whether a position of the place of a number has another length than the dimension: 2.
// Kept: C names a place by a number, with its slices apart; 16 is judged by the number, and then 2 by the slices.
#[tactic(auto, unfolding(crate::specs::Place::asked_of, crate::specs::Place::wrong_length))]
pub(crate) fn has_wrong_length(ndim: Dimension, place: u64, a: &[f64], b: &[f64]) -> bool
    ensures { (v : Float) → result ≡ wrong_length ndim.n (asked_of place a.now b.now v) }
{
    match place {
        0 | 2 => !((a.len() == ndim.n) & (b.len() == ndim.n)),
        1 => a.len() != ndim.n,
        _ => false,
    }
}

// Whether every coordinate of the place, its radius included, is one: else 3.
#[tactic(auto, unfolding(crate::specs::Place::asked, crate::specs::Place::place_limits))]
pub(crate) fn place_ok(ndim: Dimension, place: Place) -> bool
    ensures { result ≡ place_limits (asked_in ndim.n place) }
{
    match place {
        Place::Line(a, b) => geometry::position_ok(ndim, a) & geometry::position_ok(ndim, b),
        Place::Circle(center, radius) => {
            geometry::position_ok(ndim, center) & geometry::is_coordinate(radius)
        }
        Place::Cylinder(a, b, radius) => {
            geometry::position_ok(ndim, a)
                & (geometry::position_ok(ndim, b) & geometry::is_coordinate(radius))
        }
        Place::PlaneXY(v) | Place::PlaneYZ(v) | Place::PlaneXZ(v) => geometry::is_coordinate(v),
    }
}

// Whether the ends of a range are coordinates: else 3.
#[tactic(auto, unfolding(crate::specs::Place::filter_limits))]
pub(crate) fn filter_ok(filter: Filter) -> bool
    ensures { result ≡ filter_limits filter }
{
    match filter {
        Filter::Everything => true,
        Filter::Range { axis: _, low, high } => {
            geometry::is_coordinate(low) & geometry::is_coordinate(high)
        }
    }
}

// The place of a number and slices, where the number names one. Where a slice has another length than the dimension, it is
// some place of the kind, which no caller lists.
// Kept: the C interface names a place by a number.
#[tactic(auto, unfolding(crate::specs::Place::asked_of))]
pub(crate) fn made(place: u64, a: &[f64], b: &[f64], number: f64) -> Option<Place>
    ensures { Named place a.now b.now number result }
{
    match place {
        0 => Some(Place::Line(Position::new(a), Position::new(b))),
        1 => Some(Place::Circle(Position::new(a), number)),
        2 => Some(Place::Cylinder(Position::new(a), Position::new(b), number)),
        3 => Some(Place::PlaneXY(number)),
        4 => Some(Place::PlaneYZ(number)),
        5 => Some(Place::PlaneXZ(number)),
        _ => None,
    }
}

// Whether the ends of a line or a cylinder are too close: 15.
#[tactic(auto, unfolding(crate::specs::Place::asked, crate::specs::Place::pinched))]
pub(crate) fn is_pinched(ndim: Dimension, place: Place) -> bool
    ensures { result ≡ pinched (asked_in ndim.n place) }
{
    match place {
        Place::Line(a, b) | Place::Cylinder(a, b, _) => geometry::too_close(ndim, a, b),
        _ => false,
    }
}
