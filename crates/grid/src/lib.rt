// Modules 3 and 4: how a box is divided into containers, which container a position falls into, and a container's
// centre. From gemlab's `util/num_divisions.rs`, `util/calc_container_key.rs` and the methods of `GridSearch`.
#![tactic(auto)]

ghost use Rattle.std.specs.Prelude.{◌^◌, ◌≤◌, ◌<◌, ◌≡◌, true, ◌||◌};
ghost use Rattle.std.specs.Float.Ieee.{lt};
ghost use Rattle.basics.specs.Lists.{all};
ghost use Rattle.floats.specs.Rounded.{◌⊕◌, ◌⊖◌, ◌⊗◌, ◌⊘◌, of_nat, truncate, pow2};
ghost use Rattle.geometry.specs.Position.{coords, position_of, dimension};
ghost use Rattle.grid.specs.Divisions.{counts, divisions_of, division, longer as longer_of, longest as longest_of, share as share_of, num_divisions};
ghost use Rattle.grid.specs.Containers.{outside, inner as inner_of, along, Fits, combine, located, containers, indices, pivot_of, pivots, centre, InGrid};

use geometry::{Dimension, Position};

// The number of a container.
#[derive(Clone, Copy)]
pub struct ContainerKey(pub u64);

// The divisions along each axis: 1 along the third in 2D.
#[derive(Clone, Copy, PartialEq, Eq)]
pub struct Divisions {
    pub x: u64,
    pub y: u64,
    pub z: u64,
}

// The longest axis found so far, and its length.
#[derive(Clone, Copy)]
pub struct Longest {
    pub axis: usize,
    pub delta: f64,
}

// The indices of a container along each axis: 0 along the third in 2D.
#[derive(Clone, Copy)]
pub struct Pivot {
    pub i: u64,
    pub j: u64,
    pub k: u64,
}

impl Divisions {
    // The divisions with 1 along an axis that is not in use.
    pub fn in_use(self, ndim: Dimension) -> Divisions
        ensures { result ≡ divisions_of (counts ndim.n self) }
    {
        if ndim.n == 2 {
            return Divisions {
                x: self.x,
                y: self.y,
                z: 1,
            };
        }
        self
    }
}

// Whether there are from 1 to 1,024 divisions.
fn is_division(n: u64) -> bool
    ensures { result ≡ division n }
{
    (1 <= n) & (n <= 1024)
}

// Whether there are along each axis in use.
pub fn divisions_ok(ndim: Dimension, ndiv: Divisions) -> bool
    ensures { result ≡ all division (counts ndim.n ndiv) }
{
    geometry::on_every_axis(
        ndim,
        is_division(ndiv.x),
        is_division(ndiv.y),
        is_division(ndiv.z),
    )
}

// The longest axis so far, or this one where it is longer.
fn longer(best: Longest, axis: usize, delta: f64) -> Longest
    ensures { result ≡ longer_of best axis delta }
{
    if delta > best.delta {
        Longest { axis, delta }
    } else {
        best
    }
}

// The first longest axis.
fn longest_axis(ndim: Dimension, delta: Position) -> Longest
    ensures { result ≡ longest_of (coords ndim.n delta) }
{
    let mut best = Longest {
        axis: 0,
        delta: delta.x,
    };
    for axis in 1..ndim.n {
        best = longer(best, axis, delta.axis(axis));
    }
    best
}

// The divisions along an axis: all along the longest, and as many as its length allows along another, but 1 at least.
fn share(ndiv_long: u64, long: Longest, axis: usize, delta: f64) -> u64
    requires { ndiv_long ≤ 1024 }
    ensures { result ≡ share_of ndiv_long long axis delta }
{
    if axis == long.axis {
        return ndiv_long;
    }
    u64::max(
        1,
        floats::truncated((delta / long.delta) * (ndiv_long as f64)),
    )
}

// The divisions of a box whose longest axis has `ndiv_long` of them.
// Kept: a sheet and an index have the corners as two fields, as gemlab has: a struct of both would be made at each call.
pub fn num_divisions(ndim: Dimension, ndiv_long: u64, xmin: Position, xmax: Position) -> Divisions
    requires most { ndiv_long ≤ 1024 }
    ensures { result ≡ divisions_of (num_divisions ndiv_long (coords ndim.n xmin) (coords ndim.n xmax)) }
{
    let delta = Position {
        x: xmax.x - xmin.x,
        y: xmax.y - xmin.y,
        z: xmax.z - xmin.z,
    };
    let long = longest_axis(ndim, delta);
    let ndiv = Divisions {
        x: share(ndiv_long, long, 0, delta.x),
        y: share(ndiv_long, long, 1, delta.y),
        z: share(ndiv_long, long, 2, delta.z),
    };
    ndiv.in_use(ndim)
}

// Whether x lies below the low end or above the high one.
fn is_beyond(xmin: f64, xmax: f64, x: f64) -> bool
    ensures { result ≡ (lt x xmin || lt xmax x) }
{
    x < xmin || x > xmax
}

// Whether a position is outside the box on some axis.
// Kept: a sheet and an index have the corners as two fields, as gemlab has: a struct of both would be made at each call.
pub fn is_outside(ndim: Dimension, xmin: Position, xmax: Position, x: Position) -> bool
    ensures { result ≡ outside (coords ndim.n xmin) (coords ndim.n xmax) (coords ndim.n x) }
{
    geometry::on_some_axis(
        ndim,
        is_beyond(xmin.x, xmax.x, x.x),
        is_beyond(xmin.y, xmax.y, x.y),
        is_beyond(xmin.z, xmax.z, x.z),
    )
}

// How many whole sides x lies above the low end.
fn ratio(side_length: f64, xmin: f64, x: f64) -> u64
    ensures { result ≡ truncate ((x ⊖ xmin) ⊘ side_length) }
{
    floats::truncated((x - xmin) / side_length)
}

// The index of a ratio that does not exceed its divisions: on the high edge the last one.
fn inner(n: u64, ratio: u64) -> u64
    requires some { 1 ≤ n }
    requires within { ratio ≤ n }
    ensures value { result ≡ inner_of n ratio }
    ensures in_range { result < n }
{
    if ratio < n { ratio } else { n - 1 }
}

// The index of the container that x falls into along an axis, or none where the ratio exceeds its divisions.
fn index_along(n: u64, side_length: f64, xmin: f64, x: f64) -> Option<u64>
    requires { 1 ≤ n }
    ensures value { result ≡ along n (truncate ((x ⊖ xmin) ⊘ side_length)) }
    ensures in_range { Fits n result }
{
    let r = ratio(side_length, xmin, x);
    if r > n { None } else { Some(inner(n, r)) }
}

// The key of the container with these indices.
fn combined(ndiv: Divisions, pivot: Pivot) -> u64
    requires divisions { all division (counts 3 ndiv) ≡ true }
    requires in_grid { InGrid (counts 3 ndiv) (indices 3 pivot) }
    ensures { result ≡ combine (counts 3 ndiv) (indices 3 pivot) }
{
    pivot.i + pivot.j * ndiv.x + pivot.k * ndiv.x * ndiv.y
}

// The container that a position falls into, or none where a ratio exceeds its divisions. In 2D the third axis, with one division
// and the index 0, adds nothing.
// Kept: nine callers have this of a sheet or an index, and each would make a struct of two of its fields for this call.
pub fn calc_container_key(
    ndim: Dimension,
    side_length: f64,
    ndiv: Divisions,
    xmin: Position,
    x: Position,
) -> Option<ContainerKey>
    requires divisions { all division (counts ndim.n ndiv) ≡ true }
    ensures { result ≡ located (counts ndim.n ndiv) side_length (coords ndim.n xmin) (coords ndim.n x) }
{
    let n = ndiv.in_use(ndim);
    let i = index_along(n.x, side_length, xmin.x, x.x)?;
    let j = index_along(n.y, side_length, xmin.y, x.y)?;
    let k = if ndim.n == 3 {
        index_along(n.z, side_length, xmin.z, x.z)?
    } else {
        0
    };
    Some(ContainerKey(combined(n, Pivot { i, j, k })))
}

// How many containers there are.
// Kept: nine callers have this of a sheet or an index, and each would make a struct of two of its fields for this call.
pub fn container_count(ndim: Dimension, ndiv: Divisions) -> u64
    requires divisions { all division (counts ndim.n ndiv) ≡ true }
    ensures { result ≡ containers (counts ndim.n ndiv) }
{
    let n = ndiv.in_use(ndim);
    n.x * n.y * n.z
}

// The indices of a container. In 2D the third is 0.
// Kept: nine callers have this of a sheet or an index, and each would make a struct of two of its fields for this call.
pub fn pivot_indices(ndim: Dimension, ndiv: Divisions, key: ContainerKey) -> Pivot
    requires divisions { all division (counts ndim.n ndiv) ≡ true }
    requires key_in_range { key.0 < containers (counts ndim.n ndiv) }
    ensures { result ≡ pivot_of (pivots (counts ndim.n ndiv) key.0) }
{
    let d = ndiv.in_use(ndim);
    let n = d.x * d.y;
    Pivot {
        i: key.0 % d.x,
        j: (key.0 % n) / d.x,
        k: key.0 / n,
    }
}

// The middle of the container with index i along an axis.
fn middle(side_length: f64, xmin: f64, i: u64) -> f64
    requires { i ≤ 2 ^ 53 }
    ensures { result ≡ xmin ⊕ of_nat i ⊗ side_length ⊕ side_length ⊘ pow2 1 }
{
    xmin + (i as f64) * side_length + side_length / 2.0
}

// The centre of a container.
// Kept: nine callers have this of a sheet or an index, and each would make a struct of two of its fields for this call.
pub fn container_center(
    ndim: Dimension,
    side_length: f64,
    ndiv: Divisions,
    xmin: Position,
    key: ContainerKey,
) -> Position
    requires divisions { all division (counts ndim.n ndiv) ≡ true }
    requires key_in_range { key.0 < containers (counts ndim.n ndiv) }
    ensures { result ≡ position_of (centre side_length (coords ndim.n xmin) (pivots (counts ndim.n ndiv) key.0)) }
{
    let pivot = pivot_indices(ndim, ndiv, key);
    let center = Position {
        x: middle(side_length, xmin.x, pivot.i),
        y: middle(side_length, xmin.y, pivot.j),
        z: middle(side_length, xmin.z, pivot.k),
    };
    center.in_use(ndim)
}
