// Modules 2 and 9: distances between points, lines, circles and cylinders, and the coordinates of a point in a
// triangle or a tetrahedron. Names, operations and their order are those of gemlab's `geometry/algorithms.rs`,
// `triangle.rs` and `tetrahedron.rs`.
#![tactic(auto)]

ghost use Rattle.std.specs.Prelude.{ℕ, ◌^◌, ◌%◌, ◌≡◌, true, cond, [], ◌∷◌, eqb, Float, get_or};
ghost use Rattle.basics.specs.Lists.{all};
ghost use Rattle.basics.specs.Refusals.{refuse, fault, answer};
ghost use Rattle.floats.specs.Rounded.{zero_f};
ghost use Rattle.geometry.specs.Position.{coords, position_of, axis_of, dimension, coordinate, every_axis, some_axis, box_corner};
ghost use Rattle.geometry.specs.Distances.{less, line_of, dot as dot_of, point_square, point_point, too_close, line_square, point_line};
ghost use Rattle.geometry.specs.Distances.{measured, point_point_answer, point_line_answer, point_circle_answer, point_cylinder_answer};
ghost use Rattle.geometry.specs.Cells.{zetas, doubled_area, triangle_coords, tetrahedron_coords, inside};

mod dimension;

use basics::Refusal;
pub use dimension::Dimension;

// A position: three coordinates, of which the third is +0 in 2D.
#[derive(Clone, Copy)]
pub struct Position {
    pub x: f64,
    pub y: f64,
    pub z: f64,
}

// The line through a and b, worked out once for many points: its direction n = b - a, and n ⋅ n.
#[derive(Clone, Copy)]
pub struct Line {
    pub a: Position,
    pub n: Position,
    pub n_dot_n: f64,
}

// The coordinates of a point in a cell: three in a triangle, whose fourth is +0 and none of them, four in a tetrahedron.
#[derive(Clone, Copy)]
pub struct Zeta(pub f64, pub f64, pub f64, pub f64);

// The largest magnitude of a coordinate or a radius: 2^20.
const LIMIT: f64 = 1048576.0;

impl Position {
    // The position with these coordinates. An axis that the list lacks has +0.
    pub fn new(x: &[f64]) -> Position
        ensures { result ≡ position_of x.now }
    {
        let on_axis = |i: usize| x.get(i).copied().unwrap_or(0.0);
        Position {
            x: on_axis(0),
            y: on_axis(1),
            z: on_axis(2),
        }
    }

    // The coordinate on axis i: x for 0, y for 1, else z.
    pub fn axis(self, i: usize) -> f64
        ensures { result ≡ axis_of i self }
    {
        match i {
            0 => self.x,
            1 => self.y,
            _ => self.z,
        }
    }

    // The position with +0 on an axis that is not in use.
    pub fn in_use(self, ndim: Dimension) -> Position
        ensures { result ≡ position_of (coords ndim.n self) }
    {
        if ndim.n == 2 {
            Position { z: 0.0, ..self }
        } else {
            self
        }
    }
}

// Whether a test is passed along every axis in use, where these are its answers along x, y and z.
// Kept: answers of tests and no switch: a closure over the axes would choose the coordinate by its number at each step.
#[tactic(auto, using(crate::proofs::Axes::every_is))]
pub fn on_every_axis(ndim: Dimension, x: bool, y: bool, z: bool) -> bool
    ensures { result ≡ every_axis ndim.n x y z }
{
    x & (y & ((ndim.n == 2) | z))
}

// Whether it is passed along some axis in use.
// Kept: answers of tests and no switch: a closure over the axes would choose the coordinate by its number at each step.
#[tactic(auto, using(crate::proofs::Axes::some_is))]
pub fn on_some_axis(ndim: Dimension, x: bool, y: bool, z: bool) -> bool
    ensures { result ≡ some_axis ndim.n x y z }
{
    x | (y | ((ndim.n != 2) & z))
}

// How many corners a square or a cube has.
pub fn corner_count(ndim: Dimension) -> usize
    ensures { result ≡ 2 ^ ndim.n }
{
    1 << ndim.n
}

// The low end where the last of a corner's digits is 0, and the high end where it is 1.
fn end(low: f64, high: f64, digits: usize) -> f64
    ensures { result ≡ cond (eqb (digits % 2) 0) low high }
{
    if digits % 2 == 0 { low } else { high }
}

// Corner c of the box from low to high: its digit along each axis chooses the end.
pub fn corner(low: Position, high: Position, c: usize) -> Position
    ensures { (n : ℕ) → coords n result ≡ box_corner (coords n low) (coords n high) c }
{
    Position {
        x: end(low.x, high.x, c),
        y: end(low.y, high.y, c / 2),
        z: end(low.z, high.z, c / 2 / 2),
    }
}

// Whether x may be a coordinate or a radius: finite, of magnitude at most 2^20.
pub fn is_coordinate(x: f64) -> bool
    ensures { result ≡ coordinate x }
{
    floats::is_within(LIMIT, x)
}

// Whether every entry may be a coordinate. Unlike `all`, the fold goes to the end in any case, so that a long list is tested
// several entries at a time.
pub fn all_coordinates(x: &[f64]) -> bool
    ensures { result ≡ all coordinate x.now }
{
    x.iter().fold(true, |ok, v| ok & is_coordinate(*v))
}

// Whether every coordinate of p on the axes in use is one.
#[tactic(auto, using(crate::proofs::Axes::judged))]
pub fn position_ok(ndim: Dimension, p: Position) -> bool
    ensures { result ≡ all coordinate (coords ndim.n p) }
{
    on_every_axis(
        ndim,
        is_coordinate(p.x),
        is_coordinate(p.y),
        is_coordinate(p.z),
    )
}

// b - a
fn difference(a: Position, b: Position) -> Position
    ensures { result ≡ less a b }
{
    Position {
        x: b.x - a.x,
        y: b.y - a.y,
        z: b.z - a.z,
    }
}

// u ⋅ v, from the left. In 2D there is no third term, as in gemlab: a sum of -0 would lose its sign to +0.
#[tactic(auto, using(crate::proofs::Axes::three), unfolding(crate::specs::Distances::dot))]
fn dot(ndim: Dimension, u: Position, v: Position) -> f64
    ensures { result ≡ dot_of (coords ndim.n u) (coords ndim.n v) }
{
    if ndim.n == 2 {
        u.x * v.x + u.y * v.y
    } else {
        u.x * v.x + u.y * v.y + u.z * v.z
    }
}

// The square of the distance between two points.
// Kept: a distance has two points and no more; a struct of them would be made at each call and taken apart at once.
#[tactic(auto, using(crate::proofs::Axes::dot_less), unfolding(crate::specs::Distances::point_square))]
pub fn point_square(ndim: Dimension, a: Position, b: Position) -> f64
    ensures { result ≡ point_square (coords ndim.n a) (coords ndim.n b) }
{
    let d = difference(a, b);
    dot(ndim, d, d)
}

// The distance between two points.
// Kept: a distance has two points and no more; a struct of them would be made at each call and taken apart at once.
#[tactic(auto, unfolding(crate::specs::Distances::point_point))]
pub fn point_point(ndim: Dimension, a: Position, b: Position) -> f64
    ensures { result ≡ point_point (coords ndim.n a) (coords ndim.n b) }
{
    floats::sqrt(point_square(ndim, a, b))
}

// The square of the distance of a point from a line.
#[tactic(auto, using(crate::proofs::Axes::square_is))]
pub fn line_square(ndim: Dimension, line: Line, c: Position) -> f64
    ensures { (a b : Position) → line ≡ line_of ndim.n a b → result ≡ line_square (coords ndim.n a) (coords ndim.n b) (coords ndim.n c) }
{
    let n = line.n;
    let n_dot_n = line.n_dot_n;
    // x = c - a
    let x = difference(line.a, c);
    let x_dot_n = dot(ndim, x, n);
    // q = x - n * (x ⋅ n) / (n ⋅ n)
    let q = Position {
        x: x.x - n.x * x_dot_n / n_dot_n,
        y: x.y - n.y * x_dot_n / n_dot_n,
        z: x.z - n.z * x_dot_n / n_dot_n,
    };
    dot(ndim, q, q)
}

impl Line {
    // Kept: a distance has two points and no more; a struct of them would be made at each call and taken apart at once.
    #[tactic(auto, using(crate::proofs::Axes::line_is))]
    pub fn new(ndim: Dimension, a: Position, b: Position) -> Line
        ensures { result ≡ line_of ndim.n a b }
    {
        let n = difference(a, b);
        Line {
            a,
            n,
            n_dot_n: dot(ndim, n, n),
        }
    }

    // Whether the line's ends are too close.
    pub fn too_close(self) -> bool
        ensures { (ndim : ℕ) (a b : Position) → self ≡ line_of ndim a b → result ≡ too_close (coords ndim a) (coords ndim b) }
    {
        self.n_dot_n <= f64::EPSILON
    }

    // The distance of a point c to the line.
    // Kept: not one with the other distance: they share the root, which is `floats::sqrt`, and each takes it of its own square.
    #[tactic(auto, unfolding(crate::specs::Distances::point_line))]
    pub fn distance(self, ndim: Dimension, c: Position) -> f64
        ensures { (a b : Position) → self ≡ line_of ndim.n a b → result ≡ point_line (coords ndim.n a) (coords ndim.n b) (coords ndim.n c) }
    {
        floats::sqrt(line_square(ndim, self, c))
    }
}

// Whether the ends of a line are too close: n ⋅ n, with n = b - a, is at most 2^-52.
// Kept: a distance has two points and no more; a struct of them would be made at each call and taken apart at once.
pub fn too_close(ndim: Dimension, a: Position, b: Position) -> bool
    ensures { result ≡ too_close (coords ndim.n a) (coords ndim.n b) }
{
    Line::new(ndim, a, b).too_close()
}

// The distance between two points, or the refusal 1, 2 or 3.
#[tactic(auto, using(crate::proofs::Axes::limits_are), unfolding(crate::specs::Distances::point_point_answer))]
pub fn point_point_distance(a: &[f64], b: &[f64]) -> Result<f64, Refusal>
    ensures { measured result ≡ point_point_answer a.now b.now }
{
    let ndim = Dimension::try_from(a.len())?;
    if b.len() != ndim.n {
        return Err(Refusal::Length);
    }
    let pa = Position::new(a);
    let pb = Position::new(b);
    if !(position_ok(ndim, pa) & position_ok(ndim, pb)) {
        return Err(Refusal::Limit);
    }
    Ok(point_point(ndim, pa, pb))
}

// The distance of c to the line through a and b, or the refusal 15.
// Kept: a distance has two points and no more; a struct of them would be made at each call and taken apart at once.
#[tactic(auto, unfolding(basics::specs::Refusals::fault, basics::specs::Refusals::answer))]
fn line_distance(ndim: Dimension, a: Position, b: Position, c: Position) -> Result<f64, Refusal>
    ensures { measured result ≡ answer (fault (refuse 15 (too_close (coords ndim.n a) (coords ndim.n b)) ∷ [])) (point_line (coords ndim.n a) (coords ndim.n b) (coords ndim.n c)) }
{
    let line = Line::new(ndim, a, b);
    if line.too_close() {
        return Err(Refusal::Close);
    }
    Ok(line.distance(ndim, c))
}

// The distance of c to the line through a and b, or the refusal 1, 2, 3 or 15.
#[tactic(auto, using(crate::proofs::Axes::limits_are), unfolding(crate::specs::Distances::point_line_answer))]
pub fn point_line_distance(a: &[f64], b: &[f64], c: &[f64]) -> Result<f64, Refusal>
    ensures { measured result ≡ point_line_answer a.now b.now c.now }
{
    let ndim = Dimension::try_from(a.len())?;
    if !((b.len() == ndim.n) & (c.len() == ndim.n)) {
        return Err(Refusal::Length);
    }
    let pa = Position::new(a);
    let pb = Position::new(b);
    let pc = Position::new(c);
    if !(position_ok(ndim, pa) & (position_ok(ndim, pb) & position_ok(ndim, pc))) {
        return Err(Refusal::Limit);
    }
    line_distance(ndim, pa, pb, pc)
}

// The signed distance of p to a circle in the plane, negative inside, or the refusal 1, 16, 2 or 3.
#[tactic(auto, using(crate::proofs::Axes::limits_are), unfolding(crate::specs::Distances::point_circle_answer))]
pub fn point_circle_distance(center: &[f64], radius: f64, p: &[f64]) -> Result<f64, Refusal>
    ensures { measured result ≡ point_circle_answer center.now radius p.now }
{
    let ndim = Dimension::try_from(center.len())?;
    if ndim.n != 2 {
        return Err(Refusal::Unfit);
    }
    if p.len() != ndim.n {
        return Err(Refusal::Length);
    }
    let pc = Position::new(center);
    let pp = Position::new(p);
    if !(position_ok(ndim, pc) & (is_coordinate(radius) & position_ok(ndim, pp))) {
        return Err(Refusal::Limit);
    }
    let center_distance = point_point(ndim, pc, pp);
    Ok(center_distance - radius)
}

// The signed distance of p to the cylinder in space whose axis goes through a and b, negative inside, or the refusal
// 1, 16, 2, 3 or 15.
#[tactic(auto, using(crate::proofs::Axes::limits_are), unfolding(crate::specs::Distances::point_cylinder_answer))]
pub fn point_cylinder_distance(a: &[f64], b: &[f64], radius: f64, p: &[f64]) -> Result<f64, Refusal>
    ensures { measured result ≡ point_cylinder_answer a.now b.now radius p.now }
{
    let ndim = Dimension::try_from(a.len())?;
    if ndim.n != 3 {
        return Err(Refusal::Unfit);
    }
    if !((b.len() == ndim.n) & (p.len() == ndim.n)) {
        return Err(Refusal::Length);
    }
    let pa = Position::new(a);
    let pb = Position::new(b);
    let pp = Position::new(p);
    if !(position_ok(ndim, pa)
        & (position_ok(ndim, pb) & (is_coordinate(radius) & position_ok(ndim, pp))))
    {
        return Err(Refusal::Limit);
    }
    let axis_distance = line_distance(ndim, pa, pb, pp)?;
    Ok(axis_distance - radius)
}

// Twice the area of the triangle xa, xb, xc, below zero where they turn clockwise: `a2` in gemlab.
// Kept: corners by gemlab's names, in which its formulas are written: a struct's name would stand before each of them.
#[tactic(auto, unfolding(crate::specs::Cells::doubled_area))]
pub fn doubled_area(xa: Position, xb: Position, xc: Position) -> f64
    ensures { result ≡ doubled_area xa xb xc }
{
    xa.x * (xb.y - xc.y) + xb.x * (xc.y - xa.y) + xc.x * (xa.y - xb.y)
}

// The three coordinates of xp in the triangle xa, xb, xc: with xp in the place of each corner gemlab's text works out the very
// terms of `a2`.
// Kept: corners by gemlab's names, in which its formulas are written: a struct's name would stand before each of them.
#[tactic(auto, unfolding(crate::specs::Cells::triangle_coords))]
pub fn triangle_coords(xa: Position, xb: Position, xc: Position, xp: Position) -> Zeta
    ensures { result ≡ triangle_coords xa xb xc xp }
{
    let a2 = doubled_area(xa, xb, xc);
    Zeta(
        doubled_area(xp, xb, xc) / a2,
        doubled_area(xa, xp, xc) / a2,
        doubled_area(xa, xb, xp) / a2,
        0.0,
    )
}

// Whether the point with these coordinates is in the cell. A NaN is not below zero, so it counts as inside.
fn is_inside<const N: usize>(zeta: [f64; N]) -> bool
    ensures { result ≡ inside zero_f zeta.entry }
{
    !zeta.iter().any(|z| *z < 0.0)
}

// Whether the point with these coordinates is in the triangle.
pub fn in_triangle(zeta: Zeta) -> bool
    ensures { result ≡ inside zero_f (zetas 3 zeta) }
{
    is_inside([zeta.0, zeta.1, zeta.2])
}

// The four coordinates of xp in the tetrahedron xa, xb, xc, xd.
// Kept: corners by gemlab's names, in which its formulas are written: a struct's name would stand before each of them.
#[tactic(auto, unfolding(crate::specs::Cells::tetrahedron_coords))]
pub fn tetrahedron_coords(
    xa: Position,
    xb: Position,
    xc: Position,
    xd: Position,
    xp: Position,
) -> Zeta
    ensures { result ≡ tetrahedron_coords xa xb xc xd xp }
{
    let x1 = xa.x;
    let y1 = xa.y;
    let z1 = xa.z;
    let x2 = xb.x;
    let y2 = xb.y;
    let z2 = xb.z;
    let x3 = xc.x;
    let y3 = xc.y;
    let z3 = xc.z;
    let x4 = xd.x;
    let y4 = xd.y;
    let z4 = xd.z;
    let x = xp.x;
    let y = xp.y;
    let z = xp.z;
    let v6 = (x2 - x1) * ((y2 - y3) * (z3 - z4) - (y3 - y4) * (z2 - z3))
        + (x3 - x2) * ((y3 - y4) * (z1 - z2) - (y1 - y2) * (z3 - z4))
        + (x4 - x3) * ((y1 - y2) * (z2 - z3) - (y2 - y3) * (z1 - z2));
    Zeta(
        ((x2 * (y3 * z4 - y4 * z3) + x3 * (y4 * z2 - y2 * z4) + x4 * (y2 * z3 - y3 * z2))
            + x * ((y4 - y2) * (z3 - z2) - (y3 - y2) * (z4 - z2))
            + y * ((x3 - x2) * (z4 - z2) - (x4 - x2) * (z3 - z2))
            + z * ((x4 - x2) * (y3 - y2) - (x3 - x2) * (y4 - y2)))
            / v6,
        ((x1 * (y4 * z3 - y3 * z4) + x3 * (y1 * z4 - y4 * z1) + x4 * (y3 * z1 - y1 * z3))
            + x * ((y3 - y1) * (z4 - z3) - (y3 - y4) * (z1 - z3))
            + y * ((x4 - x3) * (z3 - z1) - (x1 - x3) * (z3 - z4))
            + z * ((x3 - x1) * (y4 - y3) - (x3 - x4) * (y1 - y3)))
            / v6,
        ((x1 * (y2 * z4 - y4 * z2) + x2 * (y4 * z1 - y1 * z4) + x4 * (y1 * z2 - y2 * z1))
            + x * ((y2 - y4) * (z1 - z4) - (y1 - y4) * (z2 - z4))
            + y * ((x1 - x4) * (z2 - z4) - (x2 - x4) * (z1 - z4))
            + z * ((x2 - x4) * (y1 - y4) - (x1 - x4) * (y2 - y4)))
            / v6,
        ((x1 * (y3 * z2 - y2 * z3) + x2 * (y1 * z3 - y3 * z1) + x3 * (y2 * z1 - y1 * z2))
            + x * ((y1 - y3) * (z2 - z1) - (y1 - y2) * (z3 - z1))
            + y * ((x2 - x1) * (z1 - z3) - (x3 - x1) * (z1 - z2))
            + z * ((x1 - x3) * (y2 - y1) - (x1 - x2) * (y3 - y1)))
            / v6,
    )
}

// Whether the point with these coordinates is in the tetrahedron.
pub fn in_tetrahedron(zeta: Zeta) -> bool
    ensures { result ≡ inside zero_f (zetas 4 zeta) }
{
    is_inside([zeta.0, zeta.1, zeta.2, zeta.3])
}
