// A mesh of triangles (2D) or tetrahedra (3D) in two lent slices: the coordinates of its points, and the points at the
// corners of its cells. What gemlab's `mesh/grid_cells.rs` does with one cell at a time.
#![tactic(auto)]

ghost use Rattle.std.specs.Prelude.{ℕ, ◌+◌, ◌*◌, ◌≤◌, ◌<◌, ◌≡◌, true, false, [], ◌∷◌, IfOk, length, get_or};
ghost use Rattle.basics.specs.Answers.{fault_in};
ghost use Rattle.basics.specs.Refusals.{refuse, fault};
ghost use Rattle.floats.specs.Rounded.{zero_f};
ghost use Rattle.geometry.specs.Position.{coords as axes, position_of};
ghost use Rattle.geometry.specs.Cells.{zetas, inside};
ghost use Rattle.mesh.specs.Mesh.{seen, cell_count, point_count, mesh_too_long, broken_mesh, point_at, corners_of, corner_points, box_of, boxed, joined_box, longest_side};
ghost use Rattle.mesh.specs.Cell.{cell_zeta};

use basics::Refusal;
use geometry::{Dimension, Position, Zeta};

// A mesh in two lent lists, and its dimension as it came. The lists are read by a `Dimension`, that of the mesh or of an index,
// once it is judged. Each list has a lifetime of its own.
#[derive(Clone, Copy)]
pub struct Mesh<'a, 'b> {
    pub ndim: usize,
    pub coords: &'a [f64],
    pub corners: &'b [u32],
}

// A mesh of 2 or 3 dimensions whose lists hold whole points and whole cells, and whose corners name points.
#[derive(Clone, Copy)]
pub struct WholeMesh<'a, 'b> {
    pub ndim: Dimension,
    // whose own dimension is not read
    pub mesh: Mesh<'a, 'b>,
    pub ghost whole: { broken_mesh ndim.n (seen mesh) ≡ false },
}

// The least and the greatest coordinate of a cell's corners on each axis.
#[derive(Clone, Copy)]
pub struct BoundingBox {
    pub low: Position,
    pub high: Position,
}

impl<'a, 'b> Mesh<'a, 'b> {
    // The view of two lists.
    pub fn new(ndim: usize, coords: &'a [f64], corners: &'b [u32]) -> Mesh<'a, 'b>
        ensures { (result.ndim ≡ ndim) × ((result.coords ≡ coords.entry) × (result.corners ≡ corners.entry)) }
    {
        Mesh {
            ndim,
            coords,
            corners,
        }
    }

    // How many whole points the coordinates hold.
    #[tactic(auto, unfolding(crate::specs::Mesh::point_count))]
    pub fn point_count(self, ndim: Dimension) -> usize
        ensures { result ≡ point_count ndim.n (seen self.entry) }
    {
        self.coords.len() / ndim.n
    }

    // How many whole cells the corners hold.
    #[tactic(auto, unfolding(crate::specs::Mesh::cell_count))]
    pub fn cell_count(self, ndim: Dimension) -> usize
        ensures { result ≡ cell_count ndim.n (seen self.entry) }
    {
        self.corners.len() / (ndim.n + 1)
    }

    // Whether the flat lists hold more than 65,536 whole points or cells.
    #[tactic(auto, unfolding(crate::specs::Mesh::mesh_too_long, crate::specs::Mesh::point_count, crate::specs::Mesh::cell_count))]
    pub fn is_too_long(self, ndim: Dimension) -> bool
        ensures { result ≡ mesh_too_long ndim.n (seen self.entry) }
    {
        (self.point_count(ndim) > 65536) | (self.cell_count(ndim) > 65536)
    }

    // Whether the flat lists hold no whole number of points or cells, or a corner names no point.
    #[tactic(auto, unfolding(crate::specs::Mesh::broken_mesh))]
    pub fn is_broken(self, ndim: Dimension) -> bool
        ensures { result ≡ broken_mesh ndim.n (seen self.entry) }
    {
        if self.coords.len() % ndim.n != 0 {
            return true;
        }
        if self.corners.len() % (ndim.n + 1) != 0 {
            return true;
        }
        let count = self.point_count(ndim);
        !self.corners.iter().all(|p| (*p as usize) < count)
    }

    // The same mesh, known to be whole, or the refusal 19.
    #[tactic(auto, unfolding(basics::specs::Refusals::fault))]
    pub fn whole(self, ndim: Dimension) -> Result<WholeMesh<'a, 'b>, Refusal>
        ensures judged { fault_in result ≡ fault (refuse 19 (broken_mesh ndim.n (seen self.entry)) ∷ []) }
        ensures same { IfOk result (λ w. (w.ndim.n ≡ ndim.n) × (w.mesh ≡ self.entry)) }
    {
        if self.is_broken(ndim) {
            return Err(Refusal::BrokenMesh);
        }
        Ok(WholeMesh { ndim, mesh: self })
    }

    // The position of a point.
    pub fn point(self, ndim: Dimension, p: usize) -> Position
        requires { p * ndim.n + ndim.n ≤ length self.coords.now }
        ensures { result ≡ position_of (point_at ndim.n (seen self.entry) p) }
    {
        let at = p * ndim.n;
        Position::new(&self.coords[at..at + ndim.n])
    }

    // The number of the point at corner k of a cell.
    #[tactic(auto, using(crate::proofs::Whole::part_in, crate::proofs::Whole::corner_names), unfolding(crate::specs::Mesh::cell_count))]
    pub fn corner_point(self, ndim: Dimension, cell: usize, k: usize) -> usize
        requires cell { cell < cell_count ndim.n (seen self) }
        requires corner { k ≤ ndim.n }
        ensures { result ≡ get_or (corners_of ndim.n (seen self.entry) cell) k 0 }
    {
        self.corners[cell * (ndim.n + 1) + k] as usize
    }
}

// On each axis what f makes of two coordinates.
fn on_axes<F: Fn(f64, f64) -> f64>(p: Position, q: Position, f: F) -> Position
    requires { F.IsAlwaysCallable f }
    ensures x { F.post f p.x q.x result.x }
    ensures y { F.post f p.y q.y result.y }
    ensures z { F.post f p.z q.z result.z }
{
    Position {
        x: f(p.x, q.x),
        y: f(p.y, q.y),
        z: f(p.z, q.z),
    }
}

impl BoundingBox {
    // The box around one position.
    fn around(x: Position) -> BoundingBox
        ensures { result ≡ record { low = x; high = x } }
    {
        BoundingBox { low: x, high: x }
    }

    // The box around two boxes.
    #[tactic(auto, using(crate::proofs::Boxes::zipped), unfolding(crate::specs::Mesh::joined_box))]
    pub fn joined(self, other: BoundingBox) -> BoundingBox
        ensures { (n : ℕ) → boxed n result ≡ joined_box (boxed n self) (boxed n other) }
    {
        BoundingBox {
            low: on_axes(self.low, other.low, floats::min),
            high: on_axes(self.high, other.high, floats::max),
        }
    }

    // Its largest length.
    #[tactic(auto, unfolding(crate::specs::Mesh::longest_side))]
    pub fn largest_length(self, ndim: Dimension) -> f64
        ensures { result ≡ longest_side (boxed ndim.n self) }
    {
        let lengths = Position {
            x: self.high.x - self.low.x,
            y: self.high.y - self.low.y,
            z: self.high.z - self.low.z,
        };
        grid_search::largest(ndim, lengths)
    }
}

impl<'a, 'b> WholeMesh<'a, 'b> {
    // How many cells it has.
    pub fn cell_count(self) -> usize
        ensures { result ≡ cell_count self.entry.ndim.n (seen self.entry.mesh) }
    {
        self.mesh.cell_count(self.ndim)
    }

    // The position of corner k of a cell.
    // Kept: a struct of a mesh and a cell's number could hold this clause; each caller would make it first, under that clause.
    fn corner(self, cell: usize, k: usize) -> Position
        requires cell { cell < cell_count self.ndim.n (seen self.mesh) }
        requires corner { k ≤ self.ndim.n }
        ensures { axes self.entry.ndim.n result ≡ get_or (corner_points self.entry.ndim.n (seen self.entry.mesh) cell) k [] }
    {
        self.mesh
            .point(self.ndim, self.mesh.corner_point(self.ndim, cell, k))
    }

    // The bounding box of a cell.
    // Kept: a struct of a mesh and a cell's number could hold this clause; each caller would make it first, under that clause.
    pub fn bounding_box(self, cell: usize) -> BoundingBox
        requires { cell < cell_count self.ndim.n (seen self.mesh) }
        ensures { boxed self.entry.ndim.n result ≡ box_of self.entry.ndim.n (seen self.entry.mesh) cell }
    {
        let mut all = BoundingBox::around(self.corner(cell, 0));
        for k in 1..self.ndim.n + 1 {
            let x = self.corner(cell, k);
            all = all.joined(BoundingBox::around(x));
        }
        all
    }

    // The coordinates of a position in a cell: three in a triangle, four in a tetrahedron.
    // Kept: a struct of a mesh and a cell's number could hold this clause; each caller would make it first, under that clause.
    pub fn cell_coords(self, cell: usize, x: Position) -> Zeta
        requires { cell < cell_count self.ndim.n (seen self.mesh) }
        ensures { result ≡ cell_zeta self.entry.ndim.n (corner_points self.entry.ndim.n (seen self.entry.mesh) cell) (axes self.entry.ndim.n x) }
    {
        let xa = self.corner(cell, 0);
        let xb = self.corner(cell, 1);
        let xc = self.corner(cell, 2);
        if self.ndim.n == 2 {
            return geometry::triangle_coords(xa, xb, xc, x);
        }
        let xd = self.corner(cell, 3);
        geometry::tetrahedron_coords(xa, xb, xc, xd, x)
    }
}

// Whether a position with these coordinates is in the cell.
#[tactic(auto, using(geometry::proofs::Axes::three))]
pub fn in_cell(ndim: Dimension, zeta: Zeta) -> bool
    ensures { result ≡ inside zero_f (zetas (ndim.n + 1) zeta) }
{
    if ndim.n == 2 {
        return geometry::in_triangle(zeta);
    }
    geometry::in_tetrahedron(zeta)
}
