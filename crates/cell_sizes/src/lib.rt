// What the cells of a mesh measure: the box around them all, which of them are large, and the largest length of those that are filed.
#![tactic(auto)]

ghost use Rattle.std.specs.Prelude.{◌≤◌, ◌<◌, ◌≡◌, true};
ghost use Rattle.floats.specs.Rounded.{◌⊘◌, of_nat};
ghost use Rattle.geometry.specs.Position.{dimension};
ghost use Rattle.mesh.specs.Mesh.{seen, cell_count, boxed};
ghost use Rattle.cell_sizes.specs.Large.{is_large};
ghost use Rattle.cell_sizes.specs.Steps.{Widened, Around, counted as counted_by, Counted, Sized, count_in, files};

use geometry::Dimension;
use mesh::{BoundingBox, WholeMesh};

// The settings of a build of a cell index, each as given or by default.
#[derive(Clone, Copy)]
pub struct Settings {
    pub tolerance: f64,
    pub border_tol: f64,
    pub large_cutoff: f64,
    pub large_pct: f64,
}

// The box around cells, and the largest length of any.
#[derive(Clone, Copy)]
pub struct Extent {
    pub limits: BoundingBox,
    pub largest: f64,
}

// How many cells are large, and the largest length of those that are not, once there is one.
#[derive(Clone, Copy)]
pub struct Census {
    pub large: usize,
    pub longest: Option<f64>,
}

// The large cells that are kept apart: a cell is one from this length on, and there are so many.
#[derive(Clone, Copy)]
pub struct Apart {
    pub limit: f64,
    pub count: usize,
}

// What the cells of a mesh measure.
#[derive(Clone, Copy)]
pub struct Sizes {
    pub limits: BoundingBox,
    // from which length a cell is large
    pub limit: f64,
    // where the percentage keeps the large cells apart
    pub apart: Option<Apart>,
    // the largest length of the cells that are filed
    pub longest: f64,
}

impl Extent {
    // One cell more.
    fn widened(self, ndim: Dimension, b: BoundingBox) -> Extent
        ensures { Widened ndim.n self b result }
    {
        Extent {
            limits: self.limits.joined(b),
            largest: floats::max(self.largest, b.largest_length(ndim)),
        }
    }
}

impl Census {
    // One cell more.
    #[tactic(auto, unfolding(crate::specs::Steps::counted, crate::specs::Large::is_large))]
    fn counted(self, ndim: Dimension, limit: f64, b: BoundingBox) -> Census
        requires few { self.large < 65536 }
        ensures { result ≡ counted_by limit self (boxed ndim.n b) }
    {
        let length = b.largest_length(ndim);
        if length >= limit {
            return Census {
                large: self.large + 1,
                longest: self.longest,
            };
        }
        Census {
            large: self.large,
            longest: Some(
                self.longest
                    .map_or(length, |longest| floats::max(longest, length)),
            ),
        }
    }
}

impl Apart {
    // Whether the cell with this box is large.
    #[tactic(auto, unfolding(crate::specs::Large::is_large))]
    pub fn is_large(self, ndim: Dimension, b: BoundingBox) -> bool
        ensures { result ≡ is_large self.limit (boxed ndim.n b) }
    {
        b.largest_length(ndim) >= self.limit
    }
}

impl Sizes {
    // How many large cells are kept apart.
    pub fn large_count(self) -> usize
        ensures { result ≡ count_in self.apart }
    {
        self.apart.map_or(0, |apart| apart.count)
    }

    // Whether the cell with this box goes into containers.
    #[tactic(auto, unfolding(crate::specs::Large::is_filed))]
    pub fn is_filed(self, ndim: Dimension, b: BoundingBox) -> bool
        ensures { result ≡ files self (boxed ndim.n b) }
    {
        match self.apart {
            Some(apart) => !apart.is_large(ndim, b),
            None => true,
        }
    }
}

// The box around all cells, and the largest length of any.
fn surround(mesh: WholeMesh) -> Extent
    requires { 0 < cell_count mesh.ndim.n (seen mesh.mesh) }
    ensures { Around mesh.entry.ndim.n (seen mesh.entry.mesh) result }
{
    let ndim = mesh.ndim;
    let first = mesh.bounding_box(0);
    let mut all = Extent {
        limits: first,
        largest: first.largest_length(ndim),
    };
    for cell in 1..mesh.cell_count() {
        all = all.widened(ndim, mesh.bounding_box(cell));
    }
    all
}

// How many cells are large, and the largest length of the others.
fn count_large(mesh: WholeMesh, limit: f64) -> Census
    requires { cell_count mesh.ndim.n (seen mesh.mesh) ≤ 65536 }
    ensures { Counted mesh.entry.ndim.n (seen mesh.entry.mesh) limit result }
{
    let ndim = mesh.ndim;
    let mut found = Census {
        large: 0,
        longest: None,
    };
    for cell in 0..mesh.cell_count() {
        found = found.counted(ndim, limit, mesh.bounding_box(cell));
    }
    found
}

// The part that a is of b.
fn part(a: usize, b: usize) -> f64
    requires a { a ≤ 65536 }
    requires b { b ≤ 65536 }
    ensures { result ≡ of_nat a ⊘ of_nat b }
{
    (a as f64) / (b as f64)
}

// What the cells measure.
pub fn measure(mesh: WholeMesh, settings: Settings) -> Sizes
    requires some { 0 < cell_count mesh.ndim.n (seen mesh.mesh) }
    requires few { cell_count mesh.ndim.n (seen mesh.mesh) ≤ 65536 }
    ensures { Sized mesh.entry.ndim.n (seen mesh.entry.mesh) settings result }
{
    let all = surround(mesh);
    let limits = all.limits;
    let limit = settings.large_cutoff * all.largest;
    let found = count_large(mesh, limit);
    if part(found.large, mesh.cell_count()) <= settings.large_pct {
        return Sizes {
            limits,
            limit,
            apart: Some(Apart {
                limit,
                count: found.large,
            }),
            longest: found.longest.unwrap_or(0.0),
        };
    }
    Sizes {
        limits,
        limit,
        apart: None,
        longest: all.largest,
    }
}
