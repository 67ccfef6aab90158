// Module 10: an index of the cells of a mesh, to find them by position. From gemlab's `mesh/grid_cells.rs`, for triangles (2D) and
// tetrahedra (3D), over plain slices: flat coordinates, and 3 or 4 corners per cell.
#![tactic(auto)]

ghost use Rattle.std.specs.Prelude.{◌≡◌};
ghost use Rattle.mesh.specs.Mesh.{mesh_of, seen};
ghost use Rattle.cell_sizes.specs.Large.{boxes};
ghost use Rattle.cell_sizes.specs.Steps.{kept, limit_in};
ghost use Rattle.grid_cells.specs.Build.{settings_of, containers_of, index_lists, build, leaves, leaves_lists};
ghost use Rattle.grid_cells.specs.Lent.{lent_mut, SameLists};
ghost use Rattle.grid_cells.specs.Steps.{Finishable, finish_of};

mod frame;
mod lists;
pub mod refusals;

use basics::Refusal;
use cell_rows::{Containers, Filing};
use cell_sizes::{Settings, Sizes};
use geometry::Position;
use grid::Divisions;
pub use lists::{IndexLists, IndexListsMut};
use mesh::{Mesh, WholeMesh};

// The number of a cell.
#[derive(Clone, Copy)]
pub struct CellId(pub u64);

// The index: its rows (key, cell) and its large cells stand in lent slices. In 2D every third coordinate that the build
// writes is +0 and the third division 1.
#[derive(Clone, Copy)]
pub struct GridCells {
    pub ndim: usize,
    pub ndiv: Divisions,
    pub side_length: f64,
    pub xmin: Position,
    pub xmax: Position,
    // rows and large cells in use
    pub used: usize,
    pub large: usize,
}

// The settings of a build as given: each may be left out.
#[derive(Clone, Copy)]
pub struct OptionalSettings {
    pub tolerance: Option<f64>,
    pub border_tol: Option<f64>,
    pub large_cutoff: Option<f64>,
    pub large_pct: Option<f64>,
}

impl OptionalSettings {
    // The settings in force.
    pub fn in_force(self) -> Settings
        ensures { result ≡ settings_of self.tolerance self.border_tol self.large_cutoff self.large_pct }
    {
        Settings {
            tolerance: self.tolerance.unwrap_or(GridCells::TOLERANCE),
            border_tol: self.border_tol.unwrap_or(GridCells::BORDER_TOL),
            large_cutoff: self.large_cutoff.unwrap_or(GridCells::LARGE_CUTOFF),
            large_pct: self.large_pct.unwrap_or(GridCells::LARGE_PCT),
        }
    }
}

impl GridCells {
    // the default of the tolerance, which widens a container's side on both ends
    pub const TOLERANCE: f64 = 1e-4;
    // the default of the border around the mesh
    pub const BORDER_TOL: f64 = 1e-2;
    // a cell of at least this part of the largest length is large, by default
    pub const LARGE_CUTOFF: f64 = 0.75;
    // large cells are kept apart if at most this part of the cells is large, by default
    pub const LARGE_PCT: f64 = 0.2;

    // Where its containers lie.
    // Kept: of the same shape as a directory's `as_directory`, but the fields are others, and no trait would join the two.
    pub fn containers(self) -> Containers
        ensures { result ≡ containers_of self }
    {
        Containers {
            ndim: self.ndim,
            ndiv: self.ndiv,
            side_length: self.side_length,
            xmin: self.xmin,
        }
    }

    // The same index with its rows and large cells in the lent lists, or the refusal 17 or 12.
    fn filed(
        self,
        sizes: Sizes,
        mesh: WholeMesh,
        lists: &mut IndexListsMut,
    ) -> Result<GridCells, Refusal>
        requires { Finishable self sizes mesh.ndim.n (seen mesh.mesh) (lent_mut lists.old) }
        ensures files { leaves result (lent_mut lists.new)
            ≡ finish_of self (kept sizes.apart) (limit_in sizes.apart) (boxes self.ndim (seen mesh.entry.mesh)) (lent_mut lists.old) }
        ensures same_lists { SameLists lists.old lists.new }
    {
        let filing = Filing {
            grid: self.containers(),
            sizes,
            mesh,
        };
        let used = filing.count_rows().ok_or(Refusal::Ratio)?;
        if (used > lists.keys.len()) | (self.large > lists.large.len()) {
            return Err(Refusal::Full);
        }
        filing.file_cells(lists.keys, lists.cells);
        cell_rows::write_large(mesh, sizes, lists.large);
        Ok(GridCells { used, ..self })
    }

    // The index of a mesh by settings in force. Rows go to the front of `keys` and `cells`, in strict order of key and cell,
    // and large cells, ascending, to the front of `large`. A refusal leaves the three lists as they are.
    pub fn build(
        mesh: Mesh,
        settings: Settings,
        lists: &mut IndexListsMut,
    ) -> Result<GridCells, Refusal>
        ensures builds { leaves result (lent_mut lists.new) ≡ build mesh.entry.ndim (seen mesh.entry) settings (lent_mut lists.old) }
        ensures same_lists { SameLists lists.old lists.new }
    {
        let mesh = refusals::judged(mesh, settings, lists.as_lists())?;
        let sizes = cell_sizes::measure(mesh, settings);
        let grid = frame::frame(mesh, sizes, settings)?;
        grid.filed(sizes, mesh, lists)
    }

    // The index of a mesh in plain slices, by settings as given: `build`, with its lists.
    // Kept: README promises it over plain slices, for callers that have no structs; `build` and `in_force` are over the structs.
    pub fn new(
        ndim: usize,
        coords: &[f64],
        corners: &[u32],
        tolerance: Option<f64>,
        border_tol: Option<f64>,
        large_cutoff: Option<f64>,
        large_pct: Option<f64>,
        keys: &mut [u64],
        cells: &mut [u64],
        large: &mut [u64],
    ) -> Result<GridCells, Refusal>
        ensures { leaves_lists result keys.new cells.new large.new
            ≡ build ndim (mesh_of coords.now corners.now) (settings_of tolerance border_tol large_cutoff large_pct) (index_lists keys.old cells.old large.old) }
    {
        let settings = OptionalSettings {
            tolerance,
            border_tol,
            large_cutoff,
            large_pct,
        };
        let mut lists = IndexListsMut { keys, cells, large };
        Self::build(
            Mesh::new(ndim, coords, corners),
            settings.in_force(),
            &mut lists,
        )
    }
}
