// The mesh view: a struct that holds the lent coordinates and corner lists, and thin functions over it. Each hands what the view
// holds to the function that does the work.
#![tactic(auto)]

ghost use Rattle.std.specs.Prelude.{◌≡◌};
ghost use Rattle.mesh.specs.Mesh.{mesh_of, seen};
ghost use Rattle.grid_cells.specs.Build.{settings_of, index_lists, build, leaves as leaves_index, leaves_lists};
ghost use Rattle.grid_cells.specs.Lent.{lent, lent_mut, SameLists};
ghost use Rattle.cell_search.specs.Search.{cell_search, leaves};

use basics::Refusal;
use grid_cells::{CellId, GridCells, IndexLists, IndexListsMut, OptionalSettings};
pub use mesh::Mesh;

// `GridCells::new` of a view.
pub fn grid_cells(
    mesh: Mesh,
    given: OptionalSettings,
    lists: &mut IndexListsMut,
) -> Result<GridCells, Refusal>
    ensures builds { leaves_index result (lent_mut lists.new)
        ≡ build mesh.entry.ndim (seen mesh.entry)
        (settings_of given.tolerance given.border_tol given.large_cutoff given.large_pct) (lent_mut lists.old) }
    ensures same_lists { SameLists lists.old lists.new }
{
    GridCells::new(
        mesh.ndim,
        mesh.coords,
        mesh.corners,
        given.tolerance,
        given.border_tol,
        given.large_cutoff,
        given.large_pct,
        lists.keys,
        lists.cells,
        lists.large,
    )
}

// `cell_search::search` of a view. The dimension is the index's; the view's is not read.
// Kept: what the request asks with, in its order; a struct of it would be taken apart at once.
pub fn search_in(
    mesh: Mesh,
    grid: GridCells,
    lists: IndexLists,
    x: &[f64],
    zeta: &mut [f64],
) -> Result<Option<CellId>, Refusal>
    ensures { leaves result zeta.new ≡ cell_search grid (seen mesh.entry) (lent lists.entry) zeta.old x.now }
{
    cell_search::search(
        grid,
        mesh.coords,
        mesh.corners,
        lists.keys,
        lists.cells,
        lists.large,
        x,
        zeta,
    )
}

// The index of a mesh, built through its view: `GridCells::new` for callers that have no view.
// Kept: C hands over plain slices and one setting after another, and `capi` calls this; `grid_cells` is over the structs.
pub fn build(
    ndim: usize,
    coords: &[f64],
    corners: &[u32],
    tolerance: Option<f64>,
    border_tol: Option<f64>,
    large_cutoff: Option<f64>,
    large_pct: Option<f64>,
    keys: &mut [u64],
    cells: &mut [u64],
    large: &mut [u64],
) -> Result<GridCells, Refusal>
    ensures { leaves_lists result keys.new cells.new large.new
        ≡ build ndim (mesh_of coords.now corners.now) (settings_of tolerance border_tol large_cutoff large_pct) (index_lists keys.old cells.old large.old) }
{
    let given = OptionalSettings {
        tolerance,
        border_tol,
        large_cutoff,
        large_pct,
    };
    let mut lists = IndexListsMut { keys, cells, large };
    grid_cells(Mesh::new(ndim, coords, corners), given, &mut lists)
}

// The cell at a position, found through the mesh's view: `cell_search::search` for callers that have no view.
// Kept: C hands over plain slices, and `capi` calls this; `search_in` is over the structs.
pub fn search(
    grid: GridCells,
    coords: &[f64],
    corners: &[u32],
    keys: &[u64],
    cells: &[u64],
    large: &[u64],
    x: &[f64],
    zeta: &mut [f64],
) -> Result<Option<CellId>, Refusal>
    ensures { leaves result zeta.new ≡ cell_search grid (mesh_of coords.now corners.now) (index_lists keys.now cells.now large.now) zeta.old x.now }
{
    let mesh = Mesh::new(grid.ndim, coords, corners);
    search_in(mesh, grid, IndexLists { keys, cells, large }, x, zeta)
}
