// Module 10: the cell at a position. From `GridCells::search` of gemlab's `mesh/grid_cells.rs`.
#![tactic(auto)]

ghost use Rattle.std.specs.Prelude.{◌+◌, ◌<◌, ◌≡◌, ◌||◌, map, eqb, length};
ghost use Rattle.std.specs.Float.Ieee.{lt};
ghost use Rattle.basics.specs.Lists.{keep, over};
ghost use Rattle.basics.specs.Refusals.{fault, answer};
ghost use Rattle.geometry.specs.Position.{coords as axes, axis_of};
ghost use Rattle.geometry.specs.Cells.{zetas as listed};
ghost use Rattle.mesh.specs.Mesh.{mesh_of, seen};
ghost use Rattle.table.specs.Rows.{Slot};
ghost use Rattle.cell_rows.specs.Filing.{cell_key};
ghost use Rattle.grid_cells.specs.Build.{containers_of, index_lists};
ghost use Rattle.grid_cells.specs.Lent.{lent};
ghost use Rattle.cell_index.specs.Index.{cell_rows};
ghost use Rattle.cell_index.specs.Steps.{Numbers};
ghost use Rattle.cell_search.specs.Search.{asked_tests, candidates, cell_search, leaves};
ghost use Rattle.cell_search.specs.Steps.{asked, first_found};

use basics::Refusal;
use cell_index::SoundIndex;
use geometry::{Dimension, Position, Zeta};
use grid::ContainerKey;
use grid_cells::{CellId, GridCells, IndexLists};
use mesh::{BoundingBox, Mesh, WholeMesh};

// A cell that contains a position, and the position's coordinates in it.
#[derive(Clone, Copy)]
struct Found {
    cell: CellId,
    zeta: Zeta,
}

// Writes the coordinates of a position in a cell to the lent list: in 2D the fourth entry stays.
fn write_zeta(ndim: Dimension, z: Zeta, zeta: &mut [f64])
    requires { length zeta.old ≡ 4 }
    ensures { zeta.new ≡ over (listed (ndim.n + 1) z) zeta.old }
{
    let all = [z.0, z.1, z.2, z.3];
    zeta[..ndim.n + 1].copy_from_slice(&all[..ndim.n + 1]);
}

// Whether a position is outside a bounding box on an axis.
fn is_beyond(b: BoundingBox, x: Position, i: usize) -> bool
    ensures { result ≡ (lt (axis_of i x) (axis_of i b.low) || lt (axis_of i b.high) (axis_of i x)) }
{
    let xi = x.axis(i);
    xi < b.low.axis(i) || xi > b.high.axis(i)
}

// The first of these cells that contains a position.
fn find_cell(mesh: WholeMesh, cells: &[u64], x: Position) -> Option<Found>
    requires { Numbers mesh.ndim.n (seen mesh.mesh) cells.now }
    ensures { result ≡ first_found mesh.entry.ndim.n (seen mesh.entry.mesh) (axes mesh.entry.ndim.n x) cells.now }
{
    'outer: for cell_id in cells {
        let cell = *cell_id as usize;
        let b = mesh.bounding_box(cell);
        for i in 0..mesh.ndim.n {
            if is_beyond(b, x, i) {
                continue 'outer; // outside the bounding box
            }
        }
        let zeta = mesh.cell_coords(cell, x);
        if mesh::in_cell(mesh.ndim, zeta) {
            return Some(Found {
                cell: CellId(*cell_id),
                zeta,
            });
        }
    }
    None // none contains the position
}

// The cells of a container's rows: they stand together.
fn own_cells<'c>(index: SoundIndex<'_, '_, 'c>, key: ContainerKey) -> &'c [u64]
    requires { key.0 < 1073741824 }
    ensures cells { result.now ≡ map (λ (p : Slot). p.id) (keep (λ (p : Slot). eqb p.key key.0) (cell_rows index.entry.grid (lent index.entry.lists))) }
    ensures numbers { Numbers index.entry.grid.ndim (seen index.entry.mesh.mesh) result.now }
{
    let keys = &index.lists.keys[..index.grid.used];
    let from = table::first_of(keys, key.0);
    let to = table::first_of(keys, key.0 + 1);
    &index.lists.cells[from..to]
}

// The first large cell that contains a position, and else the first of its container's.
fn find(index: SoundIndex, key: ContainerKey, x: Position) -> Option<Found>
    requires { key.0 < 1073741824 }
    ensures { result ≡ first_found index.entry.grid.ndim (seen index.entry.mesh.mesh) (axes index.entry.grid.ndim x) (candidates index.entry.grid (lent index.entry.lists) key.0) }
{
    let large = &index.lists.large[..index.grid.large];
    match find_cell(index.mesh, large, x) {
        None => find_cell(index.mesh, own_cells(index, key), x),
        found => found,
    }
}

// The container of a position, or the refusal 25, 2, 3, 11 or 17.
// Kept: of the list of coordinates its length alone is judged here; `search_mesh` writes it.
fn locate(index: SoundIndex, nzeta: usize, x: &[f64]) -> Result<ContainerKey, Refusal>
    ensures { asked result ≡ answer (fault (asked_tests index.entry.grid index.entry.mesh.mesh.coords.now nzeta x.now)) (cell_key (containers_of index.entry.grid) x.now) }
{
    let grid = index.grid;
    if nzeta != 4 {
        return Err(Refusal::Coordinates);
    }
    if x.len() != grid.ndim {
        return Err(Refusal::Length);
    }
    if !(geometry::all_coordinates(x) & geometry::all_coordinates(index.mesh.mesh.coords)) {
        return Err(Refusal::Limit);
    }
    let at = Position::new(x);
    if grid::is_outside(index.mesh.ndim, grid.xmin, grid.xmax, at) {
        return Err(Refusal::Outside);
    }
    grid.containers().container(at).ok_or(Refusal::Ratio)
}

// The cell at a position, with the position's coordinates in it, or nothing, or the refusal. Large cells are tried first,
// ascending, then those of the position's container, ascending. Nothing and a refusal leave the list of coordinates as it is.
// The dimension is the index's; the mesh's is not read.
pub fn search_mesh(
    mesh: Mesh,
    grid: GridCells,
    lists: IndexLists,
    x: &[f64],
    zeta: &mut [f64],
) -> Result<Option<CellId>, Refusal>
    ensures { leaves result zeta.new ≡ cell_search grid (seen mesh.entry) (lent lists.entry) zeta.old x.now }
{
    let index = SoundIndex::new(grid, mesh, lists)?;
    let key = locate(index, zeta.len(), x)?;
    let Some(found) = find(index, key, Position::new(x)) else {
        return Ok(None); // no cell contains the position
    };
    write_zeta(index.mesh.ndim, found.zeta, zeta);
    Ok(Some(found.cell))
}

// The same over plain slices.
// Kept: README promises it over plain slices, for callers that have no structs; `search_mesh` is over the structs.
pub fn search(
    grid: GridCells,
    coords: &[f64],
    corners: &[u32],
    keys: &[u64],
    cells: &[u64],
    large: &[u64],
    x: &[f64],
    zeta: &mut [f64],
) -> Result<Option<CellId>, Refusal>
    ensures { leaves result zeta.new ≡ cell_search grid (mesh_of coords.now corners.now) (index_lists keys.now cells.now large.now) zeta.old x.now }
{
    let mesh = Mesh {
        ndim: grid.ndim,
        coords,
        corners,
    };
    search_mesh(mesh, grid, IndexLists { keys, cells, large }, x, zeta)
}
