// The build of a cell index, in a list of 6 numbers and a list of 7 floats.
ghost use Rattle.std.specs.Prelude.{◌≡◌};
ghost use Rattle.basics.specs.Answers.{fault_in};
ghost use Rattle.basics.specs.Refusals.{fault};
ghost use Rattle.mesh.specs.Mesh.{mesh_of, seen};
ghost use Rattle.grid_cells.specs.Build.{settings_of, index_lists};
ghost use Rattle.grid_cells.specs.Lent.{lent};
ghost use Rattle.capi.specs.Answers.{number_in};
ghost use Rattle.capi.specs.Sheets.{given_float};
ghost use Rattle.capi.specs.Cells.{cells_numbers, cells_floats, cells_lengths, cells_list_tests, build_in_c, ToldCells};

use crate::sheet::given;
use crate::told::number_of;
use basics::Refusal;
use grid_cells::{GridCells, IndexLists};
use mesh_view::Mesh;

// How many entries an index's lists have.
const NUMBERS: usize = 6;

const FLOATS: usize = 7;

// Whether an index's lists have their lengths.
pub(crate) fn have_lengths(numbers: &[u64], floats: &[f64]) -> bool
    ensures { result ≡ cells_lengths numbers.now floats.now }
{
    (numbers.len() == NUMBERS) & (floats.len() == FLOATS)
}

// What turns a build away by the lists alone: 1, 24, or 13 for an index list of another length.
fn lists_fault(
    mesh: Mesh,
    lists: IndexLists,
    numbers: &[u64],
    floats: &[f64],
) -> Result<(), Refusal>
    ensures { fault_in result ≡ fault (cells_list_tests mesh.entry.ndim (seen mesh.entry) (lent lists.entry) numbers.now floats.now) }
{
    grid_cells::refusals::sizes_fault(mesh, lists)?;
    if !have_lengths(numbers, floats) {
        return Err(Refusal::Damaged);
    }
    Ok(())
}

// An index's list of numbers.
fn numbers_of(grid: GridCells) -> [u64; NUMBERS]
    ensures { result ≡ cells_numbers grid }
{
    [
        grid.ndim as u64,
        grid.ndiv.x,
        grid.ndiv.y,
        grid.ndiv.z,
        grid.used as u64,
        grid.large as u64,
    ]
}

// An index's list of floats.
fn floats_of(grid: GridCells) -> [f64; FLOATS]
    ensures { result ≡ cells_floats grid }
{
    [
        grid.side_length,
        grid.xmin.x,
        grid.xmin.y,
        grid.xmin.z,
        grid.xmax.x,
        grid.xmax.y,
        grid.xmax.z,
    ]
}

// Writes the index of a mesh, or says why there is none, and then writes nothing.
fn build(
    mesh: Mesh,
    tolerance: Option<f64>,
    border_tol: Option<f64>,
    large_cutoff: Option<f64>,
    large_pct: Option<f64>,
    keys: &mut [u64],
    cells: &mut [u64],
    large: &mut [u64],
    numbers: &mut [u64],
    floats: &mut [f64],
) -> Result<(), Refusal>
    ensures { ToldCells (build_in_c mesh.entry.ndim (seen mesh.entry) (settings_of tolerance border_tol large_cutoff large_pct)
        (index_lists keys.old cells.old large.old) numbers.old floats.old)
        (number_in result) (index_lists keys.new cells.new large.new) numbers.old numbers.new floats.old floats.new }
{
    lists_fault(mesh, IndexLists { keys, cells, large }, numbers, floats)?;
    let grid = mesh_view::build(
        mesh.ndim,
        mesh.coords,
        mesh.corners,
        tolerance,
        border_tol,
        large_cutoff,
        large_pct,
        keys,
        cells,
        large,
    )?;
    numbers.copy_from_slice(&numbers_of(grid));
    floats.copy_from_slice(&floats_of(grid));
    Ok(())
}

// Writes the index of a mesh: its rows, its large cells and two lists. Returns 0, or the first of 1, 24, 13, 19, 3, 8, 9, 20,
// 21, 18, 23, 22, 6, 17 and 12 that applies, and then writes nothing.
pub fn gemlab_grid_cells_new(
    ndim: u64,
    coords: &[f64],
    corners: &[u32],
    tolerance_given: u64,
    tolerance: f64,
    border_tol_given: u64,
    border_tol: f64,
    large_cutoff_given: u64,
    large_cutoff: f64,
    large_pct_given: u64,
    large_pct: f64,
    keys: &mut [u64],
    cells: &mut [u64],
    large: &mut [u64],
    numbers: &mut [u64],
    floats: &mut [f64],
) -> u64
    ensures { ToldCells (build_in_c ndim (mesh_of coords.now corners.now)
        (settings_of (given_float tolerance_given tolerance) (given_float border_tol_given border_tol) (given_float large_cutoff_given large_cutoff) (given_float large_pct_given large_pct))
        (index_lists keys.old cells.old large.old) numbers.old floats.old)
        result (index_lists keys.new cells.new large.new) numbers.old numbers.new floats.old floats.new }
{
    number_of(build(
        Mesh {
            ndim: ndim as usize,
            coords,
            corners,
        },
        given(tolerance_given, tolerance),
        given(border_tol_given, border_tol),
        given(large_cutoff_given, large_cutoff),
        given(large_pct_given, large_pct),
        keys,
        cells,
        large,
        numbers,
        floats,
    ))
}
