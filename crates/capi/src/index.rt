// A cell index that is handed in, and the search of it.
ghost use Rattle.std.specs.Prelude.{◌≡◌, [], ◌∷◌, length, get_or};
ghost use Rattle.mesh.specs.Mesh.{mesh_of};
ghost use Rattle.grid_cells.specs.Build.{index_lists};
ghost use Rattle.cell_search.specs.Search.{cell_search};
ghost use Rattle.capi.specs.Indexes.{read_index, index_of, ToldCell};

use crate::cells::have_lengths;
use crate::sheet::position_at;
use crate::told::tell;
use geometry::Position;
use grid::Divisions;
use grid_cells::GridCells;

// The index in two lists of the right lengths.
fn read_index(numbers: &[u64], floats: &[f64]) -> GridCells
    requires numbers_length { length numbers.now ≡ 6 }
    requires floats_length { length floats.now ≡ 7 }
    ensures { result ≡ read_index numbers.now floats.now }
{
    let ndiv = Divisions {
        x: numbers[1],
        y: numbers[2],
        z: numbers[3],
    };
    let xmin = position_at(floats, 1);
    let xmax = position_at(floats, 4);
    GridCells {
        ndim: numbers[0] as usize,
        ndiv,
        side_length: floats[0],
        xmin,
        xmax,
        used: numbers[4] as usize,
        large: numbers[5] as usize,
    }
}

// What stands for lists of another length: an index of that dimension whose side is no number, which no search takes for good.
fn no_index(ndim: usize) -> GridCells
    ensures { result ≡ read_index (ndim ∷ []) [] }
{
    let nan = 0.0 / 0.0;
    let nowhere = Position {
        x: nan,
        y: nan,
        z: nan,
    };
    GridCells {
        ndim,
        ndiv: Divisions { x: 0, y: 0, z: 0 },
        side_length: nan,
        xmin: nowhere,
        xmax: nowhere,
        used: 0,
        large: 0,
    }
}

// The dimension that a list starts with: 0 where it is empty.
fn dimension_of(numbers: &[u64]) -> usize
    ensures { result ≡ get_or numbers.now 0 0 }
{
    numbers.first().map_or(0, |ndim| *ndim as usize)
}

// The index in two lists that were handed in.
#[tactic(auto, unfolding(crate::specs::Indexes::index_of))]
fn index_of(numbers: &[u64], floats: &[f64]) -> GridCells
    ensures { result ≡ index_of numbers.now floats.now }
{
    if !have_lengths(numbers, floats) {
        return no_index(dimension_of(numbers));
    }
    read_index(numbers, floats)
}

// Tells whether a cell contains a position: found is 1, cell its number and zeta its coordinates there, or found is 0 and
// both stay. Returns 0, or the first of 1, 24, 19, 13, 25, 2, 3, 11 and 17 that applies, and then writes nothing.
pub fn gemlab_grid_cells_search(
    numbers: &[u64],
    floats: &[f64],
    coords: &[f64],
    corners: &[u32],
    keys: &[u64],
    cells: &[u64],
    large: &[u64],
    x: &[f64],
    zeta: &mut [f64],
    found: &mut u64,
    cell: &mut u64,
) -> u64
    ensures { ToldCell (cell_search (index_of numbers.now floats.now) (mesh_of coords.now corners.now)
        (index_lists keys.now cells.now large.now) zeta.old x.now)
        result zeta.new found.old found.new cell.old cell.new }
{
    let grid = index_of(numbers, floats);
    match mesh_view::search(grid, coords, corners, keys, cells, large, x, zeta) {
        Ok(id) => {
            tell(id.map(|id| id.0), found, cell);
            0
        }
        Err(refusal) => u64::from(refusal),
    }
}
