// The check of a cell index that is handed in, with the mesh that it was built for: what every call that takes an index
// judges first.
#![tactic(auto)]

ghost use Rattle.std.specs.Prelude.{◌≡◌, true, ◌&&◌, IfOk, length};
ghost use Rattle.std.specs.Float.Ieee.{le};
ghost use Rattle.basics.specs.Answers.{fault_in};
ghost use Rattle.basics.specs.Lists.{all};
ghost use Rattle.basics.specs.Refusals.{fault};
ghost use Rattle.floats.specs.Rounded.{pow2, pow2⁻};
ghost use Rattle.geometry.specs.Position.{coords as axes, dimension};
ghost use Rattle.mesh.specs.Mesh.{seen, cell_count};
ghost use Rattle.table.specs.Rows.{slots_of};
ghost use Rattle.grid_cells.specs.Lent.{lent};
ghost use Rattle.cell_index.specs.Index.{corner_limit, ordered, good_index, enough_entries, good_rows, good_numbers, sound_index, index_tests};

use basics::Refusal;
use geometry::{Dimension, Position};
use grid_cells::{GridCells, IndexLists};
use mesh::{Mesh, WholeMesh};

// An index with its lists and the mesh that it was built for, of the index's dimension: none of 1, 24, 19 and 13 applies.
#[derive(Clone, Copy)]
pub struct SoundIndex<'a, 'b, 'c> {
    pub grid: GridCells,
    pub mesh: WholeMesh<'a, 'b>,
    pub lists: IndexLists<'c>,
    pub ghost axes: { mesh.ndim.n ≡ grid.ndim },
    pub ghost sound: { sound_index grid (cell_count grid.ndim (seen mesh.mesh)) (lent lists) ≡ true },
}

// Whether a side lies within 2^-19 and 2^22.
fn is_side(side_length: f64) -> bool
    ensures { result ≡ (le (pow2⁻ 19) side_length && le side_length (pow2 22)) }
{
    (1.9073486328125e-6 <= side_length) & (side_length <= 4194304.0)
}

// Whether x may be a coordinate of an index's corner: finite, of magnitude at most 2^24.
fn is_corner(x: f64) -> bool
    ensures { result ≡ corner_limit x }
{
    floats::is_within(16777216.0, x)
}

// Whether every coordinate of a corner on the axes in use may be one.
#[tactic(auto, using(geometry::proofs::Axes::all_tests))]
fn corner_ok(ndim: Dimension, p: Position) -> bool
    ensures { result ≡ all corner_limit (axes ndim.n p) }
{
    geometry::on_every_axis(ndim, is_corner(p.x), is_corner(p.y), is_corner(p.z))
}

// Whether the low corner of an index is above the high one on no axis.
#[tactic(auto, using(crate::proofs::Sound::ordered_tests), unfolding(basics::specs::Lists::zip_with))]
fn are_ordered(ndim: Dimension, grid: GridCells) -> bool
    ensures { result ≡ ordered (axes ndim.n grid.xmin) (axes ndim.n grid.xmax) }
{
    let (low, high) = (grid.xmin, grid.xmax);
    geometry::on_every_axis(ndim, low.x <= high.x, low.y <= high.y, low.z <= high.z)
}

// Whether the index by itself is good. In 2D the third axis is not judged.
#[tactic(auto, unfolding(crate::specs::Index::good_index))]
fn is_good(grid: GridCells) -> bool
    requires { dimension grid.ndim ≡ true }
    ensures { result ≡ good_index grid }
{
    let ndim = Dimension { n: grid.ndim };
    is_side(grid.side_length)
        & (grid::divisions_ok(ndim, grid.ndiv)
            & (corner_ok(ndim, grid.xmin) & (corner_ok(ndim, grid.xmax) & are_ordered(ndim, grid))))
}

// Whether the lists hold what the index says is in use.
#[tactic(auto, unfolding(crate::specs::Index::enough_entries))]
fn are_enough(grid: GridCells, lists: IndexLists) -> bool
    ensures { result ≡ enough_entries grid (lent lists.entry) }
{
    (lists.cells.len() == lists.keys.len())
        & ((grid.used <= lists.keys.len()) & (grid.large <= lists.large.len()))
}

// Whether rows are good, each by itself, and in strict order: one pass, in which each row is judged with the next.
fn are_rows_good(keys: &[u64], cells: &[u64], count: u64, ncell: u64) -> bool
    requires { length cells.now ≡ length keys.now }
    ensures { result ≡ good_rows count ncell (slots_of keys.now cells.now (length keys.now)) }
{
    let Some(last) = keys.len().checked_sub(1) else {
        return true;
    };
    // no way out of the loop before its end: a flag costs less than a branch
    // Kept: `keys.array_windows().zip(cells.array_windows())` gives `([k, l], [c, d])`: (k, c) is a row and (l, d) the next.
    let mut ok = true;
    for i in 0..last {
        ok &= ((keys[i] < count) & (cells[i] < ncell))
            & table::ahead(keys[i], cells[i], keys[i + 1], cells[i + 1]);
    }
    ok & ((keys[last] < count) & (cells[last] < ncell))
}

// Whether these are numbers of cells, and ascend: in one pass too.
fn are_large_good(large: &[u64], ncell: u64) -> bool
    ensures { result ≡ good_numbers ncell large.now }
{
    let Some(last) = large.last() else {
        return true;
    };
    let mut ok = true;
    for pair in large.windows(2) {
        ok &= (pair[0] < ncell) & (pair[0] < pair[1]);
    }
    ok & (*last < ncell)
}

// Whether 13 is not the case, of an index of so many cells: the index by itself, the lists, and what they hold.
#[tactic(auto, unfolding(crate::specs::Index::sound_index))]
fn is_sound(grid: GridCells, ncell: usize, lists: IndexLists) -> bool
    requires { dimension grid.ndim ≡ true }
    ensures { result ≡ sound_index grid ncell (lent lists.entry) }
{
    if !is_good(grid) {
        return false;
    }
    if !are_enough(grid, lists) {
        return false;
    }
    let count = grid::container_count(Dimension { n: grid.ndim }, grid.ndiv);
    let ncell = ncell as u64;
    are_rows_good(
        &lists.keys[..grid.used],
        &lists.cells[..grid.used],
        count,
        ncell,
    ) & are_large_good(&lists.large[..grid.large], ncell)
}

impl<'a, 'b, 'c> SoundIndex<'a, 'b, 'c> {
    // The index, known to be sound, or the refusal 1, 24, 19 or 13. The mesh's own dimension is not read.
    pub fn new(
        grid: GridCells,
        mesh: Mesh<'a, 'b>,
        lists: IndexLists<'c>,
    ) -> Result<SoundIndex<'a, 'b, 'c>, Refusal>
        ensures judged { fault_in result ≡ fault (index_tests grid (seen mesh.entry) (lent lists.entry)) }
        ensures grid { IfOk result (λ s. s.grid ≡ grid) }
        ensures mesh { IfOk result (λ s. seen s.mesh.mesh ≡ seen mesh.entry) }
        ensures lists { IfOk result (λ s. s.lists ≡ lists.entry) }
    {
        let mesh = Mesh {
            ndim: grid.ndim,
            ..mesh
        };
        let ndim = grid_cells::refusals::sizes_fault(mesh, lists)?;
        let mesh = mesh.whole(ndim)?;
        if !is_sound(grid, mesh.cell_count(), lists) {
            return Err(Refusal::Damaged);
        }
        Ok(SoundIndex { grid, mesh, lists })
    }
}
