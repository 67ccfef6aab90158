// The rows of an index: each cell that is not large is filed under the containers of its bounding box's corners. Rows are counted
// first, then written into the lent keys as one number each, cell by cell, sorted there, and taken apart.
#![tactic(auto)]

ghost use Rattle.std.specs.Prelude.{ℕ, ◌+◌, ◌*◌, ◌≤◌, ◌<◌, ◌≡◌, true, map, [], ltb, length};
ghost use Rattle.basics.specs.Lists.{all, over};
ghost use Rattle.geometry.specs.Position.{coords as axes};
ghost use Rattle.grid.specs.Divisions.{counts, division};
ghost use Rattle.mesh.specs.Mesh.{seen, cell_count, box_of, boxed};
ghost use Rattle.cell_sizes.specs.Large.{boxes, is_large, numbered};
ghost use Rattle.cell_sizes.specs.Steps.{files, lists};
ghost use Rattle.cell_rows.specs.Filing.{file_cells};
ghost use Rattle.cell_rows.specs.Keys.{keys_in};
ghost use Rattle.cell_rows.specs.Steps.{Keyed, cell_container, box_keys_or, filed_keys_or, row_count_or, pack, packed_key, packed_cell, packed_rows, Fitting, Written, Filed};

mod keys;

use cell_sizes::{Apart, Sizes};
use geometry::{Dimension, Position};
use grid::{ContainerKey, Divisions};
use keys::CellKeys;
use mesh::{BoundingBox, WholeMesh};

// Where the containers of an index lie.
#[derive(Clone, Copy)]
pub struct Containers {
    pub ndim: usize,
    pub ndiv: Divisions,
    pub side_length: f64,
    pub xmin: Position,
}

// What is filed where: the cells of a mesh, those that are large apart, in the containers of an index.
#[derive(Clone, Copy)]
pub struct Filing<'a, 'b> {
    pub grid: Containers,
    pub sizes: Sizes,
    pub mesh: WholeMesh<'a, 'b>,
    pub ghost axes: { mesh.ndim.n ≡ grid.ndim },
    pub ghost divisions: { all division (counts grid.ndim grid.ndiv) ≡ true },
    pub ghost few: { cell_count grid.ndim (seen mesh.mesh) ≤ 65536 },
}

impl Containers {
    // The container that a position falls into, or none where a ratio exceeds its divisions.
    #[tactic(auto, unfolding(crate::specs::Steps::cell_container, grid::specs::Containers::located, crate::specs::Filing::cell_key, crate::specs::Filing::cell_exceeds))]
    pub fn container(self, x: Position) -> Option<ContainerKey>
        requires { Keyed self }
        ensures { result ≡ cell_container self (axes self.ndim x) }
    {
        grid::calc_container_key(
            Dimension { n: self.ndim },
            self.side_length,
            self.ndiv,
            self.xmin,
            x,
        )
    }

    // The keys of the containers that the corners of a box fall into, once each, or none where a corner's ratio exceeds its
    // divisions. Inlined, as is `cell_keys`, so that the keys are not copied from frame to frame: a build takes a quarter less.
    #[inline(always)]
    fn corner_keys(self, b: BoundingBox) -> Option<CellKeys>
        requires { Keyed self }
        ensures { keys_in result ≡ box_keys_or self (boxed self.ndim b) }
    {
        let mut keys = CellKeys::new();
        for c in 0..geometry::corner_count(Dimension { n: self.ndim }) {
            keys.join(self.container(geometry::corner(b.low, b.high, c))?.0);
        }
        Some(keys)
    }
}

// A row in one number.
fn pack_row(cell: usize, key: u64) -> u64
    requires cell { cell < 65536 }
    requires key { key < 1073741824 }
    ensures { result ≡ pack cell key }
{
    key * 65536 + cell as u64
}

// Writes the rows of one cell over the front of the lent list.
fn pack_cell(keys: &[u64], cell: usize, rows: &mut [u64])
    requires cell { cell < 65536 }
    requires small { all (λ (k : ℕ). ltb k 1073741824) keys.now ≡ true }
    requires room { length keys.now ≤ length rows.old }
    ensures { rows.new ≡ over (map (pack cell) keys.now) rows.old }
{
    for (i, key) in keys.iter().enumerate() {
        rows[i] = pack_row(cell, *key);
    }
}

// Takes rows apart: keys stay in `keys`, cells go to `cells`.
fn unpack(keys: &mut [u64], cells: &mut [u64])
    requires { length cells.old ≡ length keys.old }
    ensures keys { keys.new ≡ map packed_key keys.old }
    ensures cells { cells.new ≡ map packed_cell keys.old }
{
    for (i, key) in keys.iter_mut().enumerate() {
        cells[i] = *key % 65536;
        *key /= 65536;
    }
}

impl<'a, 'b> Filing<'a, 'b> {
    // The keys of a cell's containers: none of a cell that is kept apart.
    #[inline(always)]
    fn cell_keys(self, cell: usize) -> Option<CellKeys>
        requires { cell < cell_count self.grid.ndim (seen self.mesh.mesh) }
        ensures { keys_in result ≡ filed_keys_or self.entry.grid (files self.entry.sizes) (box_of self.entry.grid.ndim (seen self.entry.mesh.mesh) cell) }
    {
        let b = self.mesh.bounding_box(cell);
        if self.sizes.is_filed(Dimension { n: self.grid.ndim }, b) {
            return self.grid.corner_keys(b);
        }
        Some(CellKeys::new())
    }

    // How many rows there will be, or none where a corner's ratio exceeds its divisions.
    pub fn count_rows(self) -> Option<usize>
        ensures { result ≡ row_count_or self.entry.grid (files self.entry.sizes) (boxes self.entry.grid.ndim (seen self.entry.mesh.mesh)) }
    {
        let mut n = 0;
        for cell in 0..self.mesh.cell_count() {
            n += self.cell_keys(cell)?.as_slice().len();
        }
        Some(n)
    }

    // Writes the rows of all cells, cell by cell. Returns how many there are.
    fn pack_rows(self, rows: &mut [u64]) -> usize
        requires { Fitting self.grid (files self.sizes) (boxes self.grid.ndim (seen self.mesh.mesh)) rows.old }
        ensures { Written (packed_rows self.entry.grid (files self.entry.sizes) 0 (boxes self.entry.grid.ndim (seen self.entry.mesh.mesh))) rows.old result rows.new }
    {
        let mut n = 0;
        for cell in 0..self.mesh.cell_count() {
            let keys = self.cell_keys(cell).unwrap();
            let keys = keys.as_slice();
            pack_cell(keys, cell, &mut rows[n..]);
            n += keys.len();
        }
        n
    }

    // Writes the rows of an index over the front of the lent lists.
    pub fn file_cells(self, keys: &mut [u64], cells: &mut [u64])
        requires lengths { length cells.old ≡ length keys.old }
        requires fitting { Fitting self.grid (files self.sizes) (boxes self.grid.ndim (seen self.mesh.mesh)) keys.old }
        ensures { Filed (file_cells self.entry.grid (files self.entry.sizes) 0 (boxes self.entry.grid.ndim (seen self.entry.mesh.mesh)) []) keys.old cells.old keys.new cells.new }
    {
        let n = self.pack_rows(keys);
        sorting::sort(&mut keys[..n]);
        unpack(&mut keys[..n], &mut cells[..n]);
    }
}

// Writes the numbers of the large cells over the front of the lent list.
fn list_large(mesh: WholeMesh, apart: Apart, large: &mut [u64])
    requires { length (numbered (is_large apart.limit) 0 (boxes mesh.ndim.n (seen mesh.mesh))) ≤ length large.old }
    ensures { large.new ≡ over (numbered (is_large apart.limit) 0 (boxes mesh.entry.ndim.n (seen mesh.entry.mesh))) large.old }
{
    let mut n = 0;
    for cell in 0..mesh.cell_count() {
        if apart.is_large(mesh.ndim, mesh.bounding_box(cell)) {
            large[n] = cell as u64;
            n += 1;
        }
    }
}

// Writes the numbers of the large cells that are kept apart over the front of the lent list.
#[tactic(auto, unfolding(cell_sizes::specs::Large::large_of, basics::specs::Lists::over))]
pub fn write_large(mesh: WholeMesh, sizes: Sizes, large: &mut [u64])
    requires { length (lists sizes (boxes mesh.ndim.n (seen mesh.mesh))) ≤ length large.old }
    ensures { large.new ≡ over (lists sizes (boxes mesh.entry.ndim.n (seen mesh.entry.mesh))) large.old }
{
    if let Some(apart) = sizes.apart {
        list_large(mesh, apart, large);
    }
}
