// The lists of an index that are lent: its rows (key, cell), and its large cells.
ghost use Rattle.std.specs.Prelude.{◌≡◌};
ghost use Rattle.grid_cells.specs.Lent.{lent, lent_mut};

// To be read.
// Kept: the C interface lends each list by itself (include/gemlab.h).
#[derive(Clone, Copy)]
pub struct IndexLists<'a> {
    pub keys: &'a [u64],
    pub cells: &'a [u64],
    pub large: &'a [u64],
}

// To be changed.
#[derive(Drop)]
pub struct IndexListsMut<'a> {
    pub keys: &'a mut [u64],
    pub cells: &'a mut [u64],
    pub large: &'a mut [u64],
}

impl IndexListsMut<'_> {
    // The same lists, to be read.
    pub fn as_lists(&self) -> IndexLists<'_>
        ensures { lent result ≡ lent_mut self.now }
    {
        IndexLists {
            keys: self.keys,
            cells: self.cells,
            large: self.large,
        }
    }
}
