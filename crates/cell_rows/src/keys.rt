// The keys of the containers of one cell.
ghost use Rattle.std.specs.Prelude.{ℕ, ◌+◌, ◌≤◌, ◌<◌, ◌≡◌, true, ltb, length, take, []};
ghost use Rattle.basics.specs.Lists.{all};

// Keys, each once, in the order in which they came: so many of eight, since a box has no more corners.
// Kept: no heap, so an array with a count.
#[derive(Clone, Copy)]
pub(crate) struct CellKeys {
    keys: [u64; 8],
    count: usize,
    ghost room: { length keys ≡ 8 },
    ghost few: { count ≤ 8 },
    ghost small: { all (λ (k : ℕ). ltb k 1073741824) (take count keys) ≡ true },
}

impl CellKeys {
    ghost use Rattle.cell_rows.specs.Keys.{held};
    ghost use Rattle.cell_rows.specs.Steps.{join_once};

    // None yet.
    // Kept: not one with `Targets` of `rows`: that holds nine keys and not eight, and nothing of how great each is.
    #[tactic(auto, unfolding(basics::specs::Lists::all))]
    pub(crate) fn new() -> CellKeys
        ensures { held result ≡ [] }
    {
        CellKeys {
            keys: [0; 8],
            count: 0,
        }
    }

    pub(crate) fn as_slice(&self) -> &[u64]
        ensures { result.now ≡ held self.now }
    {
        &self.keys[..self.count]
    }

    // Adds a key, if it is not among them.
    pub(crate) fn join(&mut self, key: u64)
        requires room { length (held self.old) < 8 }
        requires small { key < 1073741824 }
        ensures { held self.new ≡ join_once key (held self.old) }
    {
        if self.as_slice().contains(&key) {
            return;
        }
        self.keys[self.count] = key;
        self.count += 1;
    }
}
