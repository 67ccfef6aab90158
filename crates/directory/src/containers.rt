// The containers of rows, one after the other, by the keys of the rows.
ghost use Rattle.std.specs.Prelude.{◌≡◌, MatchOption, [], ◌∷◌};
ghost use Rattle.directory.specs.Entries.{entries_from};

use crate::Entry;

// An iterator over them.
#[derive(Clone, Copy)]
pub struct Containers<'a> {
    keys: &'a [u64],
    // where the next one begins
    next: usize,
}

impl<'a> Containers<'a> {
    ghost use Rattle.directory.specs.Left.{containers_left};

    pub fn new(keys: &'a [u64]) -> Containers<'a>
        ensures { containers_left result ≡ entries_from 0 keys.now }
    {
        Containers {
            keys: keys,
            next: 0,
        }
    }
}

impl Iterator for Containers<'_> {
    ghost use Rattle.std.specs.Iterator.{YieldsFirst, item_count};
    ghost use Rattle.directory.specs.Left.{containers_left};

    type Item = Entry;

    ghost next_gives = { YieldsFirst containers_left };

    ghost remaining = { item_count containers_left };

    fn next(&mut self) -> Option<Entry> {
        if self.next >= self.keys.len() {
            return None;
        }
        let first = self.next;
        let key = self.keys[first];
        let count = table::run_of(&self.keys[first..], key);
        self.next = first + count;
        Some(Entry {
            key,
            first: first as u64,
            count: count as u64,
        })
    }
}
