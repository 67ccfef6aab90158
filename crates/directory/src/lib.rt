// Request e of document 02: a directory beside the rows of a library: for each container in use its key, first row and number of
// rows, in three lent slices of one length. Its check, its build, and the look-up of a key. gemlab finds a container by hashing.
#![tactic(auto)]

ghost use Rattle.std.specs.Prelude.{◌≡◌, ◌+◌, ◌≤◌, ◌<◌, length, drop};
ghost use Rattle.std.specs.List.Sorted.{IsNonDecreasing};
ghost use Rattle.basics.specs.Refusals.{fault, code, success};
ghost use Rattle.basics.specs.Answers.{fault_in};
ghost use Rattle.table.specs.Lent.{lent};
ghost use Rattle.directory.specs.Entries.{entries_from, same_entries, look_among};
ghost use Rattle.directory.specs.Directory.{entry_at, entries, file, long_places, sound_places};
ghost use Rattle.directory.specs.Lent.{kept, kept_mut, SamePlaces};
ghost use Rattle.directory.specs.Calls.{both_tests, directory_tests, build_tests, building, built, Builds, look_of, looking_up, looked_up};
ghost use Rattle.directory.specs.Posts.{PlaceRoom, leads, placed, pushed, cut_off};

mod containers;

use basics::Refusal;
use containers::Containers;
use grid_search::GridSearch;
use table::Library;

// The most places that a lent list may have.
const MAX_PLACES: usize = 65536;

// A container in use: its key, its first row, and how many rows it has.
#[derive(Clone, Copy)]
pub struct Entry {
    pub key: u64,
    pub first: u64,
    pub count: u64,
}

impl Entry {
    // Whether it is that of the rows from `next` on, told by the keys of the rows in use: it begins there, and has all the rows
    // of its key. Keys do not descend, so the rows at its ends and the one behind it tell.
    // Kept: a struct of keys that ascend would be made of a slice at each call, and read by index as the slice is.
    fn leads(self, keys: &[u64], next: usize) -> bool
        requires rising { IsNonDecreasing keys.now }
        requires within { next ≤ length keys.now }
        ensures { result ≡ leads self (entries_from next (drop next keys.now)) }
    {
        let n = self.count as usize;
        if self.first as usize != next {
            return false;
        }
        if n < 1 {
            return false;
        }
        if keys.len() - next < n {
            return false;
        }
        if keys[next] != self.key {
            return false;
        }
        let end = next + n;
        if keys[end - 1] != self.key {
            return false;
        }
        if end == keys.len() {
            return true;
        }
        keys[end] != self.key
    }
}

// Where a look-up ends: the place of the key, if it has one, and how many places were read.
#[derive(Clone, Copy)]
pub struct Look {
    pub place: Option<usize>,
    pub reads: usize,
}

// The place of a key among those of places, which ascend: the middle place left is read, of two the lower, until found.
pub fn find_place(keys: &[u64], key: u64) -> Look
    ensures { look_of result ≡ look_among (length keys.now) key keys.now 0 (length keys.now) }
{
    // Kept: `binary_search` does not tell how many places it reads, which is part of the answer.
    let mut at = 0;
    let mut n = keys.len();
    let mut reads = 0;
    while 0 < n {
        let half = (n - 1) / 2;
        let middle = at + half;
        let k = keys[middle];
        reads += 1;
        if k == key {
            return Look {
                place: Some(middle),
                reads: reads,
            };
        }
        if k < key {
            at = middle + 1;
            n = n - 1 - half;
        } else {
            n = half;
        }
    }
    Look {
        place: None,
        reads: reads,
    }
}

// A directory that is lent to be read.
// Kept: the C interface lends each list by itself (include/gemlab.h).
#[derive(Clone, Copy)]
pub struct Directory<'a> {
    pub keys: &'a [u64],
    pub firsts: &'a [u64],
    pub counts: &'a [u64],
    pub used: usize,
}

impl Directory<'_> {
    // The entry at a place.
    pub fn entry(self, at: usize) -> Entry
        requires { PlaceRoom (kept self) (at + 1) }
        ensures { result ≡ entry_at (kept self.entry) at }
    {
        Entry {
            key: self.keys[at],
            first: self.firsts[at],
            count: self.counts[at],
        }
    }

    // Whether one of the lists is too long.
    fn is_too_long(self) -> bool
        ensures { result ≡ long_places (kept self.entry) }
    {
        (MAX_PLACES < self.keys.len())
            | ((MAX_PLACES < self.firsts.len()) | (MAX_PLACES < self.counts.len()))
    }

    // Whether the lists are of one length, and the used count is not above it.
    fn is_layout_sound(self) -> bool
        ensures { result ≡ sound_places (kept self.entry) }
    {
        let n = self.keys.len();
        ((self.firsts.len() == n) & (self.counts.len() == n)) & (self.used <= n)
    }

    // Whether the places in use are the directory of rows with these keys: one place after the other, and of the rows only
    // those at the ends of places are read.
    // Kept: a struct of keys that ascend would be made of a slice at each call, and read by index as the slice is.
    fn is_match(self, keys: &[u64]) -> bool
        requires rising { IsNonDecreasing keys.now }
        requires room { PlaceRoom (kept self) self.used }
        ensures { result ≡ same_entries (entries (kept self.entry)) (entries_from 0 keys.now) }
    {
        // where the next place is to begin
        let mut next = 0;
        for p in 0..self.used {
            let entry = self.entry(p);
            if !entry.leads(keys, next) {
                return false;
            }
            next += entry.count as usize;
        }
        next == keys.len()
    }
}

// A directory that is lent to be changed.
#[derive(Drop)]
pub struct DirectoryMut<'a> {
    pub keys: &'a mut [u64],
    pub firsts: &'a mut [u64],
    pub counts: &'a mut [u64],
    pub used: usize,
}

impl DirectoryMut<'_> {
    // The same directory, to be read.
    pub fn as_directory(&self) -> Directory<'_>
        ensures { kept result ≡ kept_mut self.now }
    {
        Directory {
            keys: self.keys,
            firsts: self.firsts,
            counts: self.counts,
            used: self.used,
        }
    }

    // Writes an entry at a place.
    // Kept: no conversion by hand: an entry's three numbers go into the three lists.
    pub fn write_entry(&mut self, at: usize, entry: Entry)
        requires { PlaceRoom (kept_mut self.old) (at + 1) }
        ensures writes { kept_mut self.new ≡ placed at entry (kept_mut self.old) }
        ensures same_places { SamePlaces self.old self.new }
    {
        self.keys[at] = entry.key;
        self.firsts[at] = entry.first;
        self.counts[at] = entry.count;
    }

    // Adds an entry behind those in use.
    fn push(&mut self, entry: Entry)
        requires { PlaceRoom (kept_mut self.old) (self.old.used + 1) }
        ensures pushes { kept_mut self.new ≡ pushed entry (kept_mut self.old) }
        ensures same_places { SamePlaces self.old self.new }
    {
        let at = self.used;
        self.write_entry(at, entry);
        self.used = at + 1;
    }

    // Leaves the first n places in use, and writes 0 into the others.
    pub fn truncate(&mut self, n: usize)
        requires { PlaceRoom (kept_mut self.old) n }
        ensures cuts { kept_mut self.new ≡ cut_off n (kept_mut self.old) }
        ensures same_places { SamePlaces self.old self.new }
    {
        self.keys[n..].fill(0);
        self.firsts[n..].fill(0);
        self.counts[n..].fill(0);
        self.used = n;
    }

    // Becomes the directory of rows with these keys, with zeros past it.
    fn write(&mut self, keys: &[u64])
        requires { PlaceRoom (kept_mut self.old) (length (entries_from 0 keys.now)) }
        ensures writes { kept_mut self.new ≡ file (entries_from 0 keys.now) (kept_mut self.old) }
        ensures same_places { SamePlaces self.old self.new }
    {
        self.used = 0;
        for entry in Containers::new(keys) {
            self.push(entry);
        }
        self.truncate(self.used);
    }
}

// What turns a library and the lists of its directory away, whatever stands in their places: 24 or 13.
// Kept: sheet, rows and directory are lent apart, to other calls mutably: a struct of the three would be made in each call.
fn lists_fault(sheet: GridSearch, library: Library, directory: Directory) -> Result<(), Refusal>
    ensures { fault_in result ≡ fault (both_tests sheet (lent library.entry) (kept directory.entry)) }
{
    if directory.is_too_long() {
        return Err(Refusal::TooLong);
    }
    rows::library_fault(sheet, library)?;
    if !directory.is_layout_sound() {
        return Err(Refusal::Damaged);
    }
    Ok(())
}

// What turns a library and its directory away: 24, 13 or 29. 29 is judged by the places and the rows at their ends.
// Kept: sheet, rows and directory are lent apart, to other calls mutably: a struct of the three would be made in each call.
pub fn directory_fault(
    sheet: GridSearch,
    library: Library,
    directory: Directory,
) -> Result<(), Refusal>
    ensures { fault_in result ≡ fault (directory_tests sheet (lent library.entry) (kept directory.entry)) }
{
    lists_fault(sheet, library, directory)?;
    if !directory.is_match(&library.keys[..library.used]) {
        return Err(Refusal::Mismatch);
    }
    Ok(())
}

// Looks a key up: its place, if it has one, and how many places were read, at most 17. Refused with 24, 13 or 29.
// Kept: sheet, rows and directory are lent apart, to other calls mutably: a struct of the three would be made in each call.
pub fn look_up(
    sheet: GridSearch,
    library: Library,
    directory: Directory,
    key: u64,
) -> Result<Look, Refusal>
    ensures { looked_up result ≡ looking_up sheet (lent library.entry) (kept directory.entry) key }
{
    directory_fault(sheet, library, directory)?;
    Ok(find_place(&directory.keys[..directory.used], key))
}

// What turns a build away: 24, 13 or 12. 12 is judged before anything is written.
// Kept: sheet, rows and directory are lent apart, to other calls mutably: a struct of the three would be made in each call.
fn build_fault(sheet: GridSearch, library: Library, directory: Directory) -> Result<(), Refusal>
    ensures { fault_in result ≡ fault (build_tests sheet (lent library.entry) (kept directory.entry)) }
{
    let unused = Directory {
        used: 0,
        ..directory
    };
    lists_fault(sheet, library, unused)?;
    let keys = &library.keys[..library.used];
    if directory.keys.len() < Containers::new(keys).count() {
        return Err(Refusal::Full);
    }
    Ok(())
}

// Writes the directory of the rows in use, and zeros past it. What the lists held is not read, nor is the used count. Returns
// how many places are in use. Refused with 24, 13, or 12 where there are too few places; a refusal changes nothing.
pub fn build(
    sheet: GridSearch,
    library: Library,
    directory: &mut DirectoryMut,
) -> Result<usize, Refusal>
    ensures builds { Builds (building sheet (lent library.entry) (kept_mut directory.old)) (built result) (kept_mut directory.new) }
    ensures same_places { SamePlaces directory.old directory.new }
{
    build_fault(sheet, library, directory.as_directory())?;
    directory.write(&library.keys[..library.used]);
    Ok(directory.used)
}
