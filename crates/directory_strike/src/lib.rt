// Request e of document 02: an id is struck off in a library that has a directory, which is brought up to date, not built afresh.
#![tactic(auto)]

ghost use Rattle.std.specs.Prelude.{◌≡◌, ◌+◌, ◌≤◌, length, take, drop};
ghost use Rattle.table.specs.Lent.{lent_mut, SameLists};
ghost use Rattle.strike.specs.Strike.{striking, struck};
ghost use Rattle.directory.specs.Directory.{entries, file};
ghost use Rattle.directory.specs.Lent.{kept_mut, SamePlaces};
ghost use Rattle.directory.specs.Calls.{filing, GivesBoth};
ghost use Rattle.directory.specs.Posts.{Written};
ghost use Rattle.directory_strike.specs.Posts.{others, Quiet, thinned, Thins};

use basics::Refusal;
use directory::{DirectoryMut, Entry};
use grid_search::GridSearch;
use table::{ItemId, LibraryMut};

// How many of some ids are others.
fn count_others(ids: &[u64], id: u64) -> usize
    ensures { result ≡ others id ids.now }
{
    ids.iter().filter(|other| **other != id).count()
}

// How many of the `count` rows from `row` on are of other ids, where none of those up to `next` is of this one: most places have
// no row of it.
// Kept: `row` and `next` are numbers of rows, compared with each other: a slice from `row` on would lose them.
fn rows_left(ids: &[u64], row: usize, count: usize, id: u64, next: usize) -> usize
    requires within { row + count ≤ length ids.now }
    requires quiet { Quiet id row next ids.now }
    ensures { result ≡ others id (take count (drop row ids.now)) }
{
    if row + count <= next {
        return count;
    }
    count_others(&ids[row..row + count], id)
}

// Where the next row of the id stands from `row` on, or the end of the rows, where none up to `next` is of it: looked for only
// once `next` is passed. Callers need only that none stands before it.
// Kept: `row` and `next` are numbers of rows, compared with each other: a slice from `row` on would lose them.
fn next_from(ids: &[u64], id: u64, row: usize, next: usize) -> usize
    requires within { row ≤ length ids.now }
    requires quiet { Quiet id row next ids.now }
    ensures { Quiet id row result ids.now }
{
    if row <= next {
        return next;
    }
    match strike::first_with(&ids[row..], id) {
        Some(n) => row + n,
        None => ids.len(),
    }
}

// Takes the rows of an id off the places in use, in one pass: each counts the rows that are left to it and begins where those of
// the places before it end, and one with no row is closed. None of the first `from` rows is of the id. What stands past the
// places that are left is of no use.
fn close_places(directory: &mut DirectoryMut, ids: &[u64], id: u64, from: usize)
    requires { Thins id from ids.now (kept_mut directory.old) }
    ensures closes { Written (thinned id 0 (entries (kept_mut directory.old)) ids.now) (kept_mut directory.old) (kept_mut directory.new) }
    ensures same_places { SamePlaces directory.old directory.new }
{
    let mut at = 0;
    let mut row = 0; // where the rows of place i begin
    let mut first = 0; // and where they will
    let mut next = from; // the first row of the id among those
    for i in 0..directory.used {
        let entry = directory.as_directory().entry(i);
        let count = entry.count as usize;
        let left = rows_left(ids, row, count, id, next);
        // a place without a row is written like any other, and then written over
        directory.write_entry(
            at,
            Entry {
                key: entry.key,
                first: first as u64,
                count: left as u64,
            },
        );
        at += usize::from(left != 0);
        row += count;
        first += left;
        next = next_from(ids, id, row, next);
    }
    directory.used = at;
}

// The same, with zeros past the places that are left.
fn take_off(directory: &mut DirectoryMut, ids: &[u64], id: u64, from: usize)
    requires { Thins id from ids.now (kept_mut directory.old) }
    ensures takes { kept_mut directory.new ≡ file (thinned id 0 (entries (kept_mut directory.old)) ids.now) (kept_mut directory.old) }
    ensures same_places { SamePlaces directory.old directory.new }
{
    close_places(directory, ids, id, from);
    directory.truncate(directory.used);
}

// Takes every row of an id out of the library, as `strike::strike` does, and leaves the directory of the rows of the other ids,
// with zeros past it. Returns how many rows went. Refused with 24, 13, 29, or 26 where the id has no row; a refusal changes
// nothing.
// Kept: what the request asks with, in its order; a struct of it would be taken apart at once.
pub fn strike(
    sheet: GridSearch,
    library: &mut LibraryMut,
    directory: &mut DirectoryMut,
    id: ItemId,
) -> Result<usize, Refusal>
    ensures gives { GivesBoth (filing sheet (lent_mut library.old) (kept_mut directory.old) (striking sheet (lent_mut library.old) id.0))
        (struck result) (lent_mut library.new) (kept_mut directory.new) }
    ensures same_lists { SameLists library.old library.new }
    ensures same_places { SamePlaces directory.old directory.new }
{
    let before = library.as_library();
    directory::directory_fault(sheet, before, directory.as_directory())?;
    let used = before.used;
    let ids = &before.ids[..used];
    let Some(first) = strike::first_with(ids, id.0) else {
        return Err(Refusal::NoRow);
    };
    take_off(directory, ids, id.0, first);
    strike::remove(library, id.0, first);
    Ok(used - library.used)
}
