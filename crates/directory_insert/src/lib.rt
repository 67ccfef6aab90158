// Request e of document 02: insertion into a library that has a directory, which is brought up to date row by row: a row that is
// new is one more of its container's, or opens a place, and the containers after it begin one row later.
#![tactic(auto)]

ghost use Rattle.std.specs.Prelude.{◌≡◌, ℕ, suc, ◌+◌, ◌^◌, ◌<◌, map, length, get_or};
ghost use Rattle.std.specs.List.Sorted.{IsNonDecreasing};
ghost use Rattle.table.specs.Rows.{put_in};
ghost use Rattle.table.specs.Lent.{lent_mut, SameLists};
ghost use Rattle.rows.specs.Insert.{insertion, inserted};
ghost use Rattle.directory.specs.Directory.{entries};
ghost use Rattle.directory.specs.Lent.{kept_mut, SamePlaces};
ghost use Rattle.directory.specs.Calls.{filing, GivesBoth};
ghost use Rattle.directory_insert.specs.Posts.{FindsPlace, entered, write_places, PlacesAfter, Enters, TakesBoth, TakesAll, BecomesBoth, storing};

use basics::Refusal;
use directory::DirectoryMut;
use geometry::Position;
use grid::ContainerKey;
use grid_search::GridSearch;
use table::{ItemId, LibraryMut, Mark, Row};

// The place of a key among those of places, which ascend, or else where it would stand.
// Kept: a struct of keys that ascend would be made of a slice at each call, and read by index as the slice is.
fn place_of(keys: &[u64], key: u64) -> Result<usize, usize>
    requires { IsNonDecreasing keys.now }
    ensures { FindsPlace key keys.now result }
{
    let at = table::first_of(keys, key);
    if at < keys.len() && keys[at] == key {
        Ok(at)
    } else {
        Err(at)
    }
}

// How many places will be in use once a mark is in each container of a list.
// Kept: a struct of keys that ascend would be made of a slice at each call, and read by index as the slice is.
fn places_after(keys: &[u64], into: &[u64]) -> usize
    requires { IsNonDecreasing keys.now }
    ensures { PlacesAfter keys.now into.now result }
{
    let mut n = keys.len();
    for (i, key) in into.iter().enumerate() {
        if !into[..i].contains(key) && place_of(keys, *key).is_err() {
            n += 1;
        }
    }
    n
}

// Adds 1 to each entry.
fn move_up(s: &mut [u64])
    requires { (i : ℕ) → i < length s.old → get_or s.old i 0 + 1 < 2 ^ 64 }
    ensures { s.new ≡ map suc s.old }
{
    for entry in s {
        *entry += 1;
    }
}

// Brings a directory of so many rows up to date with one more row of a key.
fn enter_row(directory: &mut DirectoryMut, rows: usize, key: u64)
    requires { Enters key rows (kept_mut directory.old) }
    ensures enters { kept_mut directory.new ≡ write_places (entered key rows (entries (kept_mut directory.old))) (kept_mut directory.old) }
    ensures same_places { SamePlaces directory.old directory.new }
{
    let used = directory.used;
    let before = directory.as_directory();
    match place_of(&before.keys[..used], key) {
        Ok(at) => {
            move_up(&mut directory.firsts[at + 1..used]);
            directory.counts[at] += 1;
        }
        Err(at) => {
            // its rows begin where those of the next begin, or after all
            let first = before.firsts[..used]
                .get(at)
                .copied()
                .unwrap_or(rows as u64);
            move_up(&mut directory.firsts[at..used]);
            table::raise(directory.keys, at, used, key);
            table::raise(directory.firsts, at, used, first);
            table::raise(directory.counts, at, used, 1);
            directory.used = used + 1;
        }
    }
}

// Stores a mark in each container of a list, and brings the directory up to date.
fn store_all(library: &mut LibraryMut, directory: &mut DirectoryMut, into: &[u64], mark: Mark)
    requires { TakesAll (put_in mark.id.0 mark.at into.now) (lent_mut library.old) (kept_mut directory.old) }
    ensures stores { BecomesBoth (put_in mark.id.0 mark.at into.now) (lent_mut library.old) (kept_mut directory.old) (lent_mut library.new) (kept_mut directory.new) }
    ensures same_lists { SameLists library.old library.new }
    ensures same_places { SamePlaces directory.old directory.new }
{
    for key in into {
        let rows = library.used;
        library.put(Row {
            key: ContainerKey(*key),
            id: mark.id,
            at: mark.at,
        });
        // the store has made a row
        if library.used != rows {
            enter_row(directory, rows, *key);
        }
    }
}

// Stores a mark in each container of a list, brings the directory up to date, and writes zeros past it. Refused with 12, before
// anything is written, where the directory has too few places.
fn store_mark(
    library: &mut LibraryMut,
    directory: &mut DirectoryMut,
    into: &[u64],
    mark: Mark,
) -> Result<usize, Refusal>
    requires { TakesBoth (put_in mark.id.0 mark.at into.now) (lent_mut library.old) (kept_mut directory.old) }
    ensures stores { GivesBoth (storing (put_in mark.id.0 mark.at into.now) (lent_mut library.old) (kept_mut directory.old)) (inserted result) (lent_mut library.new) (kept_mut directory.new) }
    ensures same_lists { SameLists library.old library.new }
    ensures same_places { SamePlaces directory.old directory.new }
{
    let used = directory.used;
    let before = directory.as_directory();
    if places_after(&before.keys[..used], into) > before.keys.len() {
        return Err(Refusal::Full);
    }
    store_all(library, directory, into, mark);
    directory.truncate(directory.used);
    Ok(library.used)
}

// Puts a mark into a library that has a directory, and brings that up to date: every place past those in use is zero then.
// Returns how many rows are in use. Refused with 24, 13, 29, 2, 3, 11, 17, or 12 where the rows or the places would be too many;
// a refusal changes nothing.
// Kept: what the request asks with, in its order; a struct of it would be taken apart at once.
pub fn insert(
    sheet: GridSearch,
    library: &mut LibraryMut,
    directory: &mut DirectoryMut,
    id: ItemId,
    x: &[f64],
) -> Result<usize, Refusal>
    ensures gives { GivesBoth (filing sheet (lent_mut library.old) (kept_mut directory.old) (insertion sheet (lent_mut library.old) id.0 x.now))
        (inserted result) (lent_mut library.new) (kept_mut directory.new) }
    ensures same_lists { SameLists library.old library.new }
    ensures same_places { SamePlaces directory.old directory.new }
{
    directory::directory_fault(sheet, library.as_library(), directory.as_directory())?;
    let targets = rows::judge_mark(sheet, library.as_library(), id, x)?;
    let mark = Mark {
        id,
        at: Position::new(x),
    };
    store_mark(library, directory, targets.as_slice(), mark)
}
