// A library with a directory of its containers: the directory's build and look-up, and the library's calls through it.
ghost use Rattle.table.specs.Library.{library};
ghost use Rattle.rows.specs.Insert.{insertion};
ghost use Rattle.strike.specs.Strike.{striking};
ghost use Rattle.search.specs.Search.{search_answer};
ghost use Rattle.listing.specs.Place.{asked_of};
ghost use Rattle.listing.specs.Listing.{listing};
ghost use Rattle.directory.specs.Directory.{directory};
ghost use Rattle.directory.specs.Calls.{building, looking_up, filing, asking, filling};
ghost use Rattle.capi.specs.Sheets.{sheet_of};
ghost use Rattle.capi.specs.Libraries.{ToldFound};
ghost use Rattle.capi.specs.Lists.{filter_of, ToldList};
ghost use Rattle.capi.specs.Directories.{ToldBuilt, ToldLooked, ToldFiled, ToldTakenOff};

use crate::lists::filter_of;
use crate::sheet::sheet_of;
use crate::told::{tell, tell_count};
use directory::{Directory, DirectoryMut};
use table::{ItemId, Library, LibraryMut};

// Writes the directory of a library's rows, zeros past it to the end of the lists, and its used count, which is not read. Returns
// 0, or the first of 24, 13 and 12 that applies, and then writes nothing.
pub fn gemlab_directory_build(
    numbers: &[u64],
    floats: &[f64],
    keys: &[u64],
    ids: &[u64],
    xs: &[f64],
    ys: &[f64],
    zs: &[f64],
    used: u64,
    dir_keys: &mut [u64],
    dir_firsts: &mut [u64],
    dir_counts: &mut [u64],
    dir_used: &mut u64,
) -> u64
    ensures { ToldBuilt (building (sheet_of numbers.now floats.now)
        (library keys.now ids.now xs.now ys.now zs.now used)
        (directory dir_keys.old dir_firsts.old dir_counts.old dir_used.old))
        result (directory dir_keys.new dir_firsts.new dir_counts.new dir_used.new) }
{
    let sheet = sheet_of(numbers, floats);
    let library = Library {
        keys,
        ids,
        xs,
        ys,
        zs,
        used: used as usize,
    };
    let mut directory = DirectoryMut {
        keys: dir_keys,
        firsts: dir_firsts,
        counts: dir_counts,
        used: 0,
    };
    let answer = directory::build(sheet, library, &mut directory);
    tell_count(answer, dir_used)
}

// Looks a key up in a directory: found is 1 and place the key's place, or found is 0 and place stays; reads is how many places
// were read. Returns 0, or the first of 24, 13 and 29 that applies, and then writes nothing.
pub fn gemlab_directory_look_up(
    numbers: &[u64],
    floats: &[f64],
    keys: &[u64],
    ids: &[u64],
    xs: &[f64],
    ys: &[f64],
    zs: &[f64],
    used: u64,
    dir_keys: &[u64],
    dir_firsts: &[u64],
    dir_counts: &[u64],
    dir_used: u64,
    key: u64,
    found: &mut u64,
    place: &mut u64,
    reads: &mut u64,
) -> u64
    ensures { ToldLooked (looking_up (sheet_of numbers.now floats.now)
        (library keys.now ids.now xs.now ys.now zs.now used)
        (directory dir_keys.now dir_firsts.now dir_counts.now dir_used) key)
        result found.old found.new place.old place.new reads.old reads.new }
{
    let sheet = sheet_of(numbers, floats);
    let library = Library {
        keys,
        ids,
        xs,
        ys,
        zs,
        used: used as usize,
    };
    let directory = Directory {
        keys: dir_keys,
        firsts: dir_firsts,
        counts: dir_counts,
        used: dir_used as usize,
    };
    match directory::look_up(sheet, library, directory, key) {
        Ok(look) => {
            tell(look.place.map(|at| at as u64), found, place);
            *reads = look.reads as u64;
            0
        }
        Err(refusal) => u64::from(refusal),
    }
}

// Puts a mark into a library as `gemlab_grid_search_insert` does, brings the directory up to date, and writes both new counts.
// Returns 0, or the first of 24, 13, 29, 2, 3, 11, 17 and 12 that applies, and then writes nothing.
pub fn gemlab_directory_insert(
    numbers: &[u64],
    floats: &[f64],
    keys: &mut [u64],
    ids: &mut [u64],
    xs: &mut [f64],
    ys: &mut [f64],
    zs: &mut [f64],
    used: &mut u64,
    dir_keys: &mut [u64],
    dir_firsts: &mut [u64],
    dir_counts: &mut [u64],
    dir_used: &mut u64,
    id: u64,
    x: &[f64],
) -> u64
    ensures { ToldFiled (filing (sheet_of numbers.now floats.now)
        (library keys.old ids.old xs.old ys.old zs.old used.old)
        (directory dir_keys.old dir_firsts.old dir_counts.old dir_used.old)
        (insertion (sheet_of numbers.now floats.now)
        (library keys.old ids.old xs.old ys.old zs.old used.old) id x.now))
        result (library keys.new ids.new xs.new ys.new zs.new used.new)
        (directory dir_keys.new dir_firsts.new dir_counts.new dir_used.new) }
{
    let sheet = sheet_of(numbers, floats);
    let mut library = LibraryMut {
        keys,
        ids,
        xs,
        ys,
        zs,
        used: *used as usize,
    };
    let mut directory = DirectoryMut {
        keys: dir_keys,
        firsts: dir_firsts,
        counts: dir_counts,
        used: *dir_used as usize,
    };
    let answer = directory_insert::insert(sheet, &mut library, &mut directory, ItemId(id), x);
    let number = tell_count(answer, used);
    if answer.is_ok() {
        *dir_used = directory.used as u64;
    }
    number
}

// Takes every row of an id out of a library as `gemlab_grid_search_strike` does, brings the directory up to date, and writes both
// new counts and how many rows went. Returns 0, or the first of 24, 13, 29 and 26 that applies, and then writes nothing.
pub fn gemlab_directory_strike(
    numbers: &[u64],
    floats: &[f64],
    keys: &mut [u64],
    ids: &mut [u64],
    xs: &mut [f64],
    ys: &mut [f64],
    zs: &mut [f64],
    used: &mut u64,
    dir_keys: &mut [u64],
    dir_firsts: &mut [u64],
    dir_counts: &mut [u64],
    dir_used: &mut u64,
    id: u64,
    removed: &mut u64,
) -> u64
    ensures { ToldTakenOff (filing (sheet_of numbers.now floats.now)
        (library keys.old ids.old xs.old ys.old zs.old used.old)
        (directory dir_keys.old dir_firsts.old dir_counts.old dir_used.old)
        (striking (sheet_of numbers.now floats.now)
        (library keys.old ids.old xs.old ys.old zs.old used.old) id))
        result (library keys.new ids.new xs.new ys.new zs.new used.new)
        (directory dir_keys.new dir_firsts.new dir_counts.new dir_used.new)
        removed.old removed.new }
{
    let sheet = sheet_of(numbers, floats);
    let mut library = LibraryMut {
        keys,
        ids,
        xs,
        ys,
        zs,
        used: *used as usize,
    };
    let mut directory = DirectoryMut {
        keys: dir_keys,
        firsts: dir_firsts,
        counts: dir_counts,
        used: *dir_used as usize,
    };
    let answer = directory_strike::strike(sheet, &mut library, &mut directory, ItemId(id));
    if answer.is_ok() {
        *used = library.used as u64;
        *dir_used = directory.used as u64;
    }
    tell_count(answer, removed)
}

// Tells whether a mark is near a position as `gemlab_grid_search_search` does, through the directory. Returns 0, or the first of
// 24, 13, 29, 2, 3, 11 and 17 that applies, and then writes nothing.
pub fn gemlab_directory_search(
    numbers: &[u64],
    floats: &[f64],
    keys: &[u64],
    ids: &[u64],
    xs: &[f64],
    ys: &[f64],
    zs: &[f64],
    used: u64,
    dir_keys: &[u64],
    dir_firsts: &[u64],
    dir_counts: &[u64],
    dir_used: u64,
    x: &[f64],
    found: &mut u64,
    id: &mut u64,
) -> u64
    ensures { ToldFound (asking (sheet_of numbers.now floats.now)
        (library keys.now ids.now xs.now ys.now zs.now used)
        (directory dir_keys.now dir_firsts.now dir_counts.now dir_used)
        (search_answer (sheet_of numbers.now floats.now)
        (library keys.now ids.now xs.now ys.now zs.now used) x.now))
        result found.old found.new id.old id.new }
{
    let sheet = sheet_of(numbers, floats);
    let library = Library {
        keys,
        ids,
        xs,
        ys,
        zs,
        used: used as usize,
    };
    let directory = Directory {
        keys: dir_keys,
        firsts: dir_firsts,
        counts: dir_counts,
        used: dir_used as usize,
    };
    match directory_search::search(sheet, library, directory, x) {
        Ok(mark) => {
            tell(mark.map(|mark| mark.0), found, id);
            0
        }
        Err(refusal) => u64::from(refusal),
    }
}

// Writes the ids of the marks on a place that the filter keeps, and their count, as `gemlab_grid_search_list` does, through the
// directory. Returns 0, or the first of 24, 13, 29, 16, 2, 3, 15 and 14 that applies, and then writes nothing.
// Kept: C has numbers for the places and filters (include/gemlab.h).
pub fn gemlab_directory_list(
    numbers: &[u64],
    floats: &[f64],
    keys: &[u64],
    ids: &[u64],
    xs: &[f64],
    ys: &[f64],
    zs: &[f64],
    used: u64,
    dir_keys: &[u64],
    dir_firsts: &[u64],
    dir_counts: &[u64],
    dir_used: u64,
    place: u64,
    a: &[f64],
    b: &[f64],
    number: f64,
    filter: u64,
    axis: u64,
    low: f64,
    high: f64,
    list: &mut [u64],
    count: &mut u64,
) -> u64
    ensures { ToldList (filling (sheet_of numbers.now floats.now)
        (library keys.now ids.now xs.now ys.now zs.now used)
        (directory dir_keys.now dir_firsts.now dir_counts.now dir_used) list.old
        (listing (sheet_of numbers.now floats.now)
        (library keys.now ids.now xs.now ys.now zs.now used)
        (asked_of place a.now b.now number) (filter_of filter axis low high) list.old))
        result list.new count.old count.new }
{
    let sheet = sheet_of(numbers, floats);
    let library = Library {
        keys,
        ids,
        xs,
        ys,
        zs,
        used: used as usize,
    };
    let directory = Directory {
        keys: dir_keys,
        firsts: dir_firsts,
        counts: dir_counts,
        used: dir_used as usize,
    };
    let filter = filter_of(filter, axis, low, high);
    let answer = directory_list::search_on_place(
        sheet, library, directory, place, a, b, number, filter, list,
    );
    tell_count(answer, count)
}
