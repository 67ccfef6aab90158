// A library of marks on a sheet: insertion, striking, check and search.
ghost use Rattle.table.specs.Library.{library};
ghost use Rattle.rows.specs.Check.{checking};
ghost use Rattle.rows.specs.Insert.{insertion};
ghost use Rattle.strike.specs.Strike.{striking};
ghost use Rattle.search.specs.Search.{search_answer};
ghost use Rattle.capi.specs.Sheets.{sheet_of};
ghost use Rattle.capi.specs.Libraries.{ToldTurn, ToldStruck, ToldWalk, ToldFound};

use crate::sheet::sheet_of;
use crate::told::{tell, tell_count};
use table::{ItemId, Library, LibraryMut};

// Puts a mark into its own container and those of its halo corners, and writes the new count. Returns 0, or the first of 24,
// 13, 2, 3, 11, 17 and 12 that applies, and then writes nothing.
pub fn gemlab_grid_search_insert(
    numbers: &[u64],
    floats: &[f64],
    keys: &mut [u64],
    ids: &mut [u64],
    xs: &mut [f64],
    ys: &mut [f64],
    zs: &mut [f64],
    used: &mut u64,
    id: u64,
    x: &[f64],
) -> u64
    ensures { ToldTurn (insertion (sheet_of numbers.now floats.now)
        (library keys.old ids.old xs.old ys.old zs.old used.old) id x.now)
        result (library keys.new ids.new xs.new ys.new zs.new used.new) }
{
    let sheet = sheet_of(numbers, floats);
    let mut library = LibraryMut {
        keys,
        ids,
        xs,
        ys,
        zs,
        used: *used as usize,
    };
    let answer = rows::insert(sheet, &mut library, ItemId(id), x);
    tell_count(answer, used)
}

// Takes every row of an id out of the library, and writes the new count and how many rows went. Returns 0, or the first of 24,
// 13 and 26 that applies, and then writes nothing.
pub fn gemlab_grid_search_strike(
    numbers: &[u64],
    floats: &[f64],
    keys: &mut [u64],
    ids: &mut [u64],
    xs: &mut [f64],
    ys: &mut [f64],
    zs: &mut [f64],
    used: &mut u64,
    id: u64,
    removed: &mut u64,
) -> u64
    ensures { ToldStruck (striking (sheet_of numbers.now floats.now)
        (library keys.old ids.old xs.old ys.old zs.old used.old) id)
        result (library keys.new ids.new xs.new ys.new zs.new used.new)
        removed.old removed.new }
{
    let sheet = sheet_of(numbers, floats);
    let mut library = LibraryMut {
        keys,
        ids,
        xs,
        ys,
        zs,
        used: *used as usize,
    };
    let answer = strike::strike(sheet, &mut library, ItemId(id));
    if answer.is_ok() {
        *used = library.used as u64;
    }
    tell_count(answer, removed)
}

// Checks the rows of a library, each once up to the first bad one: broken is 1 and row the lowest row that breaks 13 by itself or
// is not above the row before it, or broken is 0 and row stays; visited is how many rows were visited. Returns 0, or the first of
// 24 and 13 that applies (the sheet, the lengths of the lists, the used count), and then writes nothing.
pub fn gemlab_grid_search_check(
    numbers: &[u64],
    floats: &[f64],
    keys: &[u64],
    ids: &[u64],
    xs: &[f64],
    ys: &[f64],
    zs: &[f64],
    used: u64,
    broken: &mut u64,
    row: &mut u64,
    visited: &mut u64,
) -> u64
    ensures { ToldWalk (checking (sheet_of numbers.now floats.now)
        (library keys.now ids.now xs.now ys.now zs.now used))
        result broken.old broken.new row.old row.new visited.old visited.new }
{
    let sheet = sheet_of(numbers, floats);
    let library = Library {
        keys,
        ids,
        xs,
        ys,
        zs,
        used: used as usize,
    };
    match rows::check_library(sheet, library) {
        Ok(walk) => {
            tell(walk.bad.map(|bad| bad as u64), broken, row);
            *visited = walk.visited as u64;
            0
        }
        Err(refusal) => u64::from(refusal),
    }
}

// Tells whether a mark is near a position: found is 1 and id the nearest one, the lowest among equally near ones, or found
// is 0 and id stays. Returns 0, or the first of 24, 13, 2, 3, 11 and 17 that applies, and then writes nothing.
pub fn gemlab_grid_search_search(
    numbers: &[u64],
    floats: &[f64],
    keys: &[u64],
    ids: &[u64],
    xs: &[f64],
    ys: &[f64],
    zs: &[f64],
    used: u64,
    x: &[f64],
    found: &mut u64,
    id: &mut u64,
) -> u64
    ensures { ToldFound (search_answer (sheet_of numbers.now floats.now)
        (library keys.now ids.now xs.now ys.now zs.now used) x.now)
        result found.old found.new id.old id.new }
{
    let sheet = sheet_of(numbers, floats);
    let library = Library {
        keys,
        ids,
        xs,
        ys,
        zs,
        used: used as usize,
    };
    match search::search(sheet, library, x) {
        Ok(mark) => {
            tell(mark.map(|mark| mark.0), found, id);
            0
        }
        Err(refusal) => u64::from(refusal),
    }
}
