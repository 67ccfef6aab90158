// A library of marks on a sheet: insertion, striking, check and search.
ghost use Rattle.table.specs.Library.{library};
ghost use Rattle.rows.specs.Check.{checking};
ghost use Rattle.rows.specs.Insert.{insertion};
ghost use Rattle.strike.specs.Strike.{striking};
ghost use Rattle.search.specs.Search.{search_answer};
ghost use Rattle.capi.specs.Sheets.{sheet_of};
ghost use Rattle.capi.specs.Libraries.{ToldTurn, ToldStruck, ToldWalk, ToldFound};

#[unsafe(no_mangle)]
pub extern "C" fn gemlab_grid_search_insert(
    numbers: &[u64],
    floats: &[f64],
    keys: &mut [u64],
    ids: &mut [u64],
    xs: &mut [f64],
    ys: &mut [f64],
    zs: &mut [f64],
    used: &mut u64,
    id: u64,
    x: &[f64],
) -> u64
    ensures { ToldTurn (insertion (sheet_of numbers.now floats.now)
        (library keys.old ids.old xs.old ys.old zs.old used.old) id x.now)
        result (library keys.new ids.new xs.new ys.new zs.new used.new) }
{
    capi::gemlab_grid_search_insert(numbers, floats, keys, ids, xs, ys, zs, used, id, x)
}

#[unsafe(no_mangle)]
pub extern "C" fn gemlab_grid_search_strike(
    numbers: &[u64],
    floats: &[f64],
    keys: &mut [u64],
    ids: &mut [u64],
    xs: &mut [f64],
    ys: &mut [f64],
    zs: &mut [f64],
    used: &mut u64,
    id: u64,
    removed: &mut u64,
) -> u64
    ensures { ToldStruck (striking (sheet_of numbers.now floats.now)
        (library keys.old ids.old xs.old ys.old zs.old used.old) id)
        result (library keys.new ids.new xs.new ys.new zs.new used.new)
        removed.old removed.new }
{
    capi::gemlab_grid_search_strike(numbers, floats, keys, ids, xs, ys, zs, used, id, removed)
}

#[unsafe(no_mangle)]
pub extern "C" fn gemlab_grid_search_check(
    numbers: &[u64],
    floats: &[f64],
    keys: &[u64],
    ids: &[u64],
    xs: &[f64],
    ys: &[f64],
    zs: &[f64],
    used: u64,
    broken: &mut u64,
    row: &mut u64,
    visited: &mut u64,
) -> u64
    ensures { ToldWalk (checking (sheet_of numbers.now floats.now)
        (library keys.now ids.now xs.now ys.now zs.now used))
        result broken.old broken.new row.old row.new visited.old visited.new }
{
    capi::gemlab_grid_search_check(
        numbers, floats, keys, ids, xs, ys, zs, used, broken, row, visited,
    )
}

#[unsafe(no_mangle)]
pub extern "C" fn gemlab_grid_search_search(
    numbers: &[u64],
    floats: &[f64],
    keys: &[u64],
    ids: &[u64],
    xs: &[f64],
    ys: &[f64],
    zs: &[f64],
    used: u64,
    x: &[f64],
    found: &mut u64,
    id: &mut u64,
) -> u64
    ensures { ToldFound (search_answer (sheet_of numbers.now floats.now)
        (library keys.now ids.now xs.now ys.now zs.now used) x.now)
        result found.old found.new id.old id.new }
{
    capi::gemlab_grid_search_search(numbers, floats, keys, ids, xs, ys, zs, used, x, found, id)
}
