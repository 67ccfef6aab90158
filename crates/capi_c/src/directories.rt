// A library with a directory of its containers: the directory's build and look-up, and the library's calls through it.
ghost use Rattle.table.specs.Library.{library};
ghost use Rattle.rows.specs.Insert.{insertion};
ghost use Rattle.strike.specs.Strike.{striking};
ghost use Rattle.search.specs.Search.{search_answer};
ghost use Rattle.listing.specs.Place.{asked_of};
ghost use Rattle.listing.specs.Listing.{listing};
ghost use Rattle.directory.specs.Directory.{directory};
ghost use Rattle.directory.specs.Calls.{building, looking_up, filing, asking, filling};
ghost use Rattle.capi.specs.Sheets.{sheet_of};
ghost use Rattle.capi.specs.Libraries.{ToldFound};
ghost use Rattle.capi.specs.Lists.{filter_of, ToldList};
ghost use Rattle.capi.specs.Directories.{ToldBuilt, ToldLooked, ToldFiled, ToldTakenOff};

#[unsafe(no_mangle)]
pub extern "C" fn gemlab_directory_build(
    numbers: &[u64],
    floats: &[f64],
    keys: &[u64],
    ids: &[u64],
    xs: &[f64],
    ys: &[f64],
    zs: &[f64],
    used: u64,
    dir_keys: &mut [u64],
    dir_firsts: &mut [u64],
    dir_counts: &mut [u64],
    dir_used: &mut u64,
) -> u64
    ensures { ToldBuilt (building (sheet_of numbers.now floats.now)
        (library keys.now ids.now xs.now ys.now zs.now used)
        (directory dir_keys.old dir_firsts.old dir_counts.old dir_used.old))
        result (directory dir_keys.new dir_firsts.new dir_counts.new dir_used.new) }
{
    capi::gemlab_directory_build(
        numbers, floats, keys, ids, xs, ys, zs, used, dir_keys, dir_firsts, dir_counts, dir_used,
    )
}

#[unsafe(no_mangle)]
pub extern "C" fn gemlab_directory_look_up(
    numbers: &[u64],
    floats: &[f64],
    keys: &[u64],
    ids: &[u64],
    xs: &[f64],
    ys: &[f64],
    zs: &[f64],
    used: u64,
    dir_keys: &[u64],
    dir_firsts: &[u64],
    dir_counts: &[u64],
    dir_used: u64,
    key: u64,
    found: &mut u64,
    place: &mut u64,
    reads: &mut u64,
) -> u64
    ensures { ToldLooked (looking_up (sheet_of numbers.now floats.now)
        (library keys.now ids.now xs.now ys.now zs.now used)
        (directory dir_keys.now dir_firsts.now dir_counts.now dir_used) key)
        result found.old found.new place.old place.new reads.old reads.new }
{
    capi::gemlab_directory_look_up(
        numbers, floats, keys, ids, xs, ys, zs, used, dir_keys, dir_firsts, dir_counts, dir_used,
        key, found, place, reads,
    )
}

#[unsafe(no_mangle)]
pub extern "C" fn gemlab_directory_insert(
    numbers: &[u64],
    floats: &[f64],
    keys: &mut [u64],
    ids: &mut [u64],
    xs: &mut [f64],
    ys: &mut [f64],
    zs: &mut [f64],
    used: &mut u64,
    dir_keys: &mut [u64],
    dir_firsts: &mut [u64],
    dir_counts: &mut [u64],
    dir_used: &mut u64,
    id: u64,
    x: &[f64],
) -> u64
    ensures { ToldFiled (filing (sheet_of numbers.now floats.now)
        (library keys.old ids.old xs.old ys.old zs.old used.old)
        (directory dir_keys.old dir_firsts.old dir_counts.old dir_used.old)
        (insertion (sheet_of numbers.now floats.now)
        (library keys.old ids.old xs.old ys.old zs.old used.old) id x.now))
        result (library keys.new ids.new xs.new ys.new zs.new used.new)
        (directory dir_keys.new dir_firsts.new dir_counts.new dir_used.new) }
{
    capi::gemlab_directory_insert(
        numbers, floats, keys, ids, xs, ys, zs, used, dir_keys, dir_firsts, dir_counts, dir_used,
        id, x,
    )
}

#[unsafe(no_mangle)]
pub extern "C" fn gemlab_directory_strike(
    numbers: &[u64],
    floats: &[f64],
    keys: &mut [u64],
    ids: &mut [u64],
    xs: &mut [f64],
    ys: &mut [f64],
    zs: &mut [f64],
    used: &mut u64,
    dir_keys: &mut [u64],
    dir_firsts: &mut [u64],
    dir_counts: &mut [u64],
    dir_used: &mut u64,
    id: u64,
    removed: &mut u64,
) -> u64
    ensures { ToldTakenOff (filing (sheet_of numbers.now floats.now)
        (library keys.old ids.old xs.old ys.old zs.old used.old)
        (directory dir_keys.old dir_firsts.old dir_counts.old dir_used.old)
        (striking (sheet_of numbers.now floats.now)
        (library keys.old ids.old xs.old ys.old zs.old used.old) id))
        result (library keys.new ids.new xs.new ys.new zs.new used.new)
        (directory dir_keys.new dir_firsts.new dir_counts.new dir_used.new)
        removed.old removed.new }
{
    capi::gemlab_directory_strike(
        numbers, floats, keys, ids, xs, ys, zs, used, dir_keys, dir_firsts, dir_counts, dir_used,
        id, removed,
    )
}

#[unsafe(no_mangle)]
pub extern "C" fn gemlab_directory_search(
    numbers: &[u64],
    floats: &[f64],
    keys: &[u64],
    ids: &[u64],
    xs: &[f64],
    ys: &[f64],
    zs: &[f64],
    used: u64,
    dir_keys: &[u64],
    dir_firsts: &[u64],
    dir_counts: &[u64],
    dir_used: u64,
    x: &[f64],
    found: &mut u64,
    id: &mut u64,
) -> u64
    ensures { ToldFound (asking (sheet_of numbers.now floats.now)
        (library keys.now ids.now xs.now ys.now zs.now used)
        (directory dir_keys.now dir_firsts.now dir_counts.now dir_used)
        (search_answer (sheet_of numbers.now floats.now)
        (library keys.now ids.now xs.now ys.now zs.now used) x.now))
        result found.old found.new id.old id.new }
{
    capi::gemlab_directory_search(
        numbers, floats, keys, ids, xs, ys, zs, used, dir_keys, dir_firsts, dir_counts, dir_used,
        x, found, id,
    )
}

// Kept: C has numbers for the places and filters (include/gemlab.h).
#[unsafe(no_mangle)]
pub extern "C" fn gemlab_directory_list(
    numbers: &[u64],
    floats: &[f64],
    keys: &[u64],
    ids: &[u64],
    xs: &[f64],
    ys: &[f64],
    zs: &[f64],
    used: u64,
    dir_keys: &[u64],
    dir_firsts: &[u64],
    dir_counts: &[u64],
    dir_used: u64,
    place: u64,
    a: &[f64],
    b: &[f64],
    number: f64,
    filter: u64,
    axis: u64,
    low: f64,
    high: f64,
    list: &mut [u64],
    count: &mut u64,
) -> u64
    ensures { ToldList (filling (sheet_of numbers.now floats.now)
        (library keys.now ids.now xs.now ys.now zs.now used)
        (directory dir_keys.now dir_firsts.now dir_counts.now dir_used) list.old
        (listing (sheet_of numbers.now floats.now)
        (library keys.now ids.now xs.now ys.now zs.now used)
        (asked_of place a.now b.now number) (filter_of filter axis low high) list.old))
        result list.new count.old count.new }
{
    capi::gemlab_directory_list(
        numbers, floats, keys, ids, xs, ys, zs, used, dir_keys, dir_firsts, dir_counts, dir_used,
        place, a, b, number, filter, axis, low, high, list, count,
    )
}
