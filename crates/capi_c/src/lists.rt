// The listings.
ghost use Rattle.table.specs.Library.{library};
ghost use Rattle.listing.specs.Place.{asked_of};
ghost use Rattle.listing.specs.Listing.{listing};
ghost use Rattle.capi.specs.Sheets.{sheet_of};
ghost use Rattle.capi.specs.Lists.{filter_of, ToldList};

// Kept: C has numbers for the places and filters (include/gemlab.h).
#[unsafe(no_mangle)]
pub extern "C" fn gemlab_grid_search_list(
    numbers: &[u64],
    floats: &[f64],
    keys: &[u64],
    ids: &[u64],
    xs: &[f64],
    ys: &[f64],
    zs: &[f64],
    used: u64,
    place: u64,
    a: &[f64],
    b: &[f64],
    number: f64,
    filter: u64,
    axis: u64,
    low: f64,
    high: f64,
    list: &mut [u64],
    count: &mut u64,
) -> u64
    ensures { ToldList (listing (sheet_of numbers.now floats.now)
        (library keys.now ids.now xs.now ys.now zs.now used)
        (asked_of place a.now b.now number) (filter_of filter axis low high) list.old)
        result list.new count.old count.new }
{
    capi::gemlab_grid_search_list(
        numbers, floats, keys, ids, xs, ys, zs, used, place, a, b, number, filter, axis, low, high,
        list, count,
    )
}
