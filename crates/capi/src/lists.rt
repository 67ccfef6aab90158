// The listings.
ghost use Rattle.std.specs.Prelude.{◌≡◌};
ghost use Rattle.table.specs.Library.{library};
ghost use Rattle.listing.specs.Place.{asked_of};
ghost use Rattle.listing.specs.Listing.{listing};
ghost use Rattle.capi.specs.Sheets.{sheet_of};
ghost use Rattle.capi.specs.Lists.{filter_of, ToldList};

use crate::sheet::sheet_of;
use crate::told::tell_count;
use listing::Filter;
use table::Library;

// The filter of a number: 0 for everything, 1 for a range. Any other is a range on an axis that no dimension has.
// Kept: C has numbers for the filters (include/gemlab.h), and any number is answered.
#[tactic(auto, unfolding(crate::specs::Lists::filter_of))]
pub(crate) fn filter_of(filter: u64, axis: u64, low: f64, high: f64) -> Filter
    ensures { result ≡ filter_of filter axis low high }
{
    match filter {
        0 => Filter::Everything,
        1 => Filter::Range { axis, low, high },
        _ => Filter::Range {
            axis: 3,
            low: 0.0,
            high: 0.0,
        },
    }
}

// Writes the ids of the marks on a place that the filter keeps, ascending and once each, and their count. Returns 0, or the
// first of 24, 13, 16, 2, 3, 15 and 14 that applies, and then writes nothing.
// Kept: C has numbers for the places and filters (include/gemlab.h).
pub fn gemlab_grid_search_list(
    numbers: &[u64],
    floats: &[f64],
    keys: &[u64],
    ids: &[u64],
    xs: &[f64],
    ys: &[f64],
    zs: &[f64],
    used: u64,
    place: u64,
    a: &[f64],
    b: &[f64],
    number: f64,
    filter: u64,
    axis: u64,
    low: f64,
    high: f64,
    list: &mut [u64],
    count: &mut u64,
) -> u64
    ensures { ToldList (listing (sheet_of numbers.now floats.now)
        (library keys.now ids.now xs.now ys.now zs.now used)
        (asked_of place a.now b.now number) (filter_of filter axis low high) list.old)
        result list.new count.old count.new }
{
    let sheet = sheet_of(numbers, floats);
    let library = Library {
        keys,
        ids,
        xs,
        ys,
        zs,
        used: used as usize,
    };
    let filter = filter_of(filter, axis, low, high);
    let answer = listing::search_on_place(sheet, library, place, a, b, number, filter, list);
    tell_count(answer, count)
}
