// Request e of document 02: listings of a library that has a directory. Their walk has the end of a container from its count.
#![tactic(auto)]

ghost use Rattle.std.specs.Prelude.{◌≡◌, IfOk, Some};
ghost use Rattle.basics.specs.Answers.{fault_in};
ghost use Rattle.basics.specs.Refusals.{fault};
ghost use Rattle.table.specs.Lent.{lent};
ghost use Rattle.listing.specs.Place.{asked_of, asked};
ghost use Rattle.listing.specs.Listing.{listing, Lists};
ghost use Rattle.listing.specs.Posts.{Counted};
ghost use Rattle.directory.specs.Lent.{kept};
ghost use Rattle.directory.specs.Calls.{directory_tests, filling};

use basics::Refusal;
use directory::Directory;
use grid_search::GridSearch;
use listing::{Filter, Place, SoundLibrary};
use table::Library;

// How many rows each container has, in their order, of a library that has a directory: 24, 13 (both cover the directory's
// slices too) and 29 (its used places are not the directory of the rows).
fn checked_counts<'a>(
    sheet: GridSearch,
    library: Library,
    directory: Directory<'a>,
) -> Result<&'a [u64], Refusal>
    ensures tests { fault_in result ≡ fault (directory_tests sheet (lent library.entry) (kept directory.entry)) }
    ensures counted { IfOk result (λ counts. Counted library.entry.keys.now library.entry.used (Some counts)) }
{
    directory::directory_fault(sheet, library, directory)?;
    Ok(&directory.counts[..directory.used])
}

// Lists the marks on a place, as `listing::search_on` does, and gives the same. Refused with the first of 24, 13, 29, 16, 3, 15
// and 14 that applies, the list as it was.
// Kept: what a listing is asked with, in the order of the request: a struct of some of it would be taken apart at once.
pub fn search_on(
    sheet: GridSearch,
    library: Library,
    directory: Directory,
    place: Place,
    filter: Filter,
    list: &mut [u64],
) -> Result<usize, Refusal>
    ensures { Lists (filling sheet (lent library.entry) (kept directory.entry)
        list.old (listing sheet (lent library.entry) (asked sheet.ndim place) filter list.old)) result list.new }
{
    let counts = checked_counts(sheet, library, directory)?;
    let of = SoundLibrary {
        sheet,
        library,
        counts: Some(counts),
    };
    listing::search_checked_on(of, place, filter, list)
}

// Lists the marks on a place that is given by a number and slices, as `listing::search_on_place` does, and gives the same, with 29
// directly after 13.
// Kept: C names a place by a number, with its slices apart; 16 is judged by the number, and then 2 by the slices.
pub fn search_on_place(
    sheet: GridSearch,
    library: Library,
    directory: Directory,
    place: u64,
    a: &[f64],
    b: &[f64],
    number: f64,
    filter: Filter,
    list: &mut [u64],
) -> Result<usize, Refusal>
    ensures { Lists (filling sheet (lent library.entry) (kept directory.entry)
        list.old (listing sheet (lent library.entry) (asked_of place a.now b.now number) filter list.old)) result list.new }
{
    let counts = checked_counts(sheet, library, directory)?;
    let of = SoundLibrary {
        sheet,
        library,
        counts: Some(counts),
    };
    listing::search_checked_on_place(of, place, a, b, number, filter, list)
}
