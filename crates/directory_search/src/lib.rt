// Request e of document 02: the mark at a position, through a directory of the containers.
#![tactic(auto)]

ghost use Rattle.std.specs.Prelude.{◌≡◌, ◌+◌, ◌≤◌};
ghost use Rattle.std.proofs.Math.Option.{none};
ghost use Rattle.basics.specs.Refusals.{fault};
ghost use Rattle.geometry.specs.Position.{coords};
ghost use Rattle.table.specs.Library.{table};
ghost use Rattle.table.specs.Lent.{lent};
ghost use Rattle.rows.specs.Insert.{container_of};
ghost use Rattle.search.specs.Search.{near_rows, chosen, search_answer, found, id_of};
ghost use Rattle.directory.specs.Lent.{kept};
ghost use Rattle.directory.specs.Calls.{directory_tests, asking};

use basics::Refusal;
use directory::{Directory, Entry};
use geometry::{Dimension, Position};
use grid_search::GridSearch;
use table::{ItemId, Library};

// Where the rows of an entry end.
fn end_of(entry: Entry) -> usize
    requires { entry.first + entry.count ≤ 65536 }
    ensures { result ≡ entry.first + entry.count }
{
    entry.first as usize + entry.count as usize
}

// The choice among the rows near x, which is in the container of a key, where the library and its directory pass their check:
// the directory tells where the container's rows begin and end, and no others are read.
// Kept: sheet, rows and directory are lent apart, to other calls mutably: a struct of the three would be made in each call.
fn find_through(
    sheet: GridSearch,
    library: Library,
    directory: Directory,
    key: u64,
    x: Position,
) -> Option<ItemId>
    requires passing { fault (directory_tests sheet (lent library) (kept directory)) ≡ none }
    requires inside { container_of sheet (coords sheet.ndim x) ≡ key }
    ensures { id_of result ≡ chosen sheet (coords sheet.ndim x) (near_rows sheet (coords sheet.ndim x) (table (lent library.entry))) }
{
    let place = directory::find_place(&directory.keys[..directory.used], key).place?;
    let entry = directory.entry(place);
    let rows = Library {
        used: end_of(entry),
        ..library
    };
    search::find_from(sheet, rows, key, entry.first as usize, x)
}

// The nearest of the marks near a position, as `search::search` finds it, through a directory: past the checks only the rows
// of the position's container are read. Refused with 24, 13, 29, 2, 3, 11 or 17.
// Kept: sheet, rows and directory are lent apart, to other calls mutably: a struct of the three would be made in each call.
pub fn search(
    sheet: GridSearch,
    library: Library,
    directory: Directory,
    x: &[f64],
) -> Result<Option<ItemId>, Refusal>
    ensures { found result ≡ asking sheet (lent library.entry) (kept directory.entry) (search_answer sheet (lent library.entry) x.now) }
{
    directory::directory_fault(sheet, library, directory)?;
    rows::position_fault(sheet, x)?;
    let at = Position::new(x);
    let place = grid::calc_container_key(
        Dimension { n: sheet.ndim },
        sheet.side_length,
        sheet.ndiv,
        sheet.xmin,
        at,
    );
    let key = place.ok_or(Refusal::Ratio)?;
    Ok(find_through(sheet, library, directory, key.0, at))
}
