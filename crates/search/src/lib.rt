// Module 7: the mark at a position. From gemlab's `GridSearch::search`.
#![tactic(auto)]

ghost use Rattle.std.specs.Prelude.{◌≡◌, true, take};
ghost use Rattle.geometry.specs.Position.{coords, dimension};
ghost use Rattle.table.specs.Rows.{lead};
ghost use Rattle.table.specs.Library.{table};
ghost use Rattle.table.specs.Lent.{lent};
ghost use Rattle.table.specs.Posts.{InOrder};
ghost use Rattle.rows.specs.Insert.{container_of};
ghost use Rattle.search.specs.Search.{near_rows, chosen, search_answer, id_of, found};
ghost use Rattle.search.specs.Posts.{Within, Beyond, takes_place};

use basics::Refusal;
use geometry::{Dimension, Position};
use grid_search::GridSearch;
use table::{ItemId, Library};

// Whether the next row takes the place of the nearest so far: where there is one its distance is less, and else it is near.
// Distances are told by their squares, and no root is taken where these tell: `least` is the square of the nearest's, or where
// there is none one from which on no row is near, or a NaN; those up to `within` are near.
fn takes_place(tol_dist: f64, within: f64, best: Option<ItemId>, least: f64, square: f64) -> bool
    requires near { Within tol_dist within }
    requires far { Beyond tol_dist best least }
    ensures { result ≡ takes_place tol_dist best least square }
{
    // a larger square has no smaller root; and while there is none so far, no row is near from the square kept on
    if least <= square {
        return false;
    }
    match best {
        Some(_) => floats::sqrt(square) < floats::sqrt(least),
        None => (0.0 < square && square <= within) || floats::sqrt(square) <= tol_dist,
    }
}

// The choice among the rows near x, which is in the container of a key: the nearest, and the lowest id among equally near
// ones. The container's rows stand together from `from` on, and their ids ascend.
// Kept: a sheet from C may have any number of axes; a type of sheets with 2 or 3 would be made of it by each of the callers.
pub fn find_from(
    sheet: GridSearch,
    library: Library,
    key: u64,
    from: usize,
    x: Position,
) -> Option<ItemId>
    requires axes { dimension sheet.ndim ≡ true }
    requires inside { container_of sheet (coords sheet.ndim x) ≡ key }
    requires ordered { InOrder (lent library) }
    requires first { from ≡ lead key (take library.used library.keys.now) }
    ensures { id_of result ≡ chosen sheet (coords sheet.ndim x) (near_rows sheet (coords sheet.ndim x) (table (lent library.entry))) }
{
    let ndim = Dimension { n: sheet.ndim };
    let within = windows::square_within(None, sheet.tol_dist);
    let mut best = None;
    let mut least = windows::square_above(None, sheet.tol_dist);
    for i in from..library.used {
        if library.keys[i] != key {
            break;
        }
        let row = library.row(i);
        let square = geometry::point_square(ndim, row.at, x);
        // ids ascend, so a row that is as near does not take the place
        if takes_place(sheet.tol_dist, within, best, least, square) {
            best = Some(row.id);
            least = square;
        }
    }
    best
}

// The nearest of the marks near a position, and the one of the lowest id among equally near ones; or none, or the refusal.
// Kept: what the request asks with, in its order; a struct of it would be taken apart at once.
pub fn search(sheet: GridSearch, library: Library, x: &[f64]) -> Result<Option<ItemId>, Refusal>
    ensures { found result ≡ search_answer sheet (lent library.entry) x.now }
{
    rows::call_fault(sheet, library, x)?;
    let at = Position::new(x);
    let place = grid::calc_container_key(
        Dimension { n: sheet.ndim },
        sheet.side_length,
        sheet.ndiv,
        sheet.xmin,
        at,
    );
    let key = place.ok_or(Refusal::Ratio)?;
    let from = table::first_of(&library.keys[..library.used], key.0);
    Ok(find_from(sheet, library, key.0, from, at))
}
