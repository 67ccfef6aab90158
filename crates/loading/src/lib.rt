// A sheet and marks from the bytes of their files, which are records as `records` has them.
#![tactic(auto)]

ghost use Rattle.std.specs.Prelude.{◌≤◌, ◌≡◌, cond, eqb, length};
ghost use Rattle.basics.specs.Refusals.{refused, success};
ghost use Rattle.geometry.specs.declared.Position.{Position};
ghost use Rattle.geometry.specs.Position.{coords};
ghost use Rattle.grid_search.specs.Sheet.{made};
ghost use Rattle.table.specs.Lent.{lent_mut, SameLists};
ghost use Rattle.rows.specs.Turn.{Gives};
ghost use Rattle.rows.specs.Insert.{inserted};
ghost use Rattle.loading.specs.Loading.{sheet_of_records, insert_one, insert_record, insert_bytes, Inserts};

use basics::Refusal;
use geometry::Dimension;
use grid_search::GridSearch;
use records::Record;
use table::{ItemId, LibraryMut};

// The sheet of two records: dimension and low corner, divisions and high corner. In 2D the third floats are not read.
pub fn sheet_of_records(bytes: &[u8]) -> Result<GridSearch, Refusal>
    ensures { made result ≡ sheet_of_records bytes.now }
{
    if bytes.len() != 64 {
        return Err(Refusal::Damaged);
    }
    let (halves, _) = bytes.as_chunks();
    let low = records::record_of(&halves[0]);
    let high = records::record_of(&halves[1]);
    let ndim = Dimension::try_from(low.id as usize)?;
    let xmin = [low.x, low.y, low.z];
    let xmax = [high.x, high.y, high.z];
    GridSearch::new(&xmin[..ndim.n], &xmax[..ndim.n], Some(high.id), None, None)
}

// How many of a record's floats stand for axes.
fn floats_read(ndim: usize) -> usize
    ensures most { result ≤ 3 }
    ensures same { ((p : Position) → coords result p ≡ coords ndim p) }
{
    ndim.min(3)
}

// Inserts a mark. In 2D its third float is not read.
pub fn insert_mark(
    sheet: GridSearch,
    library: &mut LibraryMut,
    mark: Record,
) -> Result<usize, Refusal>
    ensures inserts { Gives (insert_one sheet (lent_mut library.old) mark) (inserted result) (lent_mut library.new) }
    ensures same_lists { SameLists library.old library.new }
{
    let x = [mark.x, mark.y, mark.z];
    let n = floats_read(sheet.ndim);
    rows::insert(sheet, library, ItemId(mark.id), &x[..n])
}

// Inserts the mark of a record of a file: 13 where the bytes are no record.
pub fn insert_record(
    sheet: GridSearch,
    library: &mut LibraryMut,
    bytes: &[u8],
) -> Result<usize, Refusal>
    ensures inserts { Gives (insert_record sheet (lent_mut library.old) bytes.now) (inserted result) (lent_mut library.new) }
    ensures same_lists { SameLists library.old library.new }
{
    let mark = Record::try_from(bytes)?;
    insert_mark(sheet, library, mark)
}

// The answer once the marks of whole records were taken: 13 where bytes are left over.
fn answer_after(left: &[u8], rows: usize) -> Result<usize, Refusal>
    ensures { inserted result ≡ cond (eqb (length left.now) 0) (success rows) (refused 13) }
{
    if left.is_empty() {
        Ok(rows)
    } else {
        Err(Refusal::Damaged)
    }
}

// Inserts the marks of the whole records of this width in order, up to the first that is turned away; bytes left over are
// judged last. A file of any length is inserted part by part, each but the last of whole records.
// Kept: what the request asks with, in its order; a struct of it would be taken apart at once.
pub fn insert_records(
    sheet: GridSearch,
    library: &mut LibraryMut,
    bytes: &[u8],
    width: usize,
) -> Result<usize, Refusal>
    ensures inserts { Inserts (insert_bytes width sheet (lent_mut library.old) bytes.now) result (lent_mut library.new) }
    ensures same_lists { SameLists library.old library.new }
{
    // no record has width 0
    if width == 0 {
        return answer_after(bytes, library.used);
    }
    let records = bytes.chunks_exact(width);
    let left = records.remainder();
    for record in records {
        insert_record(sheet, library, record)?;
    }
    answer_after(left, library.used)
}
