// What the program `survey` prints of a surveyor's text: the library of its marks on the sheet of their extremes, or the line of a
// refusal.
#![tactic(auto)]

ghost use Rattle.std.specs.Prelude.{◌≤◌, ◌≡◌, true};
ghost use Rattle.basics.specs.Refusals.{success};
ghost use Rattle.grid_search.specs.Sheet.{made, sheet_ok};
ghost use Rattle.table.specs.Lent.{lent_mut, SameLists};
ghost use Rattle.loading.specs.Loading.{insert_one, insert_all, Inserts};
ghost use Rattle.text.specs.Text.{Front};
ghost use Rattle.mark_lists.specs.MarkLists.{marks_in};
ghost use Rattle.mark_lists.specs.Lent.{lent};
ghost use Rattle.surveyed.specs.Posts.{Chosen};
ghost use Rattle.surveyed.specs.Surveyed.{lowest_of, highest_of, sheet_of_marks, on_sheet, of_marks, of_text};

use basics::Refusal;
use grid_search::GridSearch;
use mark_lists::{MarkListsMut, SoundMarks};
use survey_import::ImportError;
use table::{Library, LibraryMut};

// ---- the sheet

// The extreme of values, by the choice between two: the first is weighed against the second, what is chosen against the third, and so
// on. 0 of none.
fn extreme<F: Fn(f64, f64) -> f64>(values: &[f64], choose: F) -> f64
    requires { F.IsAlwaysCallable choose }
    ensures { Chosen (F.post choose) values.now result }
{
    let Some((first, rest)) = values.split_first() else {
        return 0.0;
    };
    let mut best = *first;
    for x in rest {
        best = choose(best, *x);
    }
    best
}

// The least of values: 0 of none.
fn lowest(values: &[f64]) -> f64
    ensures { result ≡ lowest_of values.now }
{
    extreme(values, |a, b| floats::min(a, b))
}

// The greatest of values: 0 of none.
// Kept: what `lowest` and `highest` share is `extreme`, and each hands on the choice that is its own.
fn highest(values: &[f64]) -> f64
    ensures { result ≡ highest_of values.now }
{
    extreme(values, |a, b| floats::max(a, b))
}

// The sheet of the marks in use: on three axes from the extremes, with every setting left out.
fn sheet_of_marks(marks: SoundMarks) -> Result<GridSearch, Refusal>
    ensures { made result ≡ sheet_of_marks (marks_in (lent marks.entry.lists)) }
{
    let lists = marks.lists;
    let xs = &lists.xs[..lists.used];
    let ys = &lists.ys[..lists.used];
    let zs = &lists.zs[..lists.used];
    let xmin = [lowest(xs), lowest(ys), lowest(zs)];
    let xmax = [highest(xs), highest(ys), highest(zs)];
    GridSearch::new(&xmin, &xmax, None, None, None)
}

// ---- the marks

// Inserts the marks in use in order, up to the first that is turned away.
fn insert_marks(
    sheet: GridSearch,
    library: &mut LibraryMut,
    marks: SoundMarks,
) -> Result<usize, Refusal>
    ensures inserts { Inserts (insert_all (insert_one sheet) (lent_mut library.old) (marks_in (lent marks.entry.lists))) result (lent_mut library.new) }
    ensures same_lists { SameLists library.old library.new }
{
    for i in 0..marks.lists.used {
        let mark = marks.lists.mark(i);
        loading::insert_mark(sheet, library, mark)?;
    }
    Ok(library.used)
}

// What is printed of marks on a good sheet.
fn put_library(sheet: GridSearch, marks: SoundMarks, text: &mut [u8; 70804]) -> usize
    requires { sheet_ok sheet ≡ true }
    ensures { Front (on_sheet (success sheet) (marks_in (lent marks.entry.lists))) text.new result }
{
    let mut keys = [0u64; 1024];
    let mut ids = [0u64; 1024];
    let mut xs = [0.0f64; 1024];
    let mut ys = [0.0f64; 1024];
    let mut zs = [0.0f64; 1024];
    let mut library = LibraryMut {
        keys: &mut keys,
        ids: &mut ids,
        xs: &mut xs,
        ys: &mut ys,
        zs: &mut zs,
        used: 0,
    };
    let answer = insert_marks(sheet, &mut library, marks);
    let used = library.used;
    let library = Library {
        keys: &keys,
        ids: &ids,
        xs: &xs,
        ys: &ys,
        zs: &zs,
        used,
    };
    outcome::put_outcome(sheet, library, answer, text)
}

// What is printed of marks.
fn put_marks(marks: SoundMarks, text: &mut [u8; 70804]) -> usize
    ensures { Front (of_marks (marks_in (lent marks.entry.lists))) text.new result }
{
    match sheet_of_marks(marks) {
        Ok(sheet) => put_library(sheet, marks, text),
        Err(reason) => outcome::put_refused(reason, text),
    }
}

// What is printed of a surveyor's text: it stands at the front of the buffer, and its length is returned.
pub fn put_survey(bytes: &[u8], text: &mut [u8; 70804]) -> usize
    ensures { Front (of_text bytes.now) text.new result }
{
    let mut numbers = [0u64; 1024];
    let mut eastings = [0.0f64; 1024];
    let mut northings = [0.0f64; 1024];
    let mut heights = [0.0f64; 1024];
    let mut lists = MarkListsMut {
        ids: &mut numbers,
        xs: &mut eastings,
        ys: &mut northings,
        zs: &mut heights,
        used: 0,
    };
    match survey_import::import(bytes, &mut lists) {
        Ok(_) => {
            let marks = SoundMarks {
                lists: lists.as_lists(),
            };
            put_marks(marks, text)
        }
        Err(ImportError::Malformed(line)) => {
            outcome::put_refused_at(Refusal::Malformed, line as u64, text)
        }
        Err(ImportError::Refused(reason)) => outcome::put_refused(reason, text),
    }
}
