// Module 6: a library of marks on a sheet, in five lent slices: its check, and insertion. From gemlab's
// `GridSearch::insert`, `update_or_insert` and `set_halo`.
#![tactic(auto)]

ghost use Rattle.std.specs.Prelude.{◌≡◌, true, ◌&&◌, [], ◌++◌, ◌^◌, ◌≤◌, ◌<◌};
ghost use Rattle.std.proofs.Math.Option.{none};
ghost use Rattle.basics.specs.Refusals.{fault};
ghost use Rattle.basics.specs.Answers.{fault_in};
ghost use Rattle.geometry.specs.Position.{dimension};
ghost use Rattle.table.specs.Library.{table, space, too_long, sound_layout};
ghost use Rattle.table.specs.Rows.{slot_of};
ghost use Rattle.table.specs.Posts.{Room};
ghost use Rattle.table.specs.Lent.{lent, lent_mut, SameLists};
ghost use Rattle.rows.specs.Damage.{library_tests};
ghost use Rattle.rows.specs.Check.{above, walk, checking, walk_of, walked};
ghost use Rattle.rows.specs.Turn.{Gives};
ghost use Rattle.rows.specs.Insert.{position_tests, insertion, inserted};
ghost use Rattle.rows.specs.Posts.{third, good_in, slot_before, Judges};

mod targets;

use basics::Refusal;
use geometry::{Dimension, Position};
use grid_search::GridSearch;
use table::{ItemId, Library, LibraryMut, Mark, Row};
pub use targets::Targets;

// The most entries that a lent list of rows may have.
const MAX_ROWS: usize = 65536;

// What a walk over the rows tells: the lowest bad row, and how many rows were visited up to it, that one too; or none, and how
// many were visited.
#[derive(Clone, Copy)]
pub struct Walk {
    pub bad: Option<usize>,
    pub visited: usize,
}

// Whether one of the lists is too long.
fn is_too_long(library: Library) -> bool
    ensures { result ≡ too_long (space (lent library.entry)) }
{
    (MAX_ROWS < library.keys.len())
        | ((MAX_ROWS < library.ids.len())
            | ((MAX_ROWS < library.xs.len())
                | ((MAX_ROWS < library.ys.len()) | (MAX_ROWS < library.zs.len()))))
}

// Whether the lists are of one length, and the used count is not above it.
fn is_layout_sound(library: Library) -> bool
    ensures { result ≡ sound_layout (lent library.entry) }
{
    let n = library.keys.len();
    ((library.ids.len() == n)
        & ((library.xs.len() == n) & ((library.ys.len() == n) & (library.zs.len() == n))))
        & (library.used <= n)
}

// The row before one: its key plus one, and its id; or 0 where there is none.
// Kept: with an Option of a pair, and its order, a row takes a fifth longer, farther from its aim (docs/PERFORMANCE.md).
#[derive(Clone, Copy)]
struct Before {
    bound: u64,
    last: u64,
}

impl Before {
    // Whether a row whose key is below 2^32 stands above it. A sum in place of a choice: that takes fewer instructions.
    fn is_below(self, row: Row) -> bool
        ensures { row.key.0 < 2 ^ 32 → result ≡ above (slot_before self.bound self.last) (slot_of row) }
    {
        self.bound <= row.key.0 % 0x1_0000_0000 + (self.last < row.id.0) as u64
    }
}

// Whether z may be the third coordinate of a row.
fn is_third<const N: usize>(z: f64) -> bool
    ensures { result ≡ third N z }
{
    if N == 2 {
        floats::same_bits(z, 0.0)
    } else {
        geometry::is_coordinate(z)
    }
}

// Whether a row is good by itself and stands above the one before it. The tests are joined by `&`, in the order of which the
// compiler makes the fewest instructions.
fn is_good<const N: usize>(count: u64, before: Before, row: Row) -> bool
    requires { count ≤ 2 ^ 32 }
    ensures { result ≡ (good_in N count row && above (slot_before before.bound before.last) (slot_of row)) }
{
    is_third::<N>(row.at.z)
        & ((row.key.0 < count)
            & (before.is_below(row)
                & (geometry::is_coordinate(row.at.x) & geometry::is_coordinate(row.at.y))))
}

// Goes over the rows in use, each once, up to the first that is bad by itself or does not stand above the one before it.
// Tells that row or none, and how many rows were visited. The dimension is a parameter, so that no turn asks for it.
fn walk_rows<const N: usize>(count: u64, library: Library) -> Walk
    requires few { count ≤ 2 ^ 32 }
    requires room { Room (lent library) library.used }
    ensures { walk_of result ≡ walk (good_in N count) (table (lent library.entry)) }
{
    let mut before = Before { bound: 0, last: 0 };
    for i in 0..library.used {
        let row = library.row(i);
        if !is_good::<N>(count, before, row) {
            return Walk {
                bad: Some(i),
                visited: i + 1,
            };
        }
        before = Before {
            bound: row.key.0 + 1,
            last: row.id.0,
        };
    }
    Walk {
        bad: None,
        visited: library.used,
    }
}

// Checks a library: the lowest row that breaks 13 by itself or is not above the row before it, or none, and how many rows
// were visited, each once up to that row or the end. Refused with 24, or with 13 where the sheet is not the one its settings
// give, the lists are of unequal length or the used count is above it. It is the check of every call that takes a library.
pub fn check_library(sheet: GridSearch, library: Library) -> Result<Walk, Refusal>
    ensures { walked result ≡ checking sheet (lent library.entry) }
{
    if is_too_long(library) {
        return Err(Refusal::TooLong);
    }
    if !grid_search::is_sheet(sheet) {
        return Err(Refusal::Damaged);
    }
    if !is_layout_sound(library) {
        return Err(Refusal::Damaged);
    }
    let count = grid::container_count(Dimension { n: sheet.ndim }, sheet.ndiv);
    if sheet.ndim == 2 {
        Ok(walk_rows::<2>(count, library))
    } else {
        Ok(walk_rows::<3>(count, library))
    }
}

// What turns a library away: 24 or 13.
pub fn library_fault(sheet: GridSearch, library: Library) -> Result<(), Refusal>
    ensures { fault_in result ≡ fault (library_tests sheet (lent library.entry)) }
{
    match check_library(sheet, library)?.bad {
        Some(_) => Err(Refusal::Damaged),
        None => Ok(()),
    }
}

// What turns a position away before its container is looked for: 2, 3 or 11.
// Kept: a sheet from C may have any number of axes; a type of sheets with 2 or 3 would be made of it by each of the callers.
pub fn position_fault(sheet: GridSearch, x: &[f64]) -> Result<(), Refusal>
    requires { dimension sheet.ndim ≡ true }
    ensures { fault_in result ≡ fault (position_tests sheet x.now []) }
{
    let ndim = Dimension { n: sheet.ndim };
    if x.len() != ndim.n {
        return Err(Refusal::Length);
    }
    if !geometry::all_coordinates(x) {
        return Err(Refusal::Limit);
    }
    if grid::is_outside(ndim, sheet.xmin, sheet.xmax, Position::new(x)) {
        return Err(Refusal::Outside);
    }
    Ok(())
}

// What turns a call at a position away before its container is looked for: 24, 13, 2, 3 or 11.
// Kept: what the request asks with, in its order; a struct of it would be taken apart at once.
pub fn call_fault(sheet: GridSearch, library: Library, x: &[f64]) -> Result<(), Refusal>
    ensures { fault_in result ≡ fault (library_tests sheet (lent library.entry) ++ position_tests sheet x.now []) }
{
    library_fault(sheet, library)?;
    position_fault(sheet, x)
}

// Judges an insertion into a library that passes 24 and 13, and finds the containers that the mark goes into: 2, 3, 11, 17 and
// 12, which is judged before anything is written.
// Kept: what the request asks with, in its order; a struct of it would be taken apart at once.
pub fn judge_mark(
    sheet: GridSearch,
    library: Library,
    id: ItemId,
    x: &[f64],
) -> Result<Targets, Refusal>
    requires { fault (library_tests sheet (lent library)) ≡ none }
    ensures { Judges sheet (lent library.entry) id.0 x.now result }
{
    position_fault(sheet, x)?;
    let targets = Targets::find(sheet, Position::new(x)).ok_or(Refusal::Ratio)?;
    if library.rows_after(targets.as_slice(), id.0) > library.keys.len() {
        return Err(Refusal::Full);
    }
    Ok(targets)
}

// Puts a mark into the library: into its container, and into those of its halo corners that fall within the sheet. A row
// of the mark that is there takes the new coordinates. Returns how many rows are in use then. A refusal changes nothing.
// Kept: what the request asks with, in its order; a struct of it would be taken apart at once.
pub fn insert(
    sheet: GridSearch,
    library: &mut LibraryMut,
    id: ItemId,
    x: &[f64],
) -> Result<usize, Refusal>
    ensures gives { Gives (insertion sheet (lent_mut library.old) id.0 x.now) (inserted result) (lent_mut library.new) }
    ensures same_lists { SameLists library.old library.new }
{
    library_fault(sheet, library.as_library())?;
    let targets = judge_mark(sheet, library.as_library(), id, x)?;
    let mark = Mark {
        id,
        at: Position::new(x),
    };
    library.put_all(targets.as_slice(), mark);
    Ok(library.used)
}
