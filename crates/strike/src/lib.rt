// Request a of document 02: a post is dug out, and its number goes from the catalogue. gemlab has nothing of the kind.
#![tactic(auto)]

ghost use Rattle.table.specs.Rows.{without};
ghost use Rattle.table.specs.Lent.{lent_mut, SameLists};
ghost use Rattle.rows.specs.Turn.{Gives};
ghost use Rattle.strike.specs.Strike.{striking, struck};
ghost use Rattle.strike.specs.Posts.{FirstWith, Strikes, Closed, Leaves};

use basics::Refusal;
use grid_search::GridSearch;
use table::{ItemId, LibraryMut};

// The first of some ids that is this one.
pub fn first_with(ids: &[u64], id: u64) -> Option<usize>
    ensures { FirstWith id ids.now result }
{
    basics::find(ids, &id)
}

// Moves the rows of other ids down over those of this one, of which none stands before `from`, in one pass. Returns how many
// are left; what stands past them is of no use.
fn close_gaps(library: &mut LibraryMut, id: u64, from: usize) -> usize
    requires { Strikes id from (lent_mut library.old) }
    ensures closes { Closed id result (lent_mut library.old) (lent_mut library.new) }
    ensures same_lists { SameLists library.old library.new }
{
    let mut at = from;
    for i in from..library.used {
        // a row of the id is moved like any other, and then written over: which rows these are cannot be foreseen
        let row = library.as_library().row(i);
        library.write_row(at, row);
        at += usize::from(row.id.0 != id);
    }
    at
}

// Takes the rows of an id out, of which none stands before `from`: the others close up in their order, and every entry past
// them becomes 0 or +0.
pub fn remove(library: &mut LibraryMut, id: u64, from: usize)
    requires { Strikes id from (lent_mut library.old) }
    ensures leaves { Leaves (without id) (lent_mut library.old) (lent_mut library.new) }
    ensures same_lists { SameLists library.old library.new }
{
    let left = close_gaps(library, id, from);
    library.clear_from(left);
    library.used = left;
}

// Takes every row of an id out of the library, and tells how many went. The rows of other ids close up in their order, and
// every entry past them is 0 or +0: their room is free for later insertions. Refused with 24, 13, or 26 where the id has no
// row; a refusal changes nothing.
// Kept: what the request asks with, in its order; a struct of it would be taken apart at once.
pub fn strike(sheet: GridSearch, library: &mut LibraryMut, id: ItemId) -> Result<usize, Refusal>
    ensures strikes { Gives (striking sheet (lent_mut library.old) id.0) (struck result) (lent_mut library.new) }
    ensures same_lists { SameLists library.old library.new }
{
    let before = library.as_library();
    rows::library_fault(sheet, before)?;
    let used = before.used;
    let Some(first) = first_with(&before.ids[..used], id.0) else {
        return Err(Refusal::NoRow);
    };
    remove(library, id.0, first);
    let went = used - library.used;
    Ok(went)
}
