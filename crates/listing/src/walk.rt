// The walk over the rows, from container to container: the rows that count are gathered as indices, one is selected for each
// id, and the ids are written. Indices stand in 2 KiB of the stack; only where more than 1,024 rows count, in 128 KiB.
ghost use Rattle.std.specs.Prelude.{ℕ, ◌+◌, ◌≤◌, ◌<◌, ◌≡◌, List, true, map, length, get_or};
ghost use Rattle.basics.specs.Lists.{over};
ghost use Rattle.table.specs.Library.{row_at, table};
ghost use Rattle.table.specs.Lent.{lent};
ghost use Rattle.sorting.specs.Sorted.{distinct};
ghost use Rattle.sorting.specs.Posts.{mark_id, Indices};
ghost use Rattle.listing.specs.Place.{asked, is_on, container_near};
ghost use Rattle.listing.specs.Ready.{MadeFor};
ghost use Rattle.listing.specs.Listing.{ids_of};
ghost use Rattle.listing.specs.Posts.{end_from, CountedFrom, Counted, Known, Gathered, Marks, AllNear, Walked, Out};

use crate::near::Ready;
use crate::{Filter, Place, SoundLibrary, near};
use basics::Refusal;
use grid::ContainerKey;
use grid_search::GridSearch;
use table::Library;

// How far a walk over the rows came: the row that it looks at next, where the near container ends that was begun (that row,
// where a container starts there), how many containers stand before that end, and how many of the rows before the row count.
#[derive(Clone, Copy)]
pub(crate) struct Reached {
    pub(crate) row: usize,
    pub(crate) end: usize,
    pub(crate) place: usize,
    pub(crate) marked: usize,
}

// How far the rows of a container were looked at: the row that comes next, and how many are marked before it.
#[derive(Clone, Copy)]
pub(crate) struct Marked {
    pub(crate) row: usize,
    pub(crate) marked: usize,
}

// What a walk goes by. How many rows each container has is told by `counts` in their order, where that is at hand.
#[derive(Clone, Copy)]
pub(crate) struct Walk<'a> {
    sheet: GridSearch,
    library: Library<'a>,
    counts: Option<&'a [u64]>,
    filter: Filter,
    ready: Ready,
    ghost known: { Known sheet (lent library) ready.place filter },
}

impl Walk<'_> {
    // Where the rows of the container end whose first row is `first`: by its count, where the counts are at hand, and else by
    // the keys.
    fn container_end(self, place: usize, first: usize) -> usize
        requires in_use { first < self.library.used }
        requires few { place ≤ first }
        requires counted { CountedFrom self.library.keys.now self.library.used self.counts place first }
        ensures { result ≡ end_from self.entry.library.keys.now self.entry.library.used first }
    {
        match self.counts {
            Some(counts) => first + counts[place] as usize,
            None => {
                let keys = self.library.keys;
                first + table::run_of(&keys[first..self.library.used], keys[first])
            }
        }
    }

    // Whether a row counts, where its container is near.
    // Kept: no ghost field of `Walk`: one has to have one proof at most, and `MadeFor` is an `or` where the place is a plane.
    fn row_counts(self, row: usize) -> bool
        requires made { MadeFor self.sheet self.ready }
        requires in_use { row < self.library.used }
        requires near { container_near self.sheet (asked self.sheet.ndim self.ready.place) (get_or self.library.keys.now row 0) ≡ true }
        ensures { result ≡ is_on self.entry.sheet (asked self.entry.sheet.ndim self.entry.ready.place) self.entry.filter (row_at (lent self.entry.library) row) }
    {
        near::point_counts(
            self.sheet,
            self.ready,
            self.filter,
            self.library.row(row).at,
        )
    }

    // Puts the rows of a near container that count behind the marked ones: up to the container's end, or to a row that counts
    // when a single place is left. Each row is written there, and stays where it counts, so that no branch depends on that.
    // Kept: no ghost field of `Walk`: one has to have one proof at most, and `MadeFor` is an `or` where the place is a plane.
    fn mark_rows(self, first: usize, end: usize, marked: usize, marks: &mut [u16]) -> Marked
        requires made { MadeFor self.sheet self.ready }
        requires in_use { (first ≤ end) × (end ≤ self.library.used) }
        requires near { AllNear self.sheet self.ready.place self.library.keys.now first end }
        requires gathered { Gathered self.sheet self.ready.place self.filter (lent self.library) first marked marks.old }
        requires room { marked < length marks.old }
        ensures { Marks self.entry.sheet self.entry.ready.place self.entry.filter (lent self.entry.library) first end marked marks.new result }
    {
        let mut n = marked;
        for row in first..end {
            let counts = self.row_counts(row);
            marks[n] = row as u16;
            let more = n + counts as usize;
            if more == marks.len() {
                return Marked { row, marked: n };
            }
            n = more;
        }
        Marked {
            row: end,
            marked: n,
        }
    }

    // The rows that are looked at next: what is left of the near container that was begun, or the container that starts there.
    // Where that is far none of its rows counts, and it is passed at once.
    // Kept: no ghost field of `Walk`: one has to have one proof at most, and `MadeFor` is an `or` where the place is a plane.
    fn next_rows(self, from: Reached) -> Reached
        requires made { MadeFor self.sheet self.ready }
        requires in_use { from.row < self.library.used }
        requires walked_from { (marks : List ℕ) × Walked self.sheet self.ready.place self.filter (lent self.library) self.counts from marks }
        ensures walked { (marks : List ℕ) → Walked self.entry.sheet self.entry.ready.place self.entry.filter (lent self.entry.library) self.entry.counts from marks
            → Walked self.entry.sheet self.entry.ready.place self.entry.filter (lent self.entry.library) self.entry.counts result marks }
        ensures further { from.row < result.end }
    {
        if from.row < from.end {
            return from;
        }
        let end = self.container_end(from.place, from.row);
        let key = ContainerKey(self.library.keys[from.row]);
        let place = from.place + 1;
        let marked = from.marked;
        if near::container_near(self.sheet, self.ready, key) {
            let row = from.row;
            Reached {
                row,
                end,
                place,
                marked,
            }
        } else {
            Reached {
                row: end,
                end,
                place,
                marked,
            }
        }
    }

    // Goes on over what is left of the container that was begun and over those behind it, and puts their rows that count behind
    // the marked ones: up to the last row, or to one that counts when a single place is left.
    // Kept: no ghost field of `Walk`: one has to have one proof at most, and `MadeFor` is an `or` where the place is a plane.
    fn gather(&self, from: Reached, marks: &mut [u16]) -> Reached
        requires made { MadeFor self.now.sheet self.now.ready }
        requires walked_from { Walked self.now.sheet self.now.ready.place self.now.filter (lent self.now.library) self.now.counts from marks.old }
        ensures walked { Walked self.now.sheet self.now.ready.place self.now.filter (lent self.now.library) self.now.counts result marks.new }
        ensures full { result.row < self.now.library.used → length marks.new ≡ result.marked + 1 }
    {
        // a copy, which the compiler may keep in registers while marks are written
        let walk = *self;
        let mut to = from;
        // Kept: where no room is left the walk stops, and another goes on from `Reached`: an iterator would hide where it stands.
        while to.row < walk.library.used {
            let next = walk.next_rows(to);
            let came = walk.mark_rows(next.row, next.end, next.marked, marks);
            to = Reached {
                row: came.row,
                end: next.end,
                place: next.place,
                marked: came.marked,
            };
            if to.row < to.end {
                return to;
            }
        }
        to
    }

    // Goes on where there was no room for more than the `few` marks: here every row has room. The 128 KiB of its marks are
    // taken where it is called only, which is why the compiler may not merge it into its caller.
    // Kept: no ghost field of `Walk`: one has to have one proof at most, and `MadeFor` is an `or` where the place is a plane.
    #[inline(never)]
    fn list_many(&self, from: Reached, few: &[u16], list: &mut [u64]) -> Result<usize, Refusal>
        requires made { MadeFor self.now.sheet self.now.ready }
        requires walked { Walked self.now.sheet self.now.ready.place self.now.filter (lent self.now.library) self.now.counts from few.now }
        ensures { Out (ids_of (is_on self.now.sheet (asked self.now.sheet.ndim self.now.ready.place) self.now.filter) (table (lent self.now.library))) list.old result list.new }
    {
        let mut marks = [0u16; 65537];
        marks[..from.marked].copy_from_slice(&few[..from.marked]);
        let to = self.gather(from, &mut marks);
        list_marked(&mut marks[..to.marked], self.library.ids, list)
    }

    // The ids of the rows on the place, ascending, once each: how many they are, or 14.
    // Kept: no ghost field of `Walk`: one has to have one proof at most, and `MadeFor` is an `or` where the place is a plane.
    #[inline(always)]
    fn list(&self, list: &mut [u64]) -> Result<usize, Refusal>
        requires made { MadeFor self.now.sheet self.now.ready }
        requires counted { Counted self.now.library.keys.now self.now.library.used self.now.counts }
        ensures { Out (ids_of (is_on self.now.sheet (asked self.now.sheet.ndim self.now.ready.place) self.now.filter) (table (lent self.now.library))) list.old result list.new }
    {
        let start = Reached {
            row: 0,
            end: 0,
            place: 0,
            marked: 0,
        };
        let mut few = [0u16; 1025];
        let to = self.gather(start, &mut few);
        if to.row < self.library.used {
            return self.list_many(to, &few, list);
        }
        list_marked(&mut few[..to.marked], self.library.ids, list)
    }
}

// Writes the ids of the marks to the front of the list.
fn write_ids(marks: &[u16], ids: &[u64], list: &mut [u64])
    requires room { length marks.now ≤ length list.old }
    requires indices { Indices (length ids.now) (length marks.now) marks.now }
    ensures { list.new ≡ over (map (mark_id ids.now) marks.now) list.old }
{
    for (i, &mark) in marks.iter().enumerate() {
        list[i] = ids[mark as usize];
    }
}

// Writes the ids of the marks to the front of the list, ascending and once each: how many they are, or 14.
fn list_marked(marks: &mut [u16], ids: &[u64], list: &mut [u64]) -> Result<usize, Refusal>
    requires { Indices (length ids.now) (length marks.old) marks.old }
    ensures { Out (distinct (map (mark_id ids.now) marks.old)) list.old result list.new }
{
    let m = sorting::select_by(marks, ids);
    if list.len() < m {
        return Err(Refusal::Short);
    }
    write_ids(&marks[..m], ids, list);
    Ok(m)
}

// The ids of the rows on a place, ascending, once each: how many they are, or 14.
// Kept: what a listing is asked with, in the order of the request: a struct of some of it would be taken apart at once.
#[inline(always)]
pub(crate) fn list_on(
    of: SoundLibrary,
    place: Place,
    filter: Filter,
    list: &mut [u64],
) -> Result<usize, Refusal>
    requires { Known of.sheet (lent of.library) place filter }
    ensures { Out (ids_of (is_on of.entry.sheet (asked of.entry.sheet.ndim place) filter) (table (lent of.entry.library)))
        list.old result list.new }
{
    let walk = Walk {
        sheet: of.sheet,
        library: of.library,
        counts: of.counts,
        filter,
        ready: near::made_ready(of.sheet, place),
    };
    walk.list(list)
}
