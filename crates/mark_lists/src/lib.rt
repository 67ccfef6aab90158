// Marks in lent lists: four slices of one length, a mark being an entry of each. A mark is of the type of a record of the files.
#![tactic(auto)]

ghost use Rattle.std.specs.Prelude.{◌≡◌, ◌+◌};
ghost use Rattle.basics.specs.Refusals.{fault};
ghost use Rattle.basics.specs.Answers.{fault_in};
ghost use Rattle.mark_lists.specs.MarkLists.{mark_at, mark_lengths, too_many, same_lengths};
ghost use Rattle.mark_lists.specs.Posts.{lists_tests, Room, pushed};
ghost use Rattle.mark_lists.specs.Lent.{lent, lent_mut, SameLists};

use basics::Refusal;
use records::Record;

// The most entries that a lent list of marks may have: marks count as rows.
const MAX_MARKS: usize = 65536;

// Marks that are lent to be read.
// Kept: the C interface lends each list by itself (include/gemlab.h).
#[derive(Clone, Copy)]
pub struct MarkLists<'a> {
    pub ids: &'a [u64],
    pub xs: &'a [f64],
    pub ys: &'a [f64],
    pub zs: &'a [f64],
    pub used: usize,
}

// Marks whose used count is in their lists.
#[derive(Clone, Copy)]
pub struct SoundMarks<'a> {
    pub lists: MarkLists<'a>,
    pub ghost room: { Room (lent lists) lists.used },
}

impl MarkLists<'_> {
    // How many entries each list has.
    fn lengths(self) -> [usize; 4]
        ensures { result ≡ mark_lengths (lent self.entry) }
    {
        [self.ids.len(), self.xs.len(), self.ys.len(), self.zs.len()]
    }

    #[tactic(auto, unfolding(crate::specs::MarkLists::too_many, basics::specs::Lists::any))]
    fn are_too_long(self) -> bool
        ensures { result ≡ too_many (lent self.entry) }
    {
        self.lengths().iter().any(|n| MAX_MARKS < *n)
    }

    #[tactic(auto, unfolding(crate::specs::MarkLists::same_lengths, table::specs::Library::level, basics::specs::Lists::all))]
    fn are_level(self) -> bool
        ensures { result ≡ same_lengths (lent self.entry) }
    {
        let n = self.ids.len();
        self.lengths()[1..].iter().all(|m| *m == n)
    }

    // What turns the lists away: 24 or 13.
    #[tactic(auto, unfolding(crate::specs::Posts::lists_tests, basics::specs::Refusals::fault))]
    pub fn fault(self) -> Result<(), Refusal>
        ensures { fault_in result ≡ fault (lists_tests (lent self.entry)) }
    {
        if self.are_too_long() {
            return Err(Refusal::TooLong);
        }
        if !self.are_level() {
            return Err(Refusal::Damaged);
        }
        Ok(())
    }

    // The mark at an index.
    pub fn mark(self, i: usize) -> Record
        requires { Room (lent self) (i + 1) }
        ensures { result ≡ mark_at (lent self.entry) i }
    {
        Record {
            id: self.ids[i],
            x: self.xs[i],
            y: self.ys[i],
            z: self.zs[i],
        }
    }
}

// Marks that are lent to be changed.
#[derive(Drop)]
pub struct MarkListsMut<'a> {
    pub ids: &'a mut [u64],
    pub xs: &'a mut [f64],
    pub ys: &'a mut [f64],
    pub zs: &'a mut [f64],
    pub used: usize,
}

impl MarkListsMut<'_> {
    // The same marks, to be read.
    pub fn as_lists(&self) -> MarkLists<'_>
        ensures { lent result ≡ lent_mut self.now }
    {
        MarkLists {
            ids: self.ids,
            xs: self.xs,
            ys: self.ys,
            zs: self.zs,
            used: self.used,
        }
    }

    // Puts a mark behind those in use.
    pub fn push(&mut self, mark: Record)
        requires { Room (lent_mut self.old) (self.old.used + 1) }
        ensures pushes { lent_mut self.new ≡ pushed mark (lent_mut self.old) }
        ensures same_lists { SameLists self.old self.new }
    {
        self.ids[self.used] = mark.id;
        self.xs[self.used] = mark.x;
        self.ys[self.used] = mark.y;
        self.zs[self.used] = mark.z;
        self.used += 1;
    }
}
