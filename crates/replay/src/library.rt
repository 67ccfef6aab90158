// Sheets, insertions, strikings, searches, listings and tables, and checks with an entry changed meanwhile.
use crate::answers::{Answers, List, Stored, outcome, zeros};
use crate::distances;
use crate::kinds::{Kind, UnknownKind};
use std::mem;

const ROWS: usize = 512;

// What a result holds before a call that may write it: no row has that number.
const BEFORE: u64 = 9999;

// A sheet and its rows, as the C interface takes them.
#[derive(Drop)]
pub struct Library {
    numbers: [u64; 8],
    floats: [f64; 17],
    keys: [u64; ROWS],
    ids: [u64; ROWS],
    xs: [f64; ROWS],
    ys: [f64; ROWS],
    zs: [f64; ROWS],
    used: u64,
}

// A value to put into one of the lists.
#[derive(Clone, Copy)]
enum Change {
    Key(u64),
    Id(u64),
    X(f64),
    Y(f64),
    Z(f64),
}

impl Change {
    // The lists have the numbers 0 to 4; 5 is none.
    fn of(list: u64, value: &[u8; 8]) -> Option<Change> {
        match list {
            0 => Some(Change::Key(Stored::from_bytes(value))),
            1 => Some(Change::Id(Stored::from_bytes(value))),
            2 => Some(Change::X(Stored::from_bytes(value))),
            3 => Some(Change::Y(Stored::from_bytes(value))),
            4 => Some(Change::Z(Stored::from_bytes(value))),
            _ => None,
        }
    }
}

// Exchanges a value for an entry of a list, if the list has the entry.
fn exchange<T>(entry: Option<&mut T>, value: &mut T) {
    if let Some(entry) = entry {
        mem::swap(entry, value);
    }
}

impl Library {
    pub fn new() -> Library {
        Library {
            numbers: [0; 8],
            floats: [0.0; 17],
            // no zeros: a striking has to write them
            keys: [9; ROWS],
            ids: [9; ROWS],
            xs: [-12345.5; ROWS],
            ys: [-12345.5; ROWS],
            zs: [-12345.5; ROWS],
            used: 0,
        }
    }

    // One entry of the file: whether it agrees. One that is of no kind, or of a mesh's, is read as a distance; 0 ends the file.
    pub fn entry(
        &mut self,
        kind: Result<Kind, UnknownKind>,
        answers: &mut Answers,
    ) -> Option<bool> {
        Some(match kind {
            Ok(Kind::Sheet) => self.sheet(answers),
            Ok(Kind::Insertion) => self.insertion(answers),
            Ok(Kind::Search) => self.search(answers),
            Ok(Kind::Listing) => self.listing(answers),
            Ok(Kind::Table) => self.table(answers),
            Ok(Kind::Striking) => self.striking(answers),
            Ok(Kind::Check) => self.check(answers),
            Err(UnknownKind(0)) => return None,
            _ => distances::agrees(answers),
        })
    }

    // A new sheet, which empties the library.
    fn sheet(&mut self, answers: &mut Answers) -> bool {
        self.used = 0;
        let low: List<f64, 4> = answers.list();
        let high: List<f64, 4> = answers.list();
        let ndiv = answers.setting::<u64>();
        let tolerance = answers.setting::<f64>();
        let border = answers.setting::<f64>();
        let given = outcome(capi::gemlab_grid_search_new(
            low.as_slice(),
            high.as_slice(),
            ndiv.flag,
            ndiv.value,
            tolerance.flag,
            tolerance.value,
            border.flag,
            border.value,
            &mut self.numbers,
            &mut self.floats,
        ));
        let stored = answers.outcome();
        if stored.is_err() {
            return given == stored;
        }
        let same_numbers = answers.same(&self.numbers, 8);
        let same_floats = answers.same(&self.floats, 17);
        given.is_ok() && same_numbers && same_floats
    }

    fn insertion(&mut self, answers: &mut Answers) -> bool {
        let id: u64 = answers.read();
        let x: List<f64, 4> = answers.list();
        let given = outcome(capi::gemlab_grid_search_insert(
            &self.numbers,
            &self.floats,
            &mut self.keys,
            &mut self.ids,
            &mut self.xs,
            &mut self.ys,
            &mut self.zs,
            &mut self.used,
            id,
            x.as_slice(),
        ));
        let stored = answers.outcome();
        let rows: u64 = answers.read();
        given == stored && self.used == rows
    }

    // The rows in use are compared where a table comes next, and the entries past them here.
    fn striking(&mut self, answers: &mut Answers) -> bool {
        let id: u64 = answers.read();
        let mut removed = BEFORE;
        let given = outcome(capi::gemlab_grid_search_strike(
            &self.numbers,
            &self.floats,
            &mut self.keys,
            &mut self.ids,
            &mut self.xs,
            &mut self.ys,
            &mut self.zs,
            &mut self.used,
            id,
            &mut removed,
        ));
        let stored = answers.outcome();
        let rows: u64 = answers.read();
        if stored.is_err() {
            return given == stored && self.used == rows && removed == BEFORE;
        }
        let went: u64 = answers.read();
        given.is_ok() && self.used == rows && removed == went && self.is_cleared()
    }

    // Whether nothing but zeros stands past the rows in use.
    fn is_cleared(&self) -> bool {
        let used = self.used as usize;
        zeros(&self.keys, used)
            && zeros(&self.ids, used)
            && zeros(&self.xs, used)
            && zeros(&self.ys, used)
            && zeros(&self.zs, used)
    }

    fn search(&self, answers: &mut Answers) -> bool {
        let x: List<f64, 4> = answers.list();
        // Kept: the C interface answers by a flag and a value, and each is compared.
        let mut found = BEFORE;
        let mut id = 0;
        let given = outcome(capi::gemlab_grid_search_search(
            &self.numbers,
            &self.floats,
            &self.keys,
            &self.ids,
            &self.xs,
            &self.ys,
            &self.zs,
            self.used,
            x.as_slice(),
            &mut found,
            &mut id,
        ));
        let stored = answers.outcome();
        if stored.is_err() {
            return given == stored && found == BEFORE;
        }
        let count: u64 = answers.read();
        if count == 0 {
            return given.is_ok() && found == 0;
        }
        // the first is the one to name; gemlab may give the others too
        let chosen: u64 = answers.read();
        let another = answers.any(count - 1, |others| others.read::<u64>() == id);
        given.is_ok() && found == 1 && id == chosen && !another
    }

    fn listing(&self, answers: &mut Answers) -> bool {
        // Kept: the C interface takes places, filters and axes by their numbers, as the file has them.
        let place: u64 = answers.read();
        let a: List<f64, 4> = answers.list();
        let b: List<f64, 4> = answers.list();
        let number: f64 = answers.read();
        let filter: u64 = answers.read();
        let axis: u64 = answers.read();
        let low: f64 = answers.read();
        let high: f64 = answers.read();
        let mut list = [0; 64];
        let mut count = 0;
        let given = outcome(capi::gemlab_grid_search_list(
            &self.numbers,
            &self.floats,
            &self.keys,
            &self.ids,
            &self.xs,
            &self.ys,
            &self.zs,
            self.used,
            place,
            a.as_slice(),
            b.as_slice(),
            number,
            filter,
            axis,
            low,
            high,
            &mut list,
            &mut count,
        ));
        let stored = answers.outcome();
        if stored.is_err() {
            return given == stored;
        }
        let n: u64 = answers.read();
        let same = answers.same(&list, n);
        given.is_ok() && count == n && same
    }

    // The rows in use, column by column.
    fn table(&self, answers: &mut Answers) -> bool {
        let n: u64 = answers.read();
        let same_keys = answers.same(&self.keys, n);
        let same_ids = answers.same(&self.ids, n);
        let same_xs = answers.same(&self.xs, n);
        let same_ys = answers.same(&self.ys, n);
        let same_zs = answers.same(&self.zs, n);
        self.used == n && same_keys && same_ids && same_xs && same_ys && same_zs
    }

    // A check with an entry of the library changed, which is put back.
    fn check(&mut self, answers: &mut Answers) -> bool {
        let list: u64 = answers.read();
        let at = answers.read::<u64>() as usize;
        let mut change = Change::of(list, &answers.bytes());
        self.exchange(at, &mut change);
        let agrees = self.told(answers);
        self.exchange(at, &mut change);
        agrees
    }

    fn exchange(&mut self, at: usize, change: &mut Option<Change>) {
        match change {
            Some(Change::Key(key)) => exchange(self.keys.get_mut(at), key),
            Some(Change::Id(id)) => exchange(self.ids.get_mut(at), id),
            Some(Change::X(x)) => exchange(self.xs.get_mut(at), x),
            Some(Change::Y(y)) => exchange(self.ys.get_mut(at), y),
            Some(Change::Z(z)) => exchange(self.zs.get_mut(at), z),
            None => {}
        }
    }

    // Whether the call tells of the library what the file has.
    fn told(&self, answers: &mut Answers) -> bool {
        // Kept: the C interface answers by a flag and a value, and each is compared.
        let mut broken = BEFORE;
        let mut row = BEFORE;
        let mut visited = BEFORE;
        let given = outcome(capi::gemlab_grid_search_check(
            &self.numbers,
            &self.floats,
            &self.keys,
            &self.ids,
            &self.xs,
            &self.ys,
            &self.zs,
            self.used,
            &mut broken,
            &mut row,
            &mut visited,
        ));
        let stored = answers.outcome();
        if stored.is_err() {
            return given == stored && broken == BEFORE && row == BEFORE && visited == BEFORE;
        }
        let bad: u64 = answers.read();
        let lowest: u64 = answers.read();
        let walked: u64 = answers.read();
        let lowest = if bad == 0 { BEFORE } else { lowest };
        given.is_ok() && broken == bad && row == lowest && visited == walked
    }
}
