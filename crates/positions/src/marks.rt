// Sheet S and marks on it.
use crate::printing::{Numbers, Refused, outcome, tell, tell_made};
use std::fmt;

const TOLERANCE: f64 = 1.0 / 512.0;

// A coordinate just below 3.
const BELOW_3: f64 = 3.0 - 9.0 / 4096.0;

// A sheet as C holds it.
#[derive(Drop)]
struct Sheet {
    numbers: [u64; 8],
    floats: [f64; 17],
}

impl Sheet {
    // S: corners (0, 0) and (8, 4), border 0.
    fn new(ndiv: u64, tolerance: f64) -> Result<Self, Refused> {
        let mut sheet = Sheet {
            numbers: [0; 8],
            floats: [0.0; 17],
        };
        let number = capi::gemlab_grid_search_new(
            &[0.0, 0.0],
            &[8.0, 4.0],
            1,
            ndiv,
            1,
            tolerance,
            1,
            0.0,
            &mut sheet.numbers,
            &mut sheet.floats,
        );
        outcome(number)?;
        Ok(sheet)
    }
}

// What a search answers.
#[derive(Clone, Copy)]
struct Found(Option<u64>);

impl fmt::Display for Found {
    fn fmt<W: fmt::Write>(&self, f: &mut fmt::Formatter<W>) -> fmt::Result {
        match self.0 {
            Some(id) => write!(f, "finds {id}"),
            None => write!(f, "nothing"),
        }
    }
}

// A library with room for N rows.
// Kept: no heap, so arrays with a count; C lends each by itself.
#[derive(Drop)]
struct Library<const N: usize> {
    keys: [u64; N],
    ids: [u64; N],
    xs: [f64; N],
    ys: [f64; N],
    zs: [f64; N],
    used: u64,
}

impl<const N: usize> Library<N> {
    fn new() -> Self {
        Library {
            keys: [0; N],
            ids: [0; N],
            xs: [0.0; N],
            ys: [0.0; N],
            zs: [0.0; N],
            used: 0,
        }
    }

    fn insert(&mut self, s: &Sheet, id: u64, x: f64, y: f64) -> Result<(), Refused> {
        outcome(capi::gemlab_grid_search_insert(
            &s.numbers,
            &s.floats,
            &mut self.keys,
            &mut self.ids,
            &mut self.xs,
            &mut self.ys,
            &mut self.zs,
            &mut self.used,
            id,
            &[x, y],
        ))
    }

    // The keys of the rows in use.
    fn keys(&self) -> Numbers<'_> {
        Numbers::first("keys", &self.keys, self.used)
    }

    fn search(&self, s: &Sheet, x: f64, y: f64) -> Result<Found, Refused> {
        let mut found = 0;
        let mut id = 0;
        let number = capi::gemlab_grid_search_search(
            &s.numbers,
            &s.floats,
            &self.keys,
            &self.ids,
            &self.xs,
            &self.ys,
            &self.zs,
            self.used,
            &[x, y],
            &mut found,
            &mut id,
        );
        outcome(number)?;
        Ok(Found((found == 1).then_some(id)))
    }

    // The ids on the line from (x0, y) to (x1, y), into a list.
    fn line<'a>(
        &self,
        s: &Sheet,
        x0: f64,
        x1: f64,
        y: f64,
        list: &'a mut [u64; 8],
    ) -> Result<Numbers<'a>, Refused> {
        let mut count = 0;
        let number = capi::gemlab_grid_search_list(
            &s.numbers,
            &s.floats,
            &self.keys,
            &self.ids,
            &self.xs,
            &self.ys,
            &self.zs,
            self.used,
            0,
            &[x0, y],
            &[x1, y],
            0.0,
            0,
            0,
            0.0,
            0.0,
            list,
            &mut count,
        );
        outcome(number)?;
        Ok(Numbers::first("ids", list, count))
    }
}

// Puts a mark into a library and tells the keys of its rows.
// Kept: what is tried is told beside its coordinates, as document 01 lists it; a struct would be made for each line of it.
fn insertion<const N: usize>(
    rt: &impl Print,
    tried: &str,
    library: &mut Library<N>,
    s: &Sheet,
    id: u64,
    x: f64,
    y: f64,
) {
    let inserted = library.insert(s, id, x, y);
    tell(rt, tried, inserted.map(|()| library.keys()));
}

// A mark alone.
fn mark(rt: &impl Print, tried: &str, s: &Sheet, x: f64, y: f64) {
    insertion(rt, tried, &mut Library::<8>::new(), s, 1, x, y);
}

// Id 7 at (2, 1), also with three free rows, then at (5.5, 2.5).
fn seven(rt: &impl Print, s: &Sheet) {
    let mut library = Library::<8>::new();
    insertion(
        rt,
        "7 at (2, 1) into empty rows",
        &mut library,
        s,
        7,
        2.0,
        1.0,
    );
    insertion(
        rt,
        "7 at (2, 1) with 3 free rows",
        &mut Library::<3>::new(),
        s,
        7,
        2.0,
        1.0,
    );
    tell(rt, "(2, 1)", library.search(s, 2.0, 1.0));
    insertion(rt, "7 at (5.5, 2.5)", &mut library, s, 7, 5.5, 2.5);
    tell(rt, "(2, 1)", library.search(s, 2.0, 1.0));
}

// Id 8 alone.
fn eight(rt: &impl Print, s: &Sheet) {
    let mut library = Library::<8>::new();
    let tried = "8 alone at (3 - 9/4096, 0.5)";
    insertion(rt, tried, &mut library, s, 8, BELOW_3, 0.5);
    tell(rt, "(3, 0.5)", library.search(s, 3.0, 0.5));
}

fn line<const N: usize>(
    rt: &impl Print,
    tried: &str,
    library: &Library<N>,
    s: &Sheet,
    x0: f64,
    x1: f64,
    y: f64,
) {
    let mut list = [0; 8];
    tell(rt, tried, library.line(s, x0, x1, y, &mut list));
}

// Lines whose ends are close, without rows, and with the one row of id 8.
fn close_ends(rt: &impl Print, s: &Sheet) {
    let mut library = Library::<8>::new();
    let tried = "line from (1, 1) to (1, 1) without rows";
    line(rt, tried, &library, s, 1.0, 1.0, 1.0);
    let _ = library.insert(s, 8, BELOW_3, 0.5);
    let tried = "line from (1, 1) to (1, 1) with one row";
    line(rt, tried, &library, s, 1.0, 1.0, 1.0);
    let tried = "line from (1, 0.5) to (1 + 2^-26, 0.5) with one row";
    line(rt, tried, &library, s, 1.0, 1.0 + 1.0 / 67108864.0, 0.5);
    let tried = "line from (1, 0.5) to (1 + 2^-25, 0.5) with one row";
    line(rt, tried, &library, s, 1.0, 1.0 + 1.0 / 33554432.0, 0.5);
}

pub fn marks(rt: &impl Print) {
    let s = match Sheet::new(8, TOLERANCE) {
        Ok(s) => s,
        Err(refused) => {
            let _ = println!(rt; "S: {refused}");
            return;
        }
    };
    mark(rt, "mark at (0, 0)", &s, 0.0, 0.0);
    mark(rt, "mark at (3.5, 2.5)", &s, 3.5, 2.5);
    mark(rt, "mark at (8, 4)", &s, 8.0, 4.0);
    let above = 8.0 + 1.0 / 562949953421312.0;
    mark(rt, "mark at (next float above 8, 4)", &s, above, 4.0);
    seven(rt, &s);
    eight(rt, &s);
}

pub fn sheets(rt: &impl Print) {
    tell_made(rt, "S with tolerance 0.5", Sheet::new(8, 0.5));
    tell_made(rt, "S with tolerance 0.4375", Sheet::new(8, 0.4375));
    tell_made(rt, "S with divisions 1", Sheet::new(1, TOLERANCE));
    tell_made(rt, "S with divisions 2", Sheet::new(2, TOLERANCE));
}

pub fn lines(rt: &impl Print) {
    match Sheet::new(8, TOLERANCE) {
        Ok(s) => close_ends(rt, &s),
        Err(refused) => {
            let _ = println!(rt; "S: {refused}");
        }
    }
}
