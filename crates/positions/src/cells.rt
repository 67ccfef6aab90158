// The index of one triangle, and positions in it.
use crate::printing::{Exact, Refused, outcome, tell, tell_made};
use std::fmt;

const CORNERS: [u32; 3] = [0, 1, 2];

// The index of one triangle as C holds it.
#[derive(Drop)]
struct Index {
    keys: [u64; 4],
    cells: [u64; 4],
    large: [u64; 1],
    numbers: [u64; 6],
    floats: [f64; 7],
}

// The coordinates of a position that a triangle holds.
#[derive(Clone, Copy)]
struct Inside(Option<[f64; 3]>);

impl fmt::Display for Inside {
    fn fmt<W: fmt::Write>(&self, f: &mut fmt::Formatter<W>) -> fmt::Result {
        match self.0 {
            Some(zeta) => {
                let [z0, z1, z2] = zeta;
                write!(f, "inside, {} {} {}", Exact(z0), Exact(z1), Exact(z2))
            }
            None => write!(f, "outside"),
        }
    }
}

impl Index {
    // All settings but the percentage are left out.
    fn new(coords: &[f64; 6], percentage: Option<f64>) -> Result<Self, Refused> {
        let mut index = Index {
            keys: [0; 4],
            cells: [0; 4],
            large: [0; 1],
            numbers: [0; 6],
            floats: [0.0; 7],
        };
        let number = capi::gemlab_grid_cells_new(
            2,
            coords,
            &CORNERS,
            0,
            0.0,
            0,
            0.0,
            0,
            0.0,
            u64::from(percentage.is_some()),
            percentage.unwrap_or(0.0),
            &mut index.keys,
            &mut index.cells,
            &mut index.large,
            &mut index.numbers,
            &mut index.floats,
        );
        outcome(number)?;
        Ok(index)
    }

    fn search(&self, coords: &[f64; 6], x: f64, y: f64) -> Result<Inside, Refused> {
        let mut zeta = [0.0; 4];
        let mut found = 0;
        let mut cell = 0;
        let number = capi::gemlab_grid_cells_search(
            &self.numbers,
            &self.floats,
            coords,
            &CORNERS,
            &self.keys,
            &self.cells,
            &self.large,
            &[x, y],
            &mut zeta,
            &mut found,
            &mut cell,
        );
        outcome(number)?;
        let [z0, z1, z2, _] = zeta;
        Ok(Inside((found == 1).then_some([z0, z1, z2])))
    }
}

// A position in a triangle.
fn placed(coords: &[f64; 6], x: f64, y: f64) -> Result<Inside, Refused> {
    let index = Index::new(coords, None)?;
    index.search(coords, x, y)
}

pub fn triangles(rt: &impl Print) {
    let right = [0.0, 0.0, 4.0, 0.0, 0.0, 4.0];
    let tried = "triangle (0, 0), (4, 0), (0, 4), (1, 1)";
    tell(rt, tried, placed(&right, 1.0, 1.0));
    let tried = "triangle (0, 0), (4, 0), (0, 4), (2, 2)";
    tell(rt, tried, placed(&right, 2.0, 2.0));
    let tried = "triangle (0, 0), (4, 0), (0, 4), (3, 3)";
    tell(rt, tried, placed(&right, 3.0, 3.0));
    let flat = [0.0, 0.0, 1.0, 0.0, 2.0, 0.0];
    let tried = "triangle (0, 0), (1, 0), (2, 0), (1, 0)";
    tell(rt, tried, placed(&flat, 1.0, 0.0));
    tell_made(
        rt,
        "one triangle, percentage 1",
        Index::new(&right, Some(1.0)),
    );
    tell_made(
        rt,
        "one triangle, default percentage",
        Index::new(&right, None),
    );
}
