// Cell builds and cell searches.
use crate::answers::{Answers, Compared, List, outcome};
use crate::kinds::{Kind, UnknownKind};

const ROWS: usize = 512;

// What a result holds before a call that may write it.
const BEFORE: f64 = -12345.5;

// A mesh, as the C interface takes it.
#[derive(Drop)]
struct Mesh {
    ndim: u64,
    coords: List<f64, 128>,
    corners: List<u32, 256>,
}

// The mesh that was read last, if there was one, and the index of its cells, as the C interface takes it.
#[derive(Drop)]
pub struct Cells {
    mesh: Option<Mesh>,
    keys: [u64; ROWS],
    cells: [u64; ROWS],
    large: [u64; 64],
    numbers: [u64; 6],
    floats: [f64; 7],
}

impl Cells {
    pub fn new() -> Cells {
        Cells::of(None)
    }

    // A mesh, with no index yet.
    fn of(mesh: Option<Mesh>) -> Cells {
        Cells {
            mesh,
            keys: [0; ROWS],
            cells: [0; ROWS],
            large: [0; 64],
            numbers: [0; 6],
            floats: [0.0; 7],
        }
    }

    // One entry of the file: whether it agrees. After a mesh, one of a number above the kinds of a mesh's entries is read as a
    // search; a lower one ends the file, and so does any before the first mesh.
    pub fn entry(
        &mut self,
        kind: Result<Kind, UnknownKind>,
        answers: &mut Answers,
    ) -> Option<bool> {
        match kind {
            Ok(Kind::Mesh) => {
                *self = Cells::of(Some(Mesh {
                    ndim: answers.read(),
                    coords: answers.list(),
                    corners: answers.list(),
                }));
                Some(true)
            }
            Ok(Kind::CellBuild) => self.build(answers),
            Ok(Kind::CellSearch | Kind::Striking | Kind::Check) => self.search(answers),
            Ok(_) | Err(UnknownKind(0)) => None,
            Err(_) => self.search(answers),
        }
    }

    fn build(&mut self, answers: &mut Answers) -> Option<bool> {
        let mesh = self.mesh.as_ref()?;
        let tolerance = answers.setting::<f64>();
        let border = answers.setting::<f64>();
        let cutoff = answers.setting::<f64>();
        let percentage = answers.setting::<f64>();
        let given = outcome(capi::gemlab_grid_cells_new(
            mesh.ndim,
            mesh.coords.as_slice(),
            mesh.corners.as_slice(),
            tolerance.flag,
            tolerance.value,
            border.flag,
            border.value,
            cutoff.flag,
            cutoff.value,
            percentage.flag,
            percentage.value,
            &mut self.keys,
            &mut self.cells,
            &mut self.large,
            &mut self.numbers,
            &mut self.floats,
        ));
        let stored = answers.outcome();
        if stored.is_err() {
            return Some(given == stored);
        }
        let rows: u64 = answers.read();
        let many: u64 = answers.read();
        let same_numbers = answers.same(&self.numbers, 6);
        let same_floats = answers.same(&self.floats, 7);
        let same_keys = answers.same(&self.keys, rows);
        let same_cells = answers.same(&self.cells, rows);
        let same_large = answers.same(&self.large, many);
        Some(given.is_ok() && same_numbers && same_floats && same_keys && same_cells && same_large)
    }

    fn search(&self, answers: &mut Answers) -> Option<bool> {
        let mesh = self.mesh.as_ref()?;
        let x: List<f64, 4> = answers.list();
        let x = x.as_slice();
        let mut zeta = [BEFORE; 4];
        // Kept: the C interface answers by a flag and a value, and each is compared.
        let mut found = 7;
        let mut cell = 0;
        let given = outcome(capi::gemlab_grid_cells_search(
            &self.numbers,
            &self.floats,
            mesh.coords.as_slice(),
            mesh.corners.as_slice(),
            &self.keys,
            &self.cells,
            &self.large,
            x,
            &mut zeta,
            &mut found,
            &mut cell,
        ));
        let stored = answers.outcome();
        if stored.is_err() {
            return Some(given == stored && found == 7);
        }
        let count: u64 = answers.read();
        if count == 0 {
            return Some(given.is_ok() && found == 0 && zeta[0].same(BEFORE));
        }
        let size = x.len() as u64 + 1;
        let possible = answers.any(count, |given| {
            let next: u64 = given.read();
            let same = given.same(&zeta, size);
            next == cell && same
        });
        Some(given.is_ok() && found == 1 && possible)
    }
}
