// Distances.
ghost use Rattle.replay.specs.Figures.{Decodes};

use crate::answers::{Answers, Compared, List, outcome};

// What a result holds before a call that may write it.
const BEFORE: f64 = -12345.5;

// What the distance of a point is to.
#[derive(Clone, Copy)]
enum Figure {
    Point,
    Line,
    Circle,
    Cylinder,
}

// A number that is no figure's.
#[derive(Clone, Copy)]
struct UnknownFigure(u64);

// By the numbers of docs/STORED.md.
impl TryFrom<u64> for Figure {
    type Error = UnknownFigure;

    ghost try_from_gives = { Decodes };

    fn try_from(number: u64) -> Result<Figure, UnknownFigure> {
        match number {
            0 => Ok(Figure::Point),
            1 => Ok(Figure::Line),
            2 => Ok(Figure::Circle),
            3 => Ok(Figure::Cylinder),
            _ => Err(UnknownFigure(number)),
        }
    }
}

// Whether a stored distance is what the call gives. A number that is no figure's is read as a cylinder's.
pub fn agrees(answers: &mut Answers) -> bool {
    let figure = Figure::try_from(answers.read::<u64>()).unwrap_or(Figure::Cylinder);
    let a: List<f64, 4> = answers.list();
    let b: List<f64, 4> = answers.list();
    let c: List<f64, 4> = answers.list();
    let radius: f64 = answers.read();
    let a = a.as_slice();
    let b = b.as_slice();
    let c = c.as_slice();
    let mut distance = BEFORE;
    let given = outcome(match figure {
        Figure::Point => capi::gemlab_point_point_distance(a, b, &mut distance),
        Figure::Line => capi::gemlab_point_line_distance(a, b, c, &mut distance),
        Figure::Circle => capi::gemlab_point_circle_distance(a, radius, b, &mut distance),
        Figure::Cylinder => capi::gemlab_point_cylinder_distance(a, b, radius, c, &mut distance),
    });
    let stored = answers.outcome();
    let value = match stored {
        Ok(()) => answers.read(),
        Err(_) => BEFORE,
    };
    given == stored && distance.same(value)
}
