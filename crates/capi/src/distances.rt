// The four distances.
ghost use Rattle.geometry.specs.Distances.{measured, point_point_answer, point_line_answer, point_circle_answer, point_cylinder_answer};
ghost use Rattle.capi.specs.Answers.{Told};

use basics::Refusal;

// Writes a distance and gives 0, or gives the refusal's number and writes nothing.
fn told(answer: Result<f64, Refusal>, distance: &mut f64) -> u64
    ensures { Told (measured answer) result distance.old distance.new }
{
    match answer {
        Ok(d) => {
            *distance = d;
            0
        }
        Err(refusal) => u64::from(refusal),
    }
}

// Writes the distance between two positions. Returns 0, or the refusal 1, 2 or 3, and then writes nothing.
pub fn gemlab_point_point_distance(a: &[f64], b: &[f64], distance: &mut f64) -> u64
    ensures { Told (point_point_answer a.now b.now) result distance.old distance.new }
{
    told(geometry::point_point_distance(a, b), distance)
}

// Writes the distance of c to the line through a and b. Returns 0, or the refusal 1, 2, 3 or 15, and then writes nothing.
pub fn gemlab_point_line_distance(a: &[f64], b: &[f64], c: &[f64], distance: &mut f64) -> u64
    ensures { Told (point_line_answer a.now b.now c.now) result distance.old distance.new }
{
    told(geometry::point_line_distance(a, b, c), distance)
}

// Writes the signed distance of p to a circle, negative inside. Returns 0, or the refusal 1, 16, 2 or 3, and then writes
// nothing.
// Kept: a function of its own for each of C's names, in the order of its parameters.
pub fn gemlab_point_circle_distance(
    center: &[f64],
    radius: f64,
    p: &[f64],
    distance: &mut f64,
) -> u64
    ensures { Told (point_circle_answer center.now radius p.now) result distance.old distance.new }
{
    told(geometry::point_circle_distance(center, radius, p), distance)
}

// Writes the signed distance of p to a cylinder, negative inside. Returns 0, or the refusal 1, 16, 2, 3 or 15, and then
// writes nothing.
pub fn gemlab_point_cylinder_distance(
    a: &[f64],
    b: &[f64],
    radius: f64,
    p: &[f64],
    distance: &mut f64,
) -> u64
    ensures { Told (point_cylinder_answer a.now b.now radius p.now) result distance.old distance.new }
{
    told(geometry::point_cylinder_distance(a, b, radius, p), distance)
}
