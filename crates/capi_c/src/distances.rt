// The four distances.
ghost use Rattle.geometry.specs.Distances.{point_point_answer, point_line_answer, point_circle_answer, point_cylinder_answer};
ghost use Rattle.capi.specs.Answers.{Told};

#[unsafe(no_mangle)]
pub extern "C" fn gemlab_point_point_distance(a: &[f64], b: &[f64], distance: &mut f64) -> u64
    ensures { Told (point_point_answer a.now b.now) result distance.old distance.new }
{
    capi::gemlab_point_point_distance(a, b, distance)
}

#[unsafe(no_mangle)]
pub extern "C" fn gemlab_point_line_distance(
    a: &[f64],
    b: &[f64],
    c: &[f64],
    distance: &mut f64,
) -> u64
    ensures { Told (point_line_answer a.now b.now c.now) result distance.old distance.new }
{
    capi::gemlab_point_line_distance(a, b, c, distance)
}

#[unsafe(no_mangle)]
pub extern "C" fn gemlab_point_circle_distance(
    center: &[f64],
    radius: f64,
    p: &[f64],
    distance: &mut f64,
) -> u64
    ensures { Told (point_circle_answer center.now radius p.now) result distance.old distance.new }
{
    capi::gemlab_point_circle_distance(center, radius, p, distance)
}

#[unsafe(no_mangle)]
pub extern "C" fn gemlab_point_cylinder_distance(
    a: &[f64],
    b: &[f64],
    radius: f64,
    p: &[f64],
    distance: &mut f64,
) -> u64
    ensures { Told (point_cylinder_answer a.now b.now radius p.now) result distance.old distance.new }
{
    capi::gemlab_point_cylinder_distance(a, b, radius, p, distance)
}
