// Document 01's 'Positions tried' through the public functions: a line for each, in the document's order; then root,
// truncation and rounding up at their edges. What it has to write is made by gemlab (compare/stored/positions.rs).
#![tactic(auto)]

mod cells;
mod marks;
mod printing;

use printing::{Exact, Refused, outcome, tell};

// The distance of a point from the circle of centre (4, 2) and radius 1.
fn from_circle(x: f64, y: f64) -> Result<Exact, Refused> {
    let mut distance = 0.0;
    let number = capi::gemlab_point_circle_distance(&[4.0, 2.0], 1.0, &[x, y], &mut distance);
    outcome(number)?;
    Ok(Exact(distance))
}

fn circles(rt: &impl Print) {
    tell(
        rt,
        "circle of centre (4, 2) and radius 1, (5, 2)",
        from_circle(5.0, 2.0),
    );
    tell(
        rt,
        "circle of centre (4, 2) and radius 1, (4, 2)",
        from_circle(4.0, 2.0),
    );
}

// Module 1 at its edges.
fn roots(rt: &impl Print) {
    let _ = println!(rt; "root of 2: {}", Exact(floats::sqrt(2.0)));
    let _ = println!(rt; "root of 0: {}", Exact(floats::sqrt(0.0)));
    let _ = println!(rt; "root of -0: {}", Exact(floats::sqrt(-0.0)));
    let _ = println!(rt; "root of -1: {}", Exact(floats::sqrt(-1.0)));
    let _ = println!(rt; "root of infinity: {}", Exact(floats::sqrt(f64::INFINITY)));
}

fn truncations(rt: &impl Print) {
    let _ = println!(rt; "truncation of 7.9375: {}", floats::truncated(7.9375));
    let _ = println!(rt; "truncation of -7.9375: {}", floats::truncated(-7.9375));
    let _ = println!(rt;
        "truncation of infinity: {}",
        floats::truncated(f64::INFINITY)
    );
    let _ = println!(rt; "truncation of NaN: {}", floats::truncated(f64::NAN));
}

fn roundings_up(rt: &impl Print) {
    let _ = println!(rt; "rounding up of 2.5: {}", Exact(floats::ceil(2.5)));
    let _ = println!(rt; "rounding up of -2.5: {}", Exact(floats::ceil(-2.5)));
    let _ = println!(rt; "rounding up of -0.5: {}", Exact(floats::ceil(-0.5)));
    let _ = println!(rt; "rounding up of 3: {}", Exact(floats::ceil(3.0)));
}

fn main(rt: HostRuntime) {
    let _ = println!(rt; "root of 2.25: {}", Exact(floats::sqrt(2.25)));
    let _ = println!(rt; "root of 0.25: {}", Exact(floats::sqrt(0.25)));
    marks::marks(&rt);
    marks::sheets(&rt);
    marks::lines(&rt);
    circles(&rt);
    cells::triangles(&rt);
    roots(&rt);
    truncations(&rt);
    roundings_up(&rt);
}
