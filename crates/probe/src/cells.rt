// Module 9: the coordinates of a point in a cell, and the inside test.
ghost use Rattle.std.specs.Prelude.{◌≡◌, [], ◌∷◌};
ghost use Rattle.floats.specs.Rounded.{zero_f};
ghost use Rattle.geometry.specs.Position.{position_of};
ghost use Rattle.geometry.specs.Cells.{zetas, triangle_coords, tetrahedron_coords, inside};

use geometry::{Position, Zeta};

#[unsafe(no_mangle)]
pub extern "C" fn probe_triangle_coords(
    xa: &[f64],
    xb: &[f64],
    xc: &[f64],
    xp: &[f64],
    z0: &mut f64,
    z1: &mut f64,
    z2: &mut f64,
)
    ensures { z0.new ∷ z1.new ∷ z2.new ∷ []
        ≡ zetas 3 (triangle_coords (position_of xa.now) (position_of xb.now) (position_of xc.now) (position_of xp.now)) }
{
    let z = geometry::triangle_coords(
        Position::new(xa),
        Position::new(xb),
        Position::new(xc),
        Position::new(xp),
    );
    *z0 = z.0;
    *z1 = z.1;
    *z2 = z.2;
}

#[unsafe(no_mangle)]
pub extern "C" fn probe_tetrahedron_coords(
    xa: &[f64],
    xb: &[f64],
    xc: &[f64],
    xd: &[f64],
    xp: &[f64],
    z0: &mut f64,
    z1: &mut f64,
    z2: &mut f64,
    z3: &mut f64,
)
    ensures { z0.new ∷ z1.new ∷ z2.new ∷ z3.new ∷ []
        ≡ zetas 4 (tetrahedron_coords (position_of xa.now) (position_of xb.now) (position_of xc.now) (position_of xd.now) (position_of xp.now)) }
{
    let z = geometry::tetrahedron_coords(
        Position::new(xa),
        Position::new(xb),
        Position::new(xc),
        Position::new(xd),
        Position::new(xp),
    );
    *z0 = z.0;
    *z1 = z.1;
    *z2 = z.2;
    *z3 = z.3;
}

#[unsafe(no_mangle)]
pub extern "C" fn probe_in_triangle(z0: f64, z1: f64, z2: f64) -> bool
    ensures { result ≡ inside zero_f (z0 ∷ z1 ∷ z2 ∷ []) }
{
    geometry::in_triangle(Zeta(z0, z1, z2, 0.0))
}

#[unsafe(no_mangle)]
pub extern "C" fn probe_in_tetrahedron(z0: f64, z1: f64, z2: f64, z3: f64) -> bool
    ensures { result ≡ inside zero_f (z0 ∷ z1 ∷ z2 ∷ z3 ∷ []) }
{
    geometry::in_tetrahedron(Zeta(z0, z1, z2, z3))
}
