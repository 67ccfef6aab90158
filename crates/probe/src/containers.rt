// Module 4: the key of a position, and the centre of a container.
ghost use Rattle.std.specs.Prelude.{◌≡◌, true, false, MatchOption};
ghost use Rattle.basics.specs.Lists.{all};
ghost use Rattle.geometry.specs.Position.{position_of};
ghost use Rattle.grid.specs.Divisions.{counts, division};
ghost use Rattle.probe.specs.Containers.{is_grid, key_number, key_probed, centre_probed};

use geometry::{Dimension, Position};
use grid::{ContainerKey, Divisions};

#[derive(Clone, Copy)]
struct Grid {
    ndim: Dimension,
    ndiv: Divisions,
    ghost divided: { all division (counts ndim.n ndiv) ≡ true },
}

#[tactic(auto, unfolding(crate::specs::Containers::is_grid))]
fn grid_of(ndim: usize, ndiv: Divisions) -> Option<Grid>
    ensures { MatchOption result (is_grid ndim ndiv ≡ false) (λ g. (g.ndim.n ≡ ndim) × (g.ndiv ≡ ndiv)) }
{
    match Dimension::try_from(ndim) {
        Ok(ndim) if grid::divisions_ok(ndim, ndiv) => Some(Grid { ndim, ndiv }),
        _ => None,
    }
}

// Kept: C gets a number: this one for no container, and the next for no grid.
fn key_number(located: Option<ContainerKey>) -> u64
    ensures { result ≡ key_number located }
{
    located.map_or(0xffff_ffff_ffff_fffe, |key| key.0)
}

#[unsafe(no_mangle)]
#[tactic(auto, using(crate::proofs::Grids::is_one), unfolding(crate::specs::Containers::key_probed))]
pub extern "C" fn probe_container_key(
    ndim: usize,
    side_length: f64,
    nx: u64,
    ny: u64,
    nz: u64,
    xmin: &[f64],
    x: &[f64],
) -> u64
    ensures { result ≡ key_probed ndim (record { x = nx; y = ny; z = nz }) side_length (position_of xmin.now) (position_of x.now) }
{
    let ndiv = Divisions {
        x: nx,
        y: ny,
        z: nz,
    };
    match grid_of(ndim, ndiv) {
        Some(grid) => key_number(grid::calc_container_key(
            grid.ndim,
            side_length,
            grid.ndiv,
            Position::new(xmin),
            Position::new(x),
        )),
        None => 0xffff_ffff_ffff_ffff,
    }
}

#[unsafe(no_mangle)]
#[tactic(auto, using(crate::proofs::Grids::is_one), unfolding(crate::specs::Containers::centre_probed))]
pub extern "C" fn probe_container_center(
    ndim: usize,
    side_length: f64,
    nx: u64,
    ny: u64,
    nz: u64,
    xmin: &[f64],
    key: u64,
    cx: &mut f64,
    cy: &mut f64,
    cz: &mut f64,
)
    ensures { record { x = cx.new; y = cy.new; z = cz.new }
        ≡ centre_probed ndim (record { x = nx; y = ny; z = nz }) side_length (position_of xmin.now) key (record { x = cx.old; y = cy.old; z = cz.old }) }
{
    let ndiv = Divisions {
        x: nx,
        y: ny,
        z: nz,
    };
    if let Some(grid) = grid_of(ndim, ndiv) {
        if key < grid::container_count(grid.ndim, grid.ndiv) {
            let center = grid::container_center(
                grid.ndim,
                side_length,
                grid.ndiv,
                Position::new(xmin),
                ContainerKey(key),
            );
            *cx = center.x;
            *cy = center.y;
            *cz = center.z;
        }
    }
}
