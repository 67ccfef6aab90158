// The index without its rows: corners, side and divisions.
ghost use Rattle.std.specs.Prelude.{◌≡◌, true, ◌&&◌, eqb};
ghost use Rattle.basics.specs.Answers.{fault_in};
ghost use Rattle.basics.specs.Refusals.{fault, answer};
ghost use Rattle.floats.specs.Rounded.{◌⊖◌, ◌⊘◌, truncate};
ghost use Rattle.floats.specs.Ceil.{ceil_of};
ghost use Rattle.geometry.specs.Position.{coords as axes, dimension};
ghost use Rattle.grid.specs.Divisions.{counts, divisions_of};
ghost use Rattle.mesh.specs.Mesh.{seen};
ghost use Rattle.cell_sizes.specs.Large.{measure as measure_of};
ghost use Rattle.cell_sizes.specs.Steps.{Sized, kept, count_in};
ghost use Rattle.grid_cells.specs.Build.{cell_divisions, index, division_tests, frame_tests, built};

use crate::GridCells;
use basics::Refusal;
use cell_sizes::{Settings, Sizes};
use geometry::{Dimension, Position};
use grid::Divisions;
use mesh::WholeMesh;

// The divisions along an axis: its extent over the side, rounded up.
fn divisions_along(side_length: f64, xmin: f64, xmax: f64) -> u64
    ensures { result ≡ truncate (ceil_of ((xmax ⊖ xmin) ⊘ side_length)) }
{
    floats::truncated(floats::ceil((xmax - xmin) / side_length))
}

// The divisions along each axis.
// Kept: a sheet and an index have the corners as two fields, as gemlab has: a struct of both would be made at each call.
fn divide(ndim: Dimension, side_length: f64, xmin: Position, xmax: Position) -> Divisions
    ensures { result ≡ divisions_of (cell_divisions side_length (axes ndim.n xmin) (axes ndim.n xmax)) }
{
    let ndiv = Divisions {
        x: divisions_along(side_length, xmin.x, xmax.x),
        y: divisions_along(side_length, xmin.y, xmax.y),
        z: divisions_along(side_length, xmin.z, xmax.z),
    };
    ndiv.in_use(ndim)
}

// What turns the corners and the divisions away: 22 or 6.
// Kept: a sheet and an index have the corners as two fields, as gemlab has: a struct of both would be made at each call.
fn divisions_fault(
    ndim: Dimension,
    low: Position,
    high: Position,
    ndiv: Divisions,
) -> Result<(), Refusal>
    ensures { fault_in result ≡ fault (division_tests (axes ndim.n low) (axes ndim.n high) (counts ndim.n ndiv)) }
{
    if !grid_search::is_above(ndim, low, high) {
        return Err(Refusal::NoExtent);
    }
    if geometry::on_some_axis(ndim, ndiv.x == 0, ndiv.y == 0, ndiv.z == 0) {
        return Err(Refusal::NoExtent);
    }
    if geometry::on_some_axis(ndim, ndiv.x > 1024, ndiv.y > 1024, ndiv.z > 1024) {
        return Err(Refusal::ManyDivisions);
    }
    Ok(())
}

// Whether every cell is large and the percentage keeps them so.
fn is_nothing_filed(sizes: Sizes, ncell: usize) -> bool
    ensures { result ≡ (kept sizes.apart && eqb (count_in sizes.apart) ncell) }
{
    sizes.apart.is_some_and(|apart| apart.count == ncell)
}

// The index with no rows yet, or the refusal 23, 22 or 6.
pub fn frame(mesh: WholeMesh, sizes: Sizes, settings: Settings) -> Result<GridCells, Refusal>
    requires { Sized mesh.ndim.n (seen mesh.mesh) settings sizes }
    ensures { built result ≡ answer (fault (frame_tests mesh.entry.ndim.n (measure_of mesh.entry.ndim.n (seen mesh.entry.mesh) settings) settings))
        (index mesh.entry.ndim.n (measure_of mesh.entry.ndim.n (seen mesh.entry.mesh) settings) settings) }
{
    if is_nothing_filed(sizes, mesh.cell_count()) {
        return Err(Refusal::AllLarge);
    }
    let ndim = mesh.ndim;
    let limits = sizes.limits;
    let xmin = grid_search::lowered(ndim, settings.border_tol, limits.low);
    let high = grid_search::raised(ndim, settings.border_tol, limits.high);
    let side_length = sizes.longest + 2.0 * settings.tolerance;
    let ndiv = divide(ndim, side_length, xmin, high);
    divisions_fault(ndim, xmin, high, ndiv)?;
    let xmax = grid_search::covered(ndim, xmin, side_length, ndiv);
    Ok(GridCells {
        ndim: ndim.n,
        ndiv,
        side_length,
        xmin,
        xmax,
        used: 0,
        large: sizes.large_count(),
    })
}
