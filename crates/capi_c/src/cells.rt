// The build of a cell index, in a list of 6 numbers and a list of 7 floats.
ghost use Rattle.mesh.specs.Mesh.{mesh_of};
ghost use Rattle.grid_cells.specs.Build.{settings_of, index_lists};
ghost use Rattle.capi.specs.Sheets.{given_float};
ghost use Rattle.capi.specs.Cells.{build_in_c, ToldCells};

#[unsafe(no_mangle)]
pub extern "C" fn gemlab_grid_cells_new(
    ndim: u64,
    coords: &[f64],
    corners: &[u32],
    tolerance_given: u64,
    tolerance: f64,
    border_tol_given: u64,
    border_tol: f64,
    large_cutoff_given: u64,
    large_cutoff: f64,
    large_pct_given: u64,
    large_pct: f64,
    keys: &mut [u64],
    cells: &mut [u64],
    large: &mut [u64],
    numbers: &mut [u64],
    floats: &mut [f64],
) -> u64
    ensures { ToldCells (build_in_c ndim (mesh_of coords.now corners.now)
        (settings_of (given_float tolerance_given tolerance) (given_float border_tol_given border_tol) (given_float large_cutoff_given large_cutoff) (given_float large_pct_given large_pct))
        (index_lists keys.old cells.old large.old) numbers.old floats.old)
        result (index_lists keys.new cells.new large.new) numbers.old numbers.new floats.old floats.new }
{
    capi::gemlab_grid_cells_new(
        ndim,
        coords,
        corners,
        tolerance_given,
        tolerance,
        border_tol_given,
        border_tol,
        large_cutoff_given,
        large_cutoff,
        large_pct_given,
        large_pct,
        keys,
        cells,
        large,
        numbers,
        floats,
    )
}
