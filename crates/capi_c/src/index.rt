// A cell index that is handed in, and the search of it.
ghost use Rattle.mesh.specs.Mesh.{mesh_of};
ghost use Rattle.grid_cells.specs.Build.{index_lists};
ghost use Rattle.cell_search.specs.Search.{cell_search};
ghost use Rattle.capi.specs.Indexes.{index_of, ToldCell};

#[unsafe(no_mangle)]
pub extern "C" fn gemlab_grid_cells_search(
    numbers: &[u64],
    floats: &[f64],
    coords: &[f64],
    corners: &[u32],
    keys: &[u64],
    cells: &[u64],
    large: &[u64],
    x: &[f64],
    zeta: &mut [f64],
    found: &mut u64,
    cell: &mut u64,
) -> u64
    ensures { ToldCell (cell_search (index_of numbers.now floats.now) (mesh_of coords.now corners.now)
        (index_lists keys.now cells.now large.now) zeta.old x.now)
        result zeta.new found.old found.new cell.old cell.new }
{
    capi::gemlab_grid_cells_search(
        numbers, floats, coords, corners, keys, cells, large, x, zeta, found, cell,
    )
}
