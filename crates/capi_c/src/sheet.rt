// The sheet, in a list of 8 numbers and a list of 17 floats.
ghost use Rattle.capi.specs.Sheets.{given_number, given_float};
ghost use Rattle.capi.specs.Sheets.{new_in_c, ToldSheet};

#[unsafe(no_mangle)]
pub extern "C" fn gemlab_grid_search_new(
    xmin: &[f64],
    xmax: &[f64],
    ndiv_given: u64,
    ndiv: u64,
    tolerance_given: u64,
    tolerance: f64,
    border_tol_given: u64,
    border_tol: f64,
    numbers: &mut [u64],
    floats: &mut [f64],
) -> u64
    ensures { ToldSheet (new_in_c xmin.now xmax.now (given_number ndiv_given ndiv) (given_float tolerance_given tolerance) (given_float border_tol_given border_tol) numbers.old floats.old) result numbers.old numbers.new floats.old floats.new }
{
    capi::gemlab_grid_search_new(
        xmin,
        xmax,
        ndiv_given,
        ndiv,
        tolerance_given,
        tolerance,
        border_tol_given,
        border_tol,
        numbers,
        floats,
    )
}
