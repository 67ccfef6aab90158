// The sheet, in a list of 8 numbers and a list of 17 floats.
ghost use Rattle.std.specs.Prelude.{◌+◌, ◌<◌, ◌≡◌, [], length};
ghost use Rattle.capi.specs.Sheets.{given as given_in, given_number, given_float, flag_of as flag_in, entry_of as entry_in, numbers_of as numbers_in, floats_of as floats_in};
ghost use Rattle.capi.specs.Sheets.{new_in_c, ToldSheet, setting_read, readable as readable_of, position_at, read_sheet, sheet_of};

use geometry::{Dimension, Position};
use grid::Divisions;
use grid_search::GridSearch;

// How many entries a sheet's lists have.
const NUMBERS: usize = 8;

const FLOATS: usize = 17;

// A setting from its flag and its value: any flag but 0 means given.
pub(crate) fn given<T: Drop>(flag: u64, value: T) -> Option<T>
    ensures { result ≡ given_in flag value }
{
    if flag == 0 { None } else { Some(value) }
}

// A setting's flag, 0 or 1.
fn flag_of<T: Copy>(setting: Option<T>) -> u64
    ensures { result ≡ flag_in setting }
{
    setting.is_some() as u64
}

// A setting's entry, which is empty where the setting is left out.
fn entry_of<T: Drop>(empty: T, setting: Option<T>) -> T
    ensures { result ≡ entry_in empty setting }
{
    setting.unwrap_or(empty)
}

// A sheet's list of numbers.
fn numbers_of(s: GridSearch) -> [u64; NUMBERS]
    ensures { result ≡ numbers_in s }
{
    [
        s.ndim as u64,
        flag_of(s.number),
        entry_of(0, s.number),
        flag_of(s.tolerance),
        flag_of(s.border_tol),
        s.ndiv.x,
        s.ndiv.y,
        s.ndiv.z,
    ]
}

// A sheet's list of floats.
fn floats_of(s: GridSearch) -> [f64; FLOATS]
    ensures { result ≡ floats_in s }
{
    [
        s.low.x,
        s.low.y,
        s.low.z,
        s.high.x,
        s.high.y,
        s.high.z,
        entry_of(0.0, s.tolerance),
        entry_of(0.0, s.border_tol),
        s.xmin.x,
        s.xmin.y,
        s.xmin.z,
        s.xmax.x,
        s.xmax.y,
        s.xmax.z,
        s.side_length,
        s.tol_dist,
        s.radius,
    ]
}

// Writes the sheet that the corners and settings give into two lists. Returns 0, or 13 for lists of another length, or the
// refusal 1 to 10, and then writes nothing.
pub fn gemlab_grid_search_new(
    xmin: &[f64],
    xmax: &[f64],
    ndiv_given: u64,
    ndiv: u64,
    tolerance_given: u64,
    tolerance: f64,
    border_tol_given: u64,
    border_tol: f64,
    numbers: &mut [u64],
    floats: &mut [f64],
) -> u64
    ensures { ToldSheet (new_in_c xmin.now xmax.now (given_number ndiv_given ndiv) (given_float tolerance_given tolerance) (given_float border_tol_given border_tol) numbers.old floats.old) result numbers.old numbers.new floats.old floats.new }
{
    if numbers.len() != NUMBERS {
        return 13;
    }
    if floats.len() != FLOATS {
        return 13;
    }
    let made = GridSearch::new(
        xmin,
        xmax,
        given(ndiv_given, ndiv),
        given(tolerance_given, tolerance),
        given(border_tol_given, border_tol),
    );
    match made {
        Ok(sheet) => {
            numbers.copy_from_slice(&numbers_of(sheet));
            floats.copy_from_slice(&floats_of(sheet));
            0
        }
        Err(refusal) => u64::from(refusal),
    }
}

// Whether a setting's flag is 0 or 1, and with 0 its entry is empty.
// Kept: C's lists have a flag for each setting (include/gemlab.h), and its entry is a number in one list or a float in the other.
fn is_setting(flag: u64, empty: bool) -> bool
    ensures { result ≡ setting_read flag empty }
{
    (flag == 1) | ((flag == 0) & empty)
}

// Whether two lists can be those of a sheet: their lengths, the dimension, and the settings with their flags.
fn readable(numbers: &[u64], floats: &[f64]) -> bool
    ensures { result ≡ readable_of numbers.now floats.now }
{
    if numbers.len() != NUMBERS {
        return false;
    }
    if floats.len() != FLOATS {
        return false;
    }
    Dimension::try_from(numbers[0] as usize).is_ok()
        & (is_setting(numbers[1], numbers[2] == 0)
            & (is_setting(numbers[3], floats::same_bits(floats[6], 0.0))
                & is_setting(numbers[4], floats::same_bits(floats[7], 0.0))))
}

// The position whose coordinates start at entry i.
pub(crate) fn position_at(floats: &[f64], i: usize) -> Position
    requires { i + 2 < length floats.now }
    ensures { result ≡ position_at i floats.now }
{
    Position {
        x: floats[i],
        y: floats[i + 1],
        z: floats[i + 2],
    }
}

// The sheet that readable lists hold.
fn read_sheet(numbers: &[u64], floats: &[f64]) -> GridSearch
    requires numbers_length { length numbers.now ≡ 8 }
    requires floats_length { length floats.now ≡ 17 }
    ensures { result ≡ read_sheet numbers.now floats.now }
{
    let low = position_at(floats, 0);
    let high = position_at(floats, 3);
    let number = given(numbers[1], numbers[2]);
    let tolerance = given(numbers[3], floats[6]);
    let border_tol = given(numbers[4], floats[7]);
    let ndiv = Divisions {
        x: numbers[5],
        y: numbers[6],
        z: numbers[7],
    };
    let xmin = position_at(floats, 8);
    let xmax = position_at(floats, 11);
    GridSearch {
        ndim: numbers[0] as usize,
        low,
        high,
        number,
        tolerance,
        border_tol,
        ndiv,
        xmin,
        xmax,
        side_length: floats[14],
        tol_dist: floats[15],
        radius: floats[16],
    }
}

// What stands for damaged lists, and is what empty ones hold: a sheet of dimension 0, which no call takes for good.
fn no_sheet() -> GridSearch
    ensures { result ≡ read_sheet [] [] }
{
    let nan = 0.0 / 0.0;
    let nowhere = Position {
        x: nan,
        y: nan,
        z: nan,
    };
    GridSearch {
        ndim: 0,
        low: nowhere,
        high: nowhere,
        number: None,
        tolerance: None,
        border_tol: None,
        ndiv: Divisions { x: 0, y: 0, z: 0 },
        xmin: nowhere,
        xmax: nowhere,
        side_length: nan,
        tol_dist: nan,
        radius: nan,
    }
}

// The sheet in two lists that were handed in.
pub(crate) fn sheet_of(numbers: &[u64], floats: &[f64]) -> GridSearch
    ensures { result ≡ sheet_of numbers.now floats.now }
{
    if readable(numbers, floats) {
        return read_sheet(numbers, floats);
    }
    no_sheet()
}
