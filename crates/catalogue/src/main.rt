// Reads a sheet from `sheet.bin` and marks from `marks.bin`, inserts the marks into space for 1,024 rows, and prints the
// library as gemlab's `Display` does, or `refused N` alone. Nothing is printed before the whole of `marks.bin` is judged.
#![tactic(auto)]

ghost use Rattle.std.specs.Prelude.{take, ◌≡◌, true};
ghost use Rattle.basics.specs.Refusals.{success};
ghost use Rattle.grid_search.specs.Sheet.{made, sheet_ok};
ghost use Rattle.files.specs.Counts.{IsPrefixLen};
ghost use Rattle.catalogue.specs.Printed.{GoodSheet, Judged, Printed};

use basics::Refusal;
use grid_search::GridSearch;
use std::rt::Files;
use table::{Library, LibraryMut};

// What is printed of a good sheet and `marks.bin`, whose records have 32 bytes.
fn put_marks(rt: &impl Files, sheet: GridSearch, text: &mut [u8; 70804]) -> usize
    requires { sheet_ok sheet ≡ true }
    ensures prefix_len { IsPrefixLen result text.new }
    ensures judged { Judged (success sheet) (take result text.new) }
{
    let mut keys = [0u64; 1024];
    let mut ids = [0u64; 1024];
    let mut xs = [0.0f64; 1024];
    let mut ys = [0.0f64; 1024];
    let mut zs = [0.0f64; 1024];
    let mut library = LibraryMut {
        keys: &mut keys,
        ids: &mut ids,
        xs: &mut xs,
        ys: &mut ys,
        zs: &mut zs,
        used: 0,
    };
    let answer = files::insert_file(rt, b"marks.bin", 32, sheet, &mut library);
    let used = library.used;
    let library = Library {
        keys: &keys,
        ids: &ids,
        xs: &xs,
        ys: &ys,
        zs: &zs,
        used,
    };
    outcome::put_outcome(sheet, library, answer, text)
}

// What is printed after `sheet.bin` gave this sheet. Where it is refused, `marks.bin` is not looked at.
fn put_catalogue(
    rt: &impl Files,
    sheet: Result<GridSearch, Refusal>,
    text: &mut [u8; 70804],
) -> usize
    requires { GoodSheet sheet }
    ensures prefix_len { IsPrefixLen result text.new }
    ensures judged { Judged (made sheet) (take result text.new) }
{
    match sheet {
        Ok(good) => put_marks(rt, good, text),
        Err(reason) => outcome::put_refused(reason, text),
    }
}

// What is printed of the two files: it stands at the front of the buffer.
// Kept: of a `Display` nothing could be proved: std does not promise that a write answers no error.
fn put_text(rt: &impl Files, text: &mut [u8; 70804]) -> usize
    ensures prefix_len { IsPrefixLen result text.new }
    ensures printed { Printed (take result text.new) }
{
    let sheet = files::read_sheet(rt, b"sheet.bin");
    put_catalogue(rt, sheet, text)
}

// Kept: one `main` for both programs would take `put_text` as a closure, and ask of it that the text fits: longer than both are.
fn main(rt: HostRuntime) {
    let mut text = [0u8; 70804];
    let n = put_text(&rt, &mut text);
    files::write_text(
        &rt.stdout(),
        &rt.stderr(),
        &text[..n],
        b"catalogue: the text could not be written whole\n",
    );
}
