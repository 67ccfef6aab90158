// Files and standard input that a program reads, and text that it writes. What a file holds is decided by what the calls on it answered, each
// decision in a function of its own with an exact contract. Nothing is asked of a file that cannot be opened: that it is missing is handed
// over in place of what reading on answers.
//
// `after` is what reading on after the bytes that came answered: how many bytes follow, 0 at the end, or why that is not known.
#![tactic(auto)]

ghost use Rattle.std.specs.Prelude.{◌≤◌, ◌<◌, ◌≡◌, length, take, is_ok, IfSome, MatchOption};
ghost use Rattle.std.specs.Io.KnownBytes.{Consumes, Keeps};
ghost use Rattle.grid_search.specs.Sheet.{made};
ghost use Rattle.table.specs.Lent.{lent_mut, SameLists};
ghost use Rattle.rows.specs.Insert.{inserted};
ghost use Rattle.loading.specs.Loading.{sheet_in};
ghost use Rattle.files.specs.Counts.{IsPrefixLen};
ghost use Rattle.files.specs.Files.{all_came, content, part_length, part_of, marks_answer, input_of, said};
ghost use Rattle.files.specs.Read.{SheetRead, PartRead, MarksRead, Came};

use basics::Refusal;
use grid_search::GridSearch;
use std::fs::File;
use std::io;
use std::io::{ErrorKind, Print, Read};
use std::rt::Files;
use table::LibraryMut;

// What comes after a part of the marks that were all taken: more of them, or the end of the file.
#[derive(Clone, Copy, PartialEq, Eq)]
pub enum Part {
    More,
    Last,
}

// Why it is not known what follows: the file cannot be opened; or reading fails.
#[derive(Clone, Copy)]
pub enum ReadError {
    Missing,
    Failed,
}

// Why standard input is not held: it has more bytes than a program takes; or it cannot be read.
// Kept: it is the error of a Result, which has the number of bytes.
#[derive(Clone, Copy)]
pub enum InputError {
    Longer,
    Unreadable,
}

// Whether the bytes that came are all of the file.
#[tactic(auto, unfolding(crate::specs::Files::all_came, crate::specs::Files::is_end))]
fn all_came(after: Result<usize, ReadError>) -> bool
    ensures { result ≡ all_came after }
{
    matches!(after, Ok(0))
}

// The sheet of a file: 13 where the bytes are not all of it, and else what they say.
#[tactic(auto, unfolding(crate::specs::Files::content, loading::specs::Loading::sheet_in))]
pub fn sheet_of_file(bytes: &[u8], after: Result<usize, ReadError>) -> Result<GridSearch, Refusal>
    ensures { made result ≡ sheet_in (content bytes.now after) }
{
    if !all_came(after) {
        return Err(Refusal::Damaged);
    }
    loading::sheet_of_records(bytes)
}

// How many bytes are asked for at a time: whole records of this width, as many as 65,536 bytes hold.
pub fn part_length(width: usize) -> usize
    ensures value { result ≡ part_length width }
    ensures most { result ≤ 65536 }
{
    if width == 0 { 0 } else { 65536 / width * width }
}

// What comes after a part of the marks that was inserted with this answer: `came` bytes, of `asked` that were asked for. A refusal is
// handed on.
#[tactic(auto, unfolding(crate::specs::Files::part_of))]
pub fn part_of(came: usize, asked: usize, answer: Result<usize, Refusal>) -> Result<Part, Refusal>
    ensures { result ≡ part_of came asked answer }
{
    answer?;
    Ok(if came < asked { Part::Last } else { Part::More })
}

// The answer to a file whose marks were all taken and left this number of rows in use: 13 where they are not all of the file.
#[tactic(auto, unfolding(crate::specs::Files::marks_answer))]
pub fn marks_answer(after: Result<usize, ReadError>, rows: usize) -> Result<usize, Refusal>
    ensures { inserted result ≡ marks_answer after rows }
{
    if !all_came(after) {
        return Err(Refusal::Damaged);
    }
    Ok(rows)
}

// What standard input holds, where `came` bytes came of `asked` that were asked for. Where fewer came, reading failed or the input
// ended: bytes that follow all the same say that it failed.
#[tactic(auto, unfolding(crate::specs::Files::input_of))]
pub fn input_of(
    came: usize,
    asked: usize,
    after: Result<usize, ReadError>,
) -> Result<usize, InputError>
    ensures { result ≡ input_of came asked after }
{
    match after {
        Ok(0) => Ok(came),
        Ok(_) if came == asked => Err(InputError::Longer),
        _ => Err(InputError::Unreadable),
    }
}

// How many bytes of a complaint are said: all of them where a text was not written whole, and else none.
#[tactic(auto, unfolding(crate::specs::Files::said))]
pub fn said_of(written: io::Result<()>, line: &[u8]) -> usize
    ensures value { result ≡ said (is_ok written) line.now }
    ensures upper_bound { (result ≤ length line.now) × (result ≡ length (take result line.now)) }
{
    match written {
        Ok(()) => 0,
        Err(_) => line.len(),
    }
}

// The file of this name: none where it cannot be opened. A name in `std` is UTF-8, so none has another name.
fn open<R: Files>(rt: &R, name: &[u8]) -> Option<R::File> {
    match std::str::from_utf8(name) {
        Ok(path) => File::open(rt, path).ok(),
        Err(_) => None,
    }
}

// One read, made again where a signal interrupts it: how many bytes came, or none where it fails.
fn read_some<R: Read>(reader: &mut R, bytes: &mut [u8]) -> Option<usize>
    ensures count { IfSome result (λ n. IsPrefixLen n bytes.new) }
    ensures read { MatchOption result (Keeps (R.remaining reader.old) (R.remaining reader.new))
        (λ n. Consumes (R.remaining reader.old) (R.remaining reader.new) (take n bytes.new)) }
{
    for _ in 0..u64::MAX {
        match reader.read(bytes) {
            Ok(n) => return Some(n),
            Err(e) => {
                if e.kind() != ErrorKind::Interrupted {
                    return None;
                }
            }
        }
    }
    None
}

// Reads until the buffer is full, the bytes end or reading fails: how many came.
// Kept: `read_exact` does not tell how many bytes came where there are fewer, and `read_to_end` needs a Vec.
fn read_full<R: Read>(reader: &mut R, bytes: &mut [u8]) -> usize
    ensures count { IsPrefixLen result bytes.new }
    ensures read { Consumes (R.remaining reader.old) (R.remaining reader.new) (take result bytes.new) }
{
    let mut done = 0;
    while done < bytes.len() {
        match read_some(reader, &mut bytes[done..]) {
            None | Some(0) => return done,
            Some(n) => done += n,
        }
    }
    done
}

// What reading on answers.
fn read_on<R: Read>(reader: &mut R) -> Result<usize, ReadError> {
    let mut byte = [0u8; 1];
    read_some(reader, &mut byte).ok_or(ReadError::Failed)
}

// The sheet of a file that was opened: two records.
fn sheet_of_reader<R: Read>(reader: &mut R) -> Result<GridSearch, Refusal>
    ensures { SheetRead result }
{
    let mut bytes = [0u8; 64];
    let n = read_full(reader, &mut bytes);
    let after = read_on(reader);
    sheet_of_file(&bytes[..n], after)
}

// The sheet of the file of this name: two records.
pub fn read_sheet(rt: &impl Files, name: &[u8]) -> Result<GridSearch, Refusal>
    ensures { SheetRead result }
{
    match open(rt, name) {
        Some(mut file) => sheet_of_reader(&mut file),
        None => sheet_of_file(b"", Err(ReadError::Missing)),
    }
}

// Inserts the marks of the next records of a file.
// Kept: width, sheet and library are of three crates; a struct of them would stand in each contract as its three fields.
fn insert_part<R: Read>(
    reader: &mut R,
    width: usize,
    sheet: GridSearch,
    library: &mut LibraryMut,
) -> Result<Part, Refusal>
    ensures read { PartRead width sheet (lent_mut library.old) result (lent_mut library.new) }
    ensures same_lists { SameLists library.old library.new }
{
    let mut bytes = [0u8; 65536];
    let asked = part_length(width);
    let n = read_full(reader, &mut bytes[..asked]);
    let answer = loading::insert_records(sheet, library, &bytes[..n], width);
    part_of(n, asked, answer)
}

// Inserts the marks of an open file part by part. Where it cannot be read to its end, the rows in use are as many as before. A proved
// loop has to end, and nothing says that a file does: so the loop has a number of turns that no file uses up.
// Kept: width, sheet and library are of three crates; a struct of them would stand in each contract as its three fields.
fn insert_parts<R: Read>(
    reader: &mut R,
    width: usize,
    sheet: GridSearch,
    library: &mut LibraryMut,
) -> Result<usize, Refusal>
    requires { 0 < width }
    ensures read { MarksRead width sheet (lent_mut library.old) result (lent_mut library.new) }
    ensures same_lists { SameLists library.old library.new }
{
    let used = library.used;
    for _ in 0..u64::MAX {
        let part = insert_part(reader, width, sheet, library)?;
        if part == Part::Last {
            let after = read_on(reader);
            let answer = marks_answer(after, library.used);
            if answer.is_err() {
                library.used = used;
            }
            return answer;
        }
    }
    library.used = used;
    Err(Refusal::Damaged)
}

// Inserts the marks of the file of this name, whose records have this width, into a library. 13 where no record of that width
// fits into a part. Where the file cannot be read to its end, the rows in use are as many as before.
// Kept: width, sheet and library are of three crates; a struct of them would stand in each contract as its three fields.
pub fn insert_file(
    rt: &impl Files,
    name: &[u8],
    width: usize,
    sheet: GridSearch,
    library: &mut LibraryMut,
) -> Result<usize, Refusal>
    ensures read { MarksRead width sheet (lent_mut library.old) result (lent_mut library.new) }
    ensures same_lists { SameLists library.old library.new }
{
    if part_length(width) == 0 {
        return Err(Refusal::Damaged);
    }
    match open(rt, name) {
        Some(mut file) => insert_parts(&mut file, width, sheet, library),
        None => marks_answer(Err(ReadError::Missing), library.used),
    }
}

// Reads standard input into a buffer. Past what the buffer holds one byte is asked for, and no more.
pub fn read_input(stdin: &impl io::Input, bytes: &mut [u8; 131072]) -> Result<usize, InputError>
    ensures { Came result bytes.new }
{
    let mut reader = stdin.reader();
    let came = read_full(&mut reader, bytes);
    let after = read_on(&mut reader);
    input_of(came, 131072, after)
}

// Writes a text on standard output, and says on standard error where it could not be written whole.
pub fn write_text(stdout: &impl Print, stderr: &impl Print, text: &[u8], complaint: &[u8]) {
    let n = said_of(stdout.write_all(text), complaint);
    let _ = stderr.write_all(&complaint[..n]);
}
