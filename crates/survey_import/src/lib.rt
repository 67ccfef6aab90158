// Request d of document 02: point lists from the surveyors. A text of lines becomes marks in lent lists.
#![tactic(auto)]

ghost use Rattle.std.specs.Prelude.{◌≡◌, true, [], ◌∷◌, ◌<◌, map, length, MatchOption};
ghost use Rattle.basics.specs.Lists.{all};
ghost use Rattle.lines.specs.Lines.{lines};
ghost use Rattle.lines.specs.Pieces.{split};
ghost use Rattle.mark_lists.specs.MarkLists.{write_marks};
ghost use Rattle.mark_lists.specs.Posts.{Room};
ghost use Rattle.mark_lists.specs.Lent.{lent_mut, SameLists};
ghost use Rattle.survey_import.specs.Marks.{good_line, mark_of, mark_in, line_read, plain, is_description};
ghost use Rattle.survey_import.specs.Import.{importing, Imports};
ghost use Rattle.survey_import.specs.Posts.{value_in, value_read, AreFields, Judges};

use basics::Refusal;
use lines::Lines;
use mark_lists::MarkListsMut;
use records::Record;

// Why an import is turned away: at the first malformed line, counted from 1, or as another call is.
// Kept: it is the error of a Result; a malformed line has its number beside the refusal, and no other refusal has one.
#[derive(Clone, Copy, Debug, PartialEq, Eq)]
pub enum ImportError {
    Malformed(usize),
    Refused(Refusal),
}

impl From<Refusal> for ImportError {
    ghost use Rattle.survey_import.specs.declared.ImportError.TheVariants.{Refused};

    ghost from_gives = { λ refusal error. error ≡ Refused refusal };

    fn from(refusal: Refusal) -> ImportError {
        ImportError::Refused(refusal)
    }
}

// ---- a line

// The fields of a line: what stands between its first four commas, and what stands after them.
#[derive(Clone, Copy)]
struct Fields<'a> {
    number: &'a [u8],
    easting: &'a [u8],
    northing: &'a [u8],
    height: &'a [u8],
    description: &'a [u8],
}

// What stands before the first comma of a text, and what stands after it.
fn cut(text: &[u8]) -> Option<(&[u8], &[u8])>
    ensures { MatchOption result (split 44 text.now ≡ text.now ∷ [])
        (λ parts. split 44 text.now ≡ parts.0.now ∷ split 44 parts.1.now) }
{
    let comma = basics::find(text, &b',')?;
    Some((&text[..comma], &text[comma + 1..]))
}

fn fields_of(line: &[u8]) -> Option<Fields<'_>>
    ensures { MatchOption result (length (split 44 line.now) < 5) (AreFields line.now) }
{
    let (number, rest) = cut(line)?;
    let (easting, rest) = cut(rest)?;
    let (northing, rest) = cut(rest)?;
    let (height, description) = cut(rest)?;
    Some(Fields {
        number,
        easting,
        northing,
        height,
        description,
    })
}

// A byte of a description, and no comma.
fn is_plain(byte: u8) -> bool
    ensures { result ≡ plain byte }
{
    byte != b',' && byte >= 32 && byte <= 126
}

// Whether what stands after the fourth comma is a description, with no comma more. Unlike `all`, the fold goes to the end in any
// case, so that several bytes are tested at a time.
#[tactic(auto, unfolding(crate::specs::Marks::is_description))]
fn is_description(rest: &[u8]) -> bool
    ensures { result ≡ is_description rest.now }
{
    rest.len() <= 32 && rest.iter().fold(true, |ok, byte| ok & is_plain(*byte))
}

// The value of the coordinate that a field is.
fn read_value(field: &[u8]) -> Option<f64>
    ensures { value_read result ≡ value_in field.now }
{
    let n = decimals::read_coordinate(field)?;
    Some(n.value())
}

// The mark of a line.
pub fn read_line(line: &[u8]) -> Option<Record>
    ensures { line_read result ≡ mark_in line.now }
{
    let fields = fields_of(line)?;
    let id = decimals::read_number(fields.number)?;
    let x = read_value(fields.easting)?;
    let y = read_value(fields.northing)?;
    let z = read_value(fields.height)?;
    if !is_description(fields.description) {
        return None;
    }
    Some(Record { id, x, y, z })
}

// ---- a text

// Judges each line of a text: how many there are, or the first bad one.
fn judge(text: &[u8]) -> Result<usize, ImportError>
    ensures { Judges (lines text.now) result }
{
    let mut count = 0;
    for line in Lines::new(text) {
        count += 1;
        if read_line(line).is_none() {
            return Err(ImportError::Malformed(count));
        }
    }
    if count == 0 {
        return Err(ImportError::Malformed(1));
    }
    Ok(count)
}

// Stores the marks of a text whose lines are good, from the lists' start on.
fn store(text: &[u8], lists: &mut MarkListsMut)
    requires good { all good_line (lines text.now) ≡ true }
    requires room { Room (lent_mut lists.old) (length (lines text.now)) }
    ensures stores { lent_mut lists.new ≡ write_marks (map mark_of (lines text.now)) (lent_mut lists.old) }
    ensures same_lists { SameLists lists.old lists.new }
{
    lists.used = 0;
    for line in Lines::new(text) {
        let mark = read_line(line).unwrap();
        lists.push(mark);
    }
}

// Imports the marks of a text into lent lists: how many, which are in use then. Nothing is written before every line is judged.
pub fn import(text: &[u8], lists: &mut MarkListsMut) -> Result<usize, ImportError>
    ensures imports { Imports (importing (lent_mut lists.old) text.now) result (lent_mut lists.new) }
    ensures same_lists { SameLists lists.old lists.new }
{
    lists.as_lists().fault()?;
    let count = judge(text)?;
    if count > lists.ids.len() {
        return Err(ImportError::Refused(Refusal::Full));
    }
    store(text, lists);
    Ok(count)
}
