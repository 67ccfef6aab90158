// Request d of document 02: point lists for the surveyors. Marks become a text of lines in a lent buffer.
#![tactic(auto)]

ghost use Rattle.std.specs.Prelude.{◌≡◌, ◌+◌, ◌^◌, ◌≤◌, ◌<◌, length};
ghost use Rattle.text.specs.Writers.{Puts};
ghost use Rattle.decimals.specs.Decimals.{coordinate_text};
ghost use Rattle.mark_lists.specs.MarkLists.{marks_in};
ghost use Rattle.mark_lists.specs.Lent.{lent};
ghost use Rattle.survey_export.specs.Export.{line_text, exporting, Exports};
ghost use Rattle.survey_export.specs.Posts.{with_comma, PutsMarks};

use basics::Refusal;
use mark_lists::{MarkLists, SoundMarks};
use millimetres::Millimetres;
use records::Record;
use text::Writer;

// The coordinates of a mark in millimetres.
#[derive(Clone, Copy)]
struct Decimals {
    x: Millimetres,
    y: Millimetres,
    z: Millimetres,
}

impl Decimals {
    ghost use Rattle.survey_export.specs.Told.{Tells};

    // Those of a mark, if they are all values of decimals.
    fn of(mark: Record) -> Option<Decimals>
        ensures { Tells mark result }
    {
        let x = Millimetres::of(mark.x)?;
        let y = Millimetres::of(mark.y)?;
        let z = Millimetres::of(mark.z)?;
        Some(Decimals { x, y, z })
    }
}

// A coordinate, with the comma after it.
fn put_field(writer: &mut Writer, millimetres: Millimetres)
    requires { writer.old.at + length (with_comma (coordinate_text millimetres.count)) < 2 ^ 64 }
    ensures { Puts (with_comma (coordinate_text millimetres.count)) writer.old writer.new }
{
    decimals::put_coordinate(writer, millimetres);
    writer.put_byte(b',');
}

// The line of a mark: the description after the fourth comma is empty.
#[tactic(auto, using(crate::proofs::Laws::line_length, crate::proofs::Laws::comma_length))]
fn put_mark(writer: &mut Writer, id: u64, decimals: Decimals)
    requires { writer.old.at + length (line_text id decimals.x.count decimals.y.count decimals.z.count) < 2 ^ 64 }
    ensures { Puts (line_text id decimals.x.count decimals.y.count decimals.z.count) writer.old writer.new }
{
    writer.put_decimal(id);
    writer.put_byte(b',');
    put_field(writer, decimals.x);
    put_field(writer, decimals.y);
    put_field(writer, decimals.z);
    writer.put_byte(b'\n');
}

// The lines of the marks in use, from the buffer's start on, as far as the buffer goes. Refused: 28 at the first mark that is none of
// decimals; what stands in the buffer then is of no use.
fn put_marks(writer: &mut Writer, marks: SoundMarks) -> Result<(), Refusal>
    requires start { writer.old.at ≡ 0 }
    requires few { marks.lists.used ≤ 65536 }
    ensures same { writer.new.buffer.ghost_name ≡ writer.old.buffer.ghost_name }
    ensures puts { PutsMarks (marks_in (lent marks.entry.lists)) writer.old result writer.new }
{
    for i in 0..marks.lists.used {
        let mark = marks.lists.mark(i);
        let decimals = Decimals::of(mark).ok_or(Refusal::NoDecimal)?;
        put_mark(writer, mark.id, decimals);
    }
    Ok(())
}

// The text of the marks at the front of the buffer: how long it is. Refused: 24, 13, 28 where a coordinate is no decimal's value, and
// 14 where the buffer is shorter than the text. The text is put twice: first into no buffer, which judges the marks and tells how
// long it is.
pub fn export(lists: MarkLists, text: &mut [u8]) -> Result<usize, Refusal>
    ensures { Exports (exporting (lent lists.entry) text.old) result text.new }
{
    lists.fault()?;
    if lists.used > lists.ids.len() {
        return Err(Refusal::Damaged);
    }
    let marks = SoundMarks { lists };
    let mut measure = Writer::new(&mut []);
    put_marks(&mut measure, marks)?;
    let length = measure.at;
    if length > text.len() {
        return Err(Refusal::Short);
    }
    let mut writer = Writer::new(text);
    put_marks(&mut writer, marks).unwrap();
    Ok(length)
}
