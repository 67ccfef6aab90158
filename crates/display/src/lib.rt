// The text of a library, as gemlab's `impl Display for GridSearch` prints it, put into a lent buffer.
#![tactic(auto)]

ghost use Rattle.std.specs.Prelude.{◌+◌, ◌^◌, ◌≤◌, ◌<◌, ◌≡◌, length, take};
ghost use Rattle.table.specs.Lent.{lent};
ghost use Rattle.table.specs.Posts.{Ordered};
ghost use Rattle.table.specs.Rows.{slots_of};
ghost use Rattle.text.specs.Text.{decimal};
ghost use Rattle.text.specs.Writers.{Puts};
ghost use Rattle.display.specs.Display.{line, named, slots_text, showing, Shows, most_bytes, IsShort};
ghost use Rattle.display.specs.Posts.{Picked, Numbered, fitted};

use basics::Refusal;
use grid_search::GridSearch;
use table::Library;
use text::Writer;

// A container's line.
#[tactic(auto, using(crate::proofs::Texts::line_length))]
fn put_line(out: &mut Writer, key: u64, ids: &[u64])
    requires { out.old.at + length (line key ids.now) < 2 ^ 64 }
    ensures { Puts (line key ids.now) out.old out.new }
{
    out.put_decimal(key);
    out.put_text(b": ");
    out.put_list(ids);
    out.put_byte(b'\n');
}

// A line of the summary that has a number.
#[tactic(auto, using(crate::proofs::Texts::named_length))]
fn put_number(out: &mut Writer, name: &[u8], n: u64)
    requires { out.old.at + length (named name.now (decimal n)) < 2 ^ 64 }
    ensures { Puts (named name.now (decimal n)) out.old out.new }
{
    out.put_text(name);
    out.put_text(b" = ");
    out.put_decimal(n);
    out.put_byte(b'\n');
}

// What the text shows of a library: the divisions of its sheet, the keys and ids of its rows, in their order, and indices of rows
// that name each id once, ascending.
#[derive(Clone, Copy)]
struct Contents<'a> {
    divisions: &'a [u64],
    keys: &'a [u64],
    ids: &'a [u64],
    order: &'a [u16],
    ghost level: { length ids.now ≡ length keys.now },
    ghost in_order: { Ordered keys.now ids.now (length keys.now) },
    ghost each_once: { Picked ids.now order.now },
}

impl Contents<'_> {
    ghost use Rattle.display.specs.Contents.{ids_line, divisions_line, lines, containers, summary_in, text_in};

    // The lines of the containers in use: answers how many there are.
    fn put_lines(self, out: &mut Writer) -> usize
        requires { out.old.at + length (lines self) < 2 ^ 64 }
        ensures puts { Puts (lines self.entry) out.old out.new }
        ensures count { result ≡ containers self.entry }
    {
        let mut n = 0;
        let mut rest = self.ids;
        for run in self.keys.chunk_by(|a, b| a == b) {
            let (ids, others) = rest.split_at(run.len());
            put_line(out, run[0], ids);
            rest = others;
            n += 1;
        }
        n
    }

    // The line of all ids.
    #[tactic(auto, using(crate::proofs::Picks::ids_length))]
    fn put_ids(self, out: &mut Writer)
        requires { out.old.at + length (ids_line self) < 2 ^ 64 }
        ensures { Puts (ids_line self.entry) out.old out.new }
    {
        out.put_text(b"ids = [");
        for (i, row) in self.order.iter().enumerate() {
            out.put_entry(b", ", i, self.ids[*row as usize]);
        }
        out.put_text(b"]\n");
    }

    // The line of the divisions.
    #[tactic(auto, using(crate::proofs::Texts::named_length))]
    fn put_divisions(self, out: &mut Writer)
        requires { out.old.at + length (divisions_line self) < 2 ^ 64 }
        ensures { Puts (divisions_line self.entry) out.old out.new }
    {
        out.put_text(b"ndiv = ");
        out.put_list(self.divisions);
        out.put_byte(b'\n');
    }

    // The lines of the summary, where so many containers are in use.
    #[tactic(auto, using(crate::proofs::Texts::summary_length, crate::proofs::Picks::ids_count))]
    fn put_summary(self, out: &mut Writer, ncontainer: usize)
        requires count { ncontainer ≡ containers self }
        requires room { out.old.at + length (summary_in self) < 2 ^ 64 }
        ensures { Puts (summary_in self.entry) out.old out.new }
    {
        self.put_ids(out);
        put_number(out, b"nitem", self.order.len() as u64);
        put_number(out, b"ncontainer", ncontainer as u64);
        self.put_divisions(out);
    }

    // The whole text.
    #[tactic(auto, using(crate::proofs::Texts::whole_length))]
    fn put_all(self, out: &mut Writer)
        requires { out.old.at + length (text_in self) < 2 ^ 64 }
        ensures { Puts (text_in self.entry) out.old out.new }
    {
        let ncontainer = self.put_lines(out);
        self.put_summary(out, ncontainer);
    }
}

// Indices of rows, one for each id, as the ids ascend, at the front: answers how many there are.
fn pick_ids(order: &mut [u16], ids: &[u64]) -> usize
    requires numbered { Numbered order.old }
    requires each { length order.old ≡ length ids.now }
    ensures most { result ≤ length order.new }
    ensures picked { Picked ids.now (take result order.new) }
{
    sorting::select_by(order, ids)
}

// 0, 1, ..: only what is used of an array is numbered, for a library has mostly few rows.
// Kept: it fills a list with its indices, and converts no value.
fn number(order: &mut [u16])
    requires { length order.old ≤ 65536 }
    ensures same { length order.new ≡ length order.old }
    ensures numbered { Numbered order.new }
{
    for (i, entry) in order.iter_mut().enumerate() {
        *entry = i as u16;
    }
}

// The text is put twice: first into no buffer, which tells how long it is.
fn show(divisions: &[u64], keys: &[u64], ids: &[u64], buffer: &mut [u8]) -> Result<usize, Refusal>
    requires axes { length divisions.now ≤ 3 }
    requires level { length ids.now ≡ length keys.now }
    requires in_order { Ordered keys.now ids.now (length keys.now) }
    requires few { length keys.now ≤ 65536 }
    ensures shows { Shows (fitted (slots_text divisions.now (slots_of keys.now ids.now (length keys.now))) buffer.old) result buffer.new }
    ensures most { length (slots_text divisions.now (slots_of keys.now ids.now (length keys.now))) ≤ most_bytes (length keys.now) }
{
    let mut indices = [0u16; 65536];
    let order = &mut indices[..ids.len()];
    number(order);
    let n = pick_ids(order, ids);
    let contents = Contents {
        divisions,
        keys,
        ids,
        order: &order[..n],
    };
    let mut measure = Writer::new(&mut []);
    contents.put_all(&mut measure);
    if measure.at > buffer.len() {
        return Err(Refusal::Short);
    }
    let mut out = Writer::new(buffer);
    contents.put_all(&mut out);
    Ok(out.at)
}

// The text of a library at the front of the buffer: how long it is. Refused: 24, 13, and 14 where the buffer is shorter than the
// text.
pub fn display(sheet: GridSearch, library: Library, buffer: &mut [u8]) -> Result<usize, Refusal>
    ensures shows { Shows (showing sheet (lent library.entry) buffer.old) result buffer.new }
    ensures most { IsShort sheet (lent library.entry) }
{
    rows::library_fault(sheet, library)?;
    let divisions = [sheet.ndiv.x, sheet.ndiv.y, sheet.ndiv.z];
    let keys = &library.keys[..library.used];
    let ids = &library.ids[..library.used];
    show(&divisions[..sheet.ndim], keys, ids, buffer)
}
