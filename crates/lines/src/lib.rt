// The lines of a text.
#![tactic(auto)]

ghost use Rattle.std.specs.Prelude.{◌≤◌, ◌<◌, ◌≡◌, [], ◌∷◌, length, MatchOption};
ghost use Rattle.lines.specs.Lines.{without_cr, lines};
ghost use Rattle.lines.specs.Posts.{IsLine};

// An iterator over the lines of a text, each without its LF or CR LF.
#[derive(Clone, Copy)]
pub struct Lines<'a> {
    // what is left of the text
    pub rest: &'a [u8],
}

impl<'a> Lines<'a> {
    pub fn new(text: &'a [u8]) -> Lines<'a>
        ensures { result.rest.now ≡ text.now }
    {
        Lines { rest: text }
    }
}

impl<'a> Iterator for Lines<'a> {
    ghost use Rattle.std.specs.Iterator.{YieldsFirstRef, item_count};
    ghost use Rattle.lines.specs.Left.{lines_left};

    type Item = &'a [u8];

    ghost next_gives = { YieldsFirstRef lines_left };

    ghost remaining = { item_count lines_left };

    fn next(&mut self) -> Option<&'a [u8]> {
        let (line, rest) = first_line(self.rest)?;
        self.rest = rest;
        Some(line)
    }
}

// Where the line that starts at an index ends, its LF or CR LF left out, and where the next one starts.
#[derive(Clone, Copy)]
pub struct Line {
    pub end: usize,
    pub next: usize,
}

// The line that starts at an index of a text.
// Kept: the index is a place in the text, which a caller may go on from, and is not its length.
pub fn line_at(text: &[u8], at: usize) -> Line
    requires { at < length text.now }
    ensures { IsLine text.now at result }
{
    let rest = &text[at..];
    let Some(n) = basics::find(rest, &b'\n') else {
        // the last line, which lacks its end
        return Line {
            end: text.len(),
            next: text.len(),
        };
    };
    let line = stripped(&rest[..n]);
    Line {
        end: at + line.len(),
        next: at + n + 1,
    }
}

// The first line of a text, and what stands after it.
fn first_line(text: &[u8]) -> Option<(&[u8], &[u8])>
    ensures { MatchOption result (lines text.now ≡ [])
        (λ found. lines text.now ≡ found.0.now ∷ lines found.1.now) }
{
    if text.is_empty() {
        return None;
    }
    let line = line_at(text, 0);
    Some((&text[..line.end], &text[line.next..]))
}

// What stands before an LF, without the CR that belongs to the line's end.
fn stripped(line: &[u8]) -> &[u8]
    ensures without_cr { result.now ≡ without_cr line.now }
    ensures most { length result.now ≤ length line.now }
{
    line.strip_suffix(b"\r").unwrap_or(line)
}
