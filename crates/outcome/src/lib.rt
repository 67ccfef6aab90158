// What a program prints once its marks are judged: the text of the library, or the line of a refusal.
#![tactic(auto)]

ghost use Rattle.std.specs.Prelude.{◌≤◌, [], ◌∷◌, length};
ghost use Rattle.basics.specs.Answers.{refusal_number};
ghost use Rattle.table.specs.Lent.{lent};
ghost use Rattle.rows.specs.Insert.{inserted};
ghost use Rattle.text.specs.Text.{refusal, Front};
ghost use Rattle.outcome.specs.Outcome.{library_text, outcome_text};

use basics::Refusal;
use grid_search::GridSearch;
use table::Library;
use text::Writer;

// The line of these numbers, at the front of the buffer: returns its length.
fn put_line(numbers: &[u64], text: &mut [u8; 70804]) -> usize
    requires { length (refusal numbers.now) ≤ 70804 }
    ensures { Front (refusal numbers.now) text.new result }
{
    let mut out = Writer::new(text);
    out.put_refusal(numbers);
    out.at
}

// The line of a number, at the front of the buffer: returns its length.
#[tactic(auto, using(text::proofs::Laws::refusal_short))]
pub fn put_number(number: u64, text: &mut [u8; 70804]) -> usize
    ensures { Front (refusal (number ∷ [])) text.new result }
{
    put_line(&[number], text)
}

// The same where a line of the input belongs to it.
#[tactic(auto, using(text::proofs::Laws::refusal_of_two))]
pub fn put_number_at(number: u64, line: u64, text: &mut [u8; 70804]) -> usize
    ensures { Front (refusal (number ∷ line ∷ [])) text.new result }
{
    put_line(&[number, line], text)
}

// The line of a refusal.
pub fn put_refused(reason: Refusal, text: &mut [u8; 70804]) -> usize
    ensures { Front (refusal (refusal_number reason ∷ [])) text.new result }
{
    put_number(u64::from(reason), text)
}

// The same where a line of the input belongs to it.
pub fn put_refused_at(reason: Refusal, line: u64, text: &mut [u8; 70804]) -> usize
    ensures { Front (refusal (refusal_number reason ∷ line ∷ [])) text.new result }
{
    put_number_at(u64::from(reason), line, text)
}

// The text of a library of at most 1,024 rows: a row takes at most 69 bytes of it and the summary 148, so that it fits.
fn put_library(sheet: GridSearch, library: Library, text: &mut [u8; 70804]) -> usize
    requires { length library.keys.now ≤ 1024 }
    ensures { Front (library_text sheet (lent library.entry)) text.new result }
{
    match display::display(sheet, library, text) {
        Ok(n) => n,
        Err(reason) => put_refused(reason, text),
    }
}

// What is printed of a library of at most 1,024 rows where inserting the marks gave this answer: it stands at the front of the
// buffer, and its length is returned.
#[tactic(auto, unfolding(crate::specs::Outcome::outcome_text))]
pub fn put_outcome(
    sheet: GridSearch,
    library: Library,
    answer: Result<usize, Refusal>,
    text: &mut [u8; 70804],
) -> usize
    requires { length library.keys.now ≤ 1024 }
    ensures { Front (outcome_text sheet (lent library.entry) (inserted answer)) text.new result }
{
    match answer {
        Ok(_) => put_library(sheet, library, text),
        Err(refusal) => put_refused(refusal, text),
    }
}
