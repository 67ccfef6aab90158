// Reads a surveyor's text from standard input, builds a sheet on three axes from the extremes of its marks, and goes on as the
// program `catalogue` does: prints the library of the marks as gemlab's `Display` does, or `refused N` alone, `refused 27 L` where
// line L is malformed. It holds 1,024 marks and 131,072 bytes.
#![tactic(auto)]

ghost use Rattle.std.specs.Prelude.{take};
ghost use Rattle.text.specs.Text.{Front};
ghost use Rattle.files.specs.Counts.{IsPrefixLen};
ghost use Rattle.files.specs.Files.{input_answer};
ghost use Rattle.files.specs.Read.{Came};
ghost use Rattle.surveyed.specs.Surveyed.{input_text};
ghost use Rattle.survey.specs.Printed.{Printed};

use basics::Refusal;
use files::InputError;
use std::io;

// How many bytes came: none where standard input is not held or cannot be read.
fn came(input: Result<usize, InputError>, bytes: &[u8; 131072]) -> usize
    requires { Came input bytes.now }
    ensures { IsPrefixLen result bytes.now }
{
    input.unwrap_or(0)
}

// What is printed of what reading standard input answered, and of the bytes that came.
fn put_input(input: Result<usize, InputError>, bytes: &[u8], text: &mut [u8; 70804]) -> usize
    ensures { Front (input_text (input_answer input) bytes.now) text.new result }
{
    match input {
        Ok(_) => surveyed::put_survey(bytes, text),
        Err(InputError::Longer) => outcome::put_refused(Refusal::Full, text),
        Err(InputError::Unreadable) => outcome::put_refused(Refusal::Damaged, text),
    }
}

// What is printed of standard input: it stands at the front of the buffer.
// Kept: of a `Display` nothing could be proved: std does not promise that a write answers no error.
fn put_text(stdin: &impl io::Input, text: &mut [u8; 70804]) -> usize
    ensures prefix_len { IsPrefixLen result text.new }
    ensures printed { Printed (take result text.new) }
{
    let mut bytes = [0u8; 131072];
    let input = files::read_input(stdin, &mut bytes);
    let n = came(input, &bytes);
    put_input(input, &bytes[..n], text)
}

// Kept: one `main` for both programs would take `put_text` as a closure, and ask of it that the text fits: longer than both are.
fn main(rt: HostRuntime) {
    let mut text = [0u8; 70804];
    let n = put_text(&rt, &mut text);
    files::write_text(
        &rt.stdout(),
        &rt.stderr(),
        &text[..n],
        b"survey: the text could not be written whole\n",
    );
}
