// Text in ASCII, put into a lent buffer as far as the buffer goes. A writer goes on past the buffer's end, so that one with an empty
// buffer measures.
#![tactic(auto)]

ghost use Rattle.std.specs.Prelude.{◌≡◌, ◌+◌, ◌^◌, ◌<◌, [], ◌∷◌, length};
ghost use Rattle.text.specs.Text.{decimal, entry_text, entries, list_text, refusal, Put};

// A byte at a place of a buffer, if the buffer goes that far: the place past it.
// Kept: a place may lie past the buffer's end, which is how a text is measured.
fn put_at(buffer: &mut [u8], at: usize, byte: u8) -> usize
    requires { at + 1 < 2 ^ 64 }
    ensures { Put (byte ∷ []) buffer.old at buffer.new result }
{
    if at < buffer.len() {
        buffer[at] = byte;
    }
    at + 1
}

// A number in decimal from a place of a buffer on, as far as the buffer goes: the place past it.
// Kept: the place is handed on by itself, since a writer's would be stored and read again for each digit.
fn put_digits(buffer: &mut [u8], at: usize, n: u64) -> usize
    requires { at + length (decimal n) < 2 ^ 64 }
    ensures { Put (decimal n) buffer.old at buffer.new result }
{
    if n < 10 {
        return put_at(buffer, at, b'0' + n as u8);
    }
    let next = put_digits(buffer, at, n / 10);
    put_at(buffer, next, b'0' + (n % 10) as u8)
}

// A lent buffer, and the place where the next byte goes, within the buffer or not.
#[derive(Drop)]
pub struct Writer<'a> {
    pub buffer: &'a mut [u8],
    pub at: usize,
}

impl<'a> Writer<'a> {
    ghost use Rattle.text.specs.Writers.{Puts};

    // A writer at the buffer's start.
    pub fn new(buffer: &'a mut [u8]) -> Writer<'a>
        ensures lent { result.buffer.ghost_name ≡ buffer.entry.ghost_name }
        ensures unchanged { result.buffer.now ≡ buffer.old }
        ensures start { result.at ≡ 0 }
    {
        Writer { buffer, at: 0 }
    }

    // Kept: std's writer into a slice stops at its end; this one counts on there, which measures a text.
    pub fn put_byte(&mut self, byte: u8)
        requires { self.old.at + 1 < 2 ^ 64 }
        ensures { Puts (byte ∷ []) self.old self.new }
    {
        self.at = put_at(self.buffer, self.at, byte);
    }

    // Kept: `write_all` into a slice stops at its end; this one counts on there, as `put_byte` does.
    pub fn put_text(&mut self, text: &[u8])
        requires { self.old.at + length text.now < 2 ^ 64 }
        ensures { Puts text.now self.old self.new }
    {
        for byte in text {
            self.put_byte(*byte);
        }
    }

    // A number in decimal.
    // Kept: with `write!` the proof does not close: std never says that it answers no error.
    pub fn put_decimal(&mut self, n: u64)
        requires { self.old.at + length (decimal n) < 2 ^ 64 }
        ensures { Puts (decimal n) self.old self.new }
    {
        self.at = put_digits(self.buffer, self.at, n);
    }

    // The number at index i of several in a row: past the first it has the text between them in front.
    // Kept: it puts a number as `put_decimal` does, of which `write!` does not promise that it answers no error.
    pub fn put_entry(&mut self, between: &[u8], i: usize, n: u64)
        requires { self.old.at + length (entry_text between.now i n) < 2 ^ 64 }
        ensures { Puts (entry_text between.now i n) self.old self.new }
    {
        if i == 0 {
            self.put_decimal(n)
        } else {
            self.put_text(between);
            self.put_decimal(n)
        }
    }

    // Numbers in a row, with a text between them.
    fn put_entries(&mut self, between: &[u8], numbers: &[u64])
        requires { self.old.at + length (entries between.now 0 numbers.now) < 2 ^ 64 }
        ensures { Puts (entries between.now 0 numbers.now) self.old self.new }
    {
        for (i, n) in numbers.iter().enumerate() {
            self.put_entry(between, i, *n);
        }
    }

    // Numbers as Rust's `{:?}` writes a list of them.
    #[tactic(auto, using(crate::proofs::Laws::list_length))]
    pub fn put_list(&mut self, numbers: &[u64])
        requires { self.old.at + length (list_text numbers.now) < 2 ^ 64 }
        ensures { Puts (list_text numbers.now) self.old self.new }
    {
        self.put_byte(b'[');
        self.put_entries(b", ", numbers);
        self.put_byte(b']');
    }

    // The line that a program prints for a refusal: its number, and those that belong to it.
    #[tactic(auto, using(crate::proofs::Laws::refusal_length))]
    pub fn put_refusal(&mut self, numbers: &[u64])
        requires { self.old.at + length (refusal numbers.now) < 2 ^ 64 }
        ensures { Puts (refusal numbers.now) self.old self.new }
    {
        self.put_text(b"refused ");
        self.put_entries(b" ", numbers);
        self.put_byte(b'\n');
    }
}
