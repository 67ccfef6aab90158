// The stored answers of a file, and what a call gave beside them.
ghost use Rattle.std.specs.Prelude.{◌≡◌, ◌≤◌, ◌↔◌, IsOk};

use std::cmp::OrderedFloat;
use std::fs::File;
use std::io;
use std::io::Read;
use std::rt::Files;

// What is stored in eight bytes.
pub trait Stored: Copy {
    fn from_bytes(bytes: &[u8; 8]) -> Self;
}

impl Stored for u64 {
    fn from_bytes(bytes: &[u8; 8]) -> u64 {
        records::number_of(bytes)
    }
}

impl Stored for f64 {
    fn from_bytes(bytes: &[u8; 8]) -> f64 {
        records::float_of(bytes)
    }
}

impl Stored for u32 {
    fn from_bytes(bytes: &[u8; 8]) -> u32 {
        (records::number_of(bytes) & 0xffff_ffff) as u32
    }
}

// What a call gives that is stored too.
pub trait Compared: Stored {
    fn same(self, stored: Self) -> bool;

    // Kept: it is not `same` with 0: by == a -0 is the same as 0, and an entry that was cleared has to be +0.
    fn is_zero(self) -> bool;
}

impl Compared for u64 {
    fn same(self, stored: u64) -> bool {
        self == stored
    }

    fn is_zero(self) -> bool {
        self == 0
    }
}

impl Compared for f64 {
    // The same by ==; any two NaNs are the same.
    fn same(self, stored: f64) -> bool {
        OrderedFloat(self) == OrderedFloat(stored)
    }

    // +0, and not -0.
    fn is_zero(self) -> bool {
        self == 0.0 && self.is_sign_positive()
    }
}

// Whether a list has nothing but 0 from an entry on.
// Kept: a slice from there on would be an Option at each of the five calls: no proof here says that the list reaches so far.
pub fn zeros<T: Compared>(got: &[T], from: usize) -> bool {
    got.iter().skip(from).all(|x| x.is_zero())
}

// The number of a refusal.
#[derive(Clone, Copy, PartialEq, Eq)]
pub struct Refused(u64);

// What a number says that the C interface returns: 0 is success.
pub fn outcome(number: u64) -> Result<(), Refused>
    ensures { IsOk result ↔ (number ≡ 0) }
{
    match number {
        0 => Ok(()),
        _ => Err(Refused(number)),
    }
}

// A list of at most N entries.
// Kept: no heap, so an array with a count.
#[derive(Drop)]
pub struct List<T, const N: usize> {
    entries: [T; N],
    len: usize,
    ghost within: { len ≤ N },
}

impl<T: Stored, const N: usize> List<T, N> {
    pub fn new() -> List<T, N> {
        List {
            entries: [T::from_bytes(&[0; 8]); N],
            len: 0,
        }
    }

    pub fn as_slice(&self) -> &[T] {
        &self.entries[..self.len]
    }
}

// A setting: 0 where it is left out, and its value.
// Kept: C takes both words as they stand in the file; an Option has no place for a flag such as 2, nor for a value beside 0.
#[derive(Clone, Copy)]
pub struct Setting<T> {
    pub flag: u64,
    pub value: T,
}

// The answers of a file that were not read yet.
#[derive(Drop)]
pub struct Answers {
    file: File,
}

impl Answers {
    pub fn open(rt: &impl Files<File = File>, path: &str) -> io::Result<Answers> {
        let file = File::open(rt, path)?;
        Ok(Answers { file })
    }

    // The next eight bytes; zeros past the end.
    pub fn bytes(&mut self) -> [u8; 8] {
        let mut bytes = [0; 8];
        let _ = self.file.read_exact(&mut bytes);
        bytes
    }

    pub fn read<T: Stored>(&mut self) -> T {
        T::from_bytes(&self.bytes())
    }

    pub fn outcome(&mut self) -> Result<(), Refused> {
        outcome(self.read())
    }

    pub fn setting<T: Stored>(&mut self) -> Setting<T> {
        Setting {
            flag: self.read(),
            value: self.read(),
        }
    }

    // A list with its length in front, as much of it as fits.
    pub fn list<T: Stored, const N: usize>(&mut self) -> List<T, N> {
        let count: u64 = self.read();
        let len = count.min(N as u64) as usize;
        let mut list = List::new();
        for entry in list.entries.iter_mut().take(len) {
            *entry = self.read();
        }
        list.len = len;
        list
    }

    // Whether the first `count` entries of a list are the next ones of the file, which are read.
    pub fn same<T: Compared>(&mut self, got: &[T], count: u64) -> bool {
        let mut all = true;
        for i in 0..count {
            let stored = self.read();
            all = all && got.get(i as usize).is_some_and(|x| x.same(stored));
        }
        all
    }

    // Whether one of the next `count` entries of the file, which `test` reads, passes it; all of them are read.
    pub fn any<F: FnMut(&mut Answers) -> bool>(&mut self, count: u64, mut test: F) -> bool
        requires { F.IsAlwaysCallable test }
    {
        let mut any = false;
        for _ in 0..count {
            let passes = test(self);
            any = any || passes;
        }
        any
    }
}
