// Goes through a sample of gemlab's answers (data/, laid out as docs/STORED.md says): makes each call, compares what comes
// back with what gemlab gave, and tells how many calls there were and how many differ.
#![tactic(auto)]

mod answers;
mod cells;
mod distances;
mod kinds;
mod library;

use answers::Answers;
use cells::Cells;
use kinds::{Kind, Tallies, UnknownKind};
use library::Library;
use std::fmt::InlineText;
use std::fs::File;
use std::io;
use std::rt::Files;

// Says on standard error why a file could not be opened, in the system's words: its number for them is left out.
fn fail(rt: &impl Eprint, path: &str, error: io::Error) {
    let text = InlineText::<80>::of(error);
    let text = text.as_str();
    let words = match text.split_once(" (os error ") {
        Some((words, _)) => words,
        None => text,
    };
    let _ = eprintln!(rt; "{path}: {words}");
}

// Goes through the entries of a file, up to one of which `entry` makes no call, and counts those whose number is a kind's.
fn go_through<E: FnMut(Result<Kind, UnknownKind>, &mut Answers) -> Option<bool>>(
    rt: &(impl Files<File = File> + Eprint),
    path: &str,
    tallies: &mut Tallies,
    mut entry: E,
)
    requires { E.IsAlwaysCallable entry }
{
    let mut answers = match Answers::open(rt, path) {
        Ok(answers) => answers,
        Err(error) => return fail(rt, path, error),
    };
    // no file has as many
    for _ in 0..u64::MAX {
        let kind = Kind::try_from(answers.read::<u64>());
        let Some(agrees) = entry(kind, &mut answers) else {
            return;
        };
        if let Ok(kind) = kind {
            tallies.count(kind, agrees);
        }
    }
}

fn main(rt: HostRuntime) {
    let mut tallies = Tallies::new();
    let mut library = Library::new();
    go_through(&rt, "libraries.bin", &mut tallies, |kind, answers| {
        library.entry(kind, answers)
    });
    let mut cells = Cells::new();
    go_through(&rt, "meshes.bin", &mut tallies, |kind, answers| {
        cells.entry(kind, answers)
    });
    for kind in [
        Kind::Sheet,
        Kind::Insertion,
        Kind::Striking,
        Kind::Check,
        Kind::Search,
        Kind::Listing,
        Kind::Table,
        Kind::Distance,
        Kind::CellBuild,
        Kind::CellSearch,
    ] {
        tallies.tell(&rt, kind);
    }
}
