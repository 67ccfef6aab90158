// The kinds of entries that the files have, and how many of each there were.
ghost use Rattle.replay.specs.Kinds.{Decodes};

use std::fmt;

// What an entry stores.
#[derive(Clone, Copy)]
pub enum Kind {
    Sheet,
    Insertion,
    Search,
    Listing,
    Table,
    Distance,
    Mesh,
    CellBuild,
    CellSearch,
    Striking,
    Check,
}

// A number that is no kind's, as the 0 that ends a file.
#[derive(Clone, Copy)]
pub struct UnknownKind(pub u64);

// By the numbers of docs/STORED.md.
impl TryFrom<u64> for Kind {
    type Error = UnknownKind;

    ghost try_from_gives = { Decodes };

    fn try_from(number: u64) -> Result<Kind, UnknownKind> {
        match number {
            1 => Ok(Kind::Sheet),
            2 => Ok(Kind::Insertion),
            3 => Ok(Kind::Search),
            4 => Ok(Kind::Listing),
            5 => Ok(Kind::Table),
            6 => Ok(Kind::Distance),
            7 => Ok(Kind::Mesh),
            8 => Ok(Kind::CellBuild),
            9 => Ok(Kind::CellSearch),
            10 => Ok(Kind::Striking),
            11 => Ok(Kind::Check),
            _ => Err(UnknownKind(number)),
        }
    }
}

// What its entries are called.
impl fmt::Display for Kind {
    fn fmt<W: fmt::Write>(&self, f: &mut fmt::Formatter<W>) -> fmt::Result {
        f.write_str(match self {
            Kind::Sheet => "sheets",
            Kind::Insertion => "insertions",
            Kind::Search => "searches",
            Kind::Listing => "listings",
            Kind::Table => "tables",
            Kind::Distance => "distances",
            Kind::Mesh => "meshes",
            Kind::CellBuild => "cell builds",
            Kind::CellSearch => "cell searches",
            Kind::Striking => "strikings",
            Kind::Check => "checks",
        })
    }
}

// How many entries there were, and how many of them differ.
#[derive(Clone, Copy)]
struct Tally {
    entries: u64,
    differing: u64,
}

// A tally for each kind.
#[derive(Clone, Copy)]
pub struct Tallies([Tally; 11]);

impl Tallies {
    pub fn new() -> Tallies {
        Tallies([Tally {
            entries: 0,
            differing: 0,
        }; 11])
    }

    // Kept: `agrees` is what is counted, as the calls answer it; an enum of two would be made of it and matched at once.
    pub fn count(&mut self, kind: Kind, agrees: bool) {
        let tally = &mut self.0[kind as usize];
        tally.entries = tally.entries.wrapping_add(1);
        if !agrees {
            tally.differing = tally.differing.wrapping_add(1);
        }
    }

    pub fn tell(&self, out: &impl Print, kind: Kind) {
        let Tally { entries, differing } = self.0[kind as usize];
        let _ = println!(out; "{kind}: {entries}, {differing} differ");
    }
}
