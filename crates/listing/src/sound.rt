// A library that passes its check, as a listing takes it.
ghost use Rattle.std.specs.Prelude.{◌≡◌};
ghost use Rattle.std.proofs.Math.Option.{none};
ghost use Rattle.basics.specs.Refusals.{fault};
ghost use Rattle.table.specs.Lent.{lent};
ghost use Rattle.rows.specs.Damage.{library_tests};
ghost use Rattle.listing.specs.Counted.{Counted, counted_prop};

use grid_search::GridSearch;
use table::Library;

// Its sheet and its rows, and how many rows each container has, in their order, where that is at hand.
#[derive(Clone, Copy)]
pub struct SoundLibrary<'a> {
    pub sheet: GridSearch,
    pub library: Library<'a>,
    pub counts: Option<&'a [u64]>,
    pub ghost sound: { fault (library_tests sheet (lent library)) ≡ none },
    pub ghost counted: { Counted library.keys.now library.used counts } by { counted_prop library.keys.now library.used counts },
}
