// What every layer shares: why a call is turned away, and where an item stands. The definitions that they share stand in specs/.
#![tactic(auto)]

ghost use Rattle.std.specs.Prelude.{◌≡◌, position};
ghost use Rattle.basics.specs.Answers.{refusal_number};

// Why a call is turned away, with document 01's number.
#[derive(Clone, Copy, Debug, PartialEq, Eq)]
pub enum Refusal {
    // the dimension is not 2 or 3
    Dimension = 1,
    // another position's length differs from the dimension
    Length = 2,
    // a float is not finite, or past its limit
    Limit = 3,
    // divisions 0
    NoDivisions = 4,
    // divisions 1
    OneDivision = 5,
    // divisions, or an axis of a cell index, above 1,024
    ManyDivisions = 6,
    // xmax is not above xmin on some axis
    Corners = 7,
    // the tolerance is 0 or negative
    Tolerance = 8,
    // the border is negative
    Border = 9,
    // the side of a container is at most twice the tolerance
    Side = 10,
    // the position is outside the sheet or the index
    Outside = 11,
    // the call needs more entries of a lent list than are free
    Full = 12,
    // what was handed in is damaged
    Damaged = 13,
    // the lent list or buffer is shorter than what is to stand in it
    Short = 14,
    // the ends of a line are too close
    Close = 15,
    // a place, a distance or a filter that the dimension has not
    Unfit = 16,
    // a ratio exceeds its divisions
    Ratio = 17,
    // no cells
    NoCells = 18,
    // a corner names no point, or the flat lists hold no whole number of points or cells
    BrokenMesh = 19,
    // the cutoff is outside 0 to 1
    Cutoff = 20,
    // the percentage is outside 0 to 1
    Percentage = 21,
    // no extent, or 0 divisions, on some axis
    NoExtent = 22,
    // every cell is large, and the percentage keeps them so
    AllLarge = 23,
    // a lent list holds more than 65,536 points, cells, rows, places or marks
    TooLong = 24,
    // the coordinate list is not of length 4
    Coordinates = 25,
    // the id that is to be struck off has no row
    NoRow = 26,
    // a line of the text is malformed
    Malformed = 27,
    // a coordinate to export is no decimal's value
    NoDecimal = 28,
    // the used places of a directory do not match the rows
    Mismatch = 29,
}

impl From<Refusal> for u64 {
    ghost from_gives = { λ refusal number. number ≡ refusal_number refusal };

    fn from(refusal: Refusal) -> u64 {
        refusal as u64
    }
}

// Where the first item that equals this one stands: none where there is no such item.
pub fn find<T: PartialEq>(items: &[T], item: &T) -> Option<usize>
    ensures { result ≡ position (λ x. T.eq x item.now) items.now }
{
    items.iter().position(|x| *x == *item)
}
