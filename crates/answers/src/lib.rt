// What all jobs share: levels, dimensions and marks, each way to be refused, and its numbers. Assumes nothing.
#![tactic(auto)]

mod limits; // limits.rt: the numbers that the document names
mod marks; // marks.rt: what a mark lets a walk do, and number 8
mod tables; // tables.rt: an entry of a table, Λ and Δ of a dart
mod tests; // tests.rt: the tests of sizes, of exact lengths and of the level asked

ghost use Rattle.std.specs.Prelude.{◌≡◌};
ghost use Rattle.answers.specs.Numbers.{refusal_of, said};

pub use limits::{
    ABSENT, CONTRACTED, LEVELS, MOST_BYTES, MOST_DARTS, MOST_DIMENSION, MOST_ENTRIES, MOST_HEIGHT,
    MOST_ROWS, PARTNER_DARTS, ROOM, STAY,
};
pub use marks::{
    between, beyond, contracts, has_beyond, is_mark, marks_refusal, marks_refused, removes,
    row_across,
};
use std::fmt;
pub use tables::{Table, at, copy, delta_at, in_kernel, is_gone, lambda_at, survivors_on};
pub use tests::{asked, entries, in_range, lent, pyramid_fits, row_fits, rows_fit};

// A level: Λ, h, or a level asked.
#[derive(Clone, Copy, Debug, PartialEq, Eq, PartialOrd, Ord)]
pub struct Level(pub u8);

// A dimension: n, an involution, or the dimension of a cell.
#[derive(Clone, Copy, Debug, PartialEq, Eq, PartialOrd, Ord)]
pub struct Dim(pub u8);

// A mark: Δ, or a byte of a mark row.
#[derive(Clone, Copy, Debug, PartialEq, Eq, PartialOrd, Ord)]
pub struct Mark(pub u8);

// The two rows between which a mark lets a walk pass; the first is its dimension.
#[derive(Clone, Copy)]
pub struct Passage(pub Dim, pub Dim);

// n, h and N of the pyramid lent.
#[derive(Clone, Copy)]
pub struct Sizes {
    pub n: Dim,
    pub h: Level,
    pub darts: u16,
}

// The pyramid lent: its sizes, its base rows, and Λ and Δ of each dart.
#[derive(Clone, Copy)]
pub struct Pyramid<'a> {
    pub sizes: Sizes,
    pub rows: &'a [u16],
    pub lambda: &'a [u8],
    pub delta: &'a [u8],
}

// Its sizes, with the level that a job is asked.
#[derive(Clone, Copy)]
pub struct AtLevel {
    pub sizes: Sizes,
    pub level: Level,
}

// What a reading is asked: a level, an involution and a dart; 0 where a job is asked less.
#[derive(Clone, Copy)]
pub struct Question {
    pub level: Level,
    pub involution: Dim,
    pub dart: u16,
}

// Each way to be refused. specs/Numbers gives the document's number and values for each.
#[derive(Clone, Copy, Debug, PartialEq, Eq)]
pub enum Refusal {
    Dimension,
    Darts,
    Height,
    Length,
    Strays(Level, Dim, u16),
    NotTwice(Dim, u16),
    NotCommuting(Dim, u16),
    Marks(Level, Dim, u16),
    NotWhole(Level, Dim, u16),
    NotRemovable(Level, Dim, u16),
    NoLevel(Level, Dim, u16),
    NoDart(Level, Dim, u16),
    NoInvolution(Level, Dim, u16),
    NoPass(Level, Dim, u16),
    TooLong(Level, Dim, u16),
    EndsEarly(u16),
    OtherTag(u16),
    WrongLength(u16),
    BytesAfter(u16),
    Full,
    TwoToOne(u16),
    NoRows,
    Contracted(u16),
}

// A refusal as the document prints it; all four are 0 where accepted.
#[derive(Clone, Copy)]
pub struct Numbers {
    pub number: u16,
    pub level: u16,
    pub involution: u16,
    pub dart: u16,
}

fn placed(number: u16, level: Level, involution: Dim, dart: u16) -> Numbers
    ensures { result ≡ record { number = number; level = level.0; involution = involution.0; dart = dart } }
{
    let l = level.0;
    let i = involution.0;
    Numbers {
        number,
        level: l as u16,
        involution: i as u16,
        dart,
    }
}

fn at_offset(number: u16, offset: u16) -> Numbers
    ensures { result ≡ record { number = number; level = 0; involution = 0; dart = offset } }
{
    Numbers {
        number,
        level: 0,
        involution: 0,
        dart: offset,
    }
}

// The document's number and values of a refusal.
impl From<Refusal> for Numbers {
    ghost from_gives = { λ refusal numbers. said numbers ≡ refusal_of refusal };

    fn from(refusal: Refusal) -> Numbers {
        match refusal {
            Refusal::Dimension => at_offset(1, 0),
            Refusal::Darts => at_offset(2, 0),
            Refusal::Height => at_offset(3, 0),
            Refusal::Length => at_offset(4, 0),
            Refusal::Strays(l, i, d) => placed(5, l, i, d),
            Refusal::NotTwice(i, d) => placed(6, Level(0), i, d),
            Refusal::NotCommuting(i, d) => placed(7, Level(0), i, d),
            Refusal::Marks(l, i, d) => placed(8, l, i, d),
            Refusal::NotWhole(l, i, d) => placed(9, l, i, d),
            Refusal::NotRemovable(l, i, d) => placed(10, l, i, d),
            Refusal::NoLevel(l, i, d) => placed(11, l, i, d),
            Refusal::NoDart(l, i, d) => placed(12, l, i, d),
            Refusal::NoInvolution(l, i, d) => placed(13, l, i, d),
            Refusal::NoPass(l, i, d) => placed(14, l, i, d),
            Refusal::TooLong(l, i, d) => placed(15, l, i, d),
            Refusal::EndsEarly(offset) => at_offset(16, offset),
            Refusal::OtherTag(offset) => at_offset(17, offset),
            Refusal::WrongLength(offset) => at_offset(18, offset),
            Refusal::BytesAfter(offset) => at_offset(19, offset),
            Refusal::Full => at_offset(20, 0),
            Refusal::TwoToOne(d) => placed(21, Level(0), Dim(1), d),
            Refusal::NoRows => at_offset(22, 0),
            Refusal::Contracted(d) => at_offset(23, d),
        }
    }
}

// The four numbers, as a program prints them.
impl fmt::Display for Refusal {
    fn fmt<W: fmt::Write>(&self, f: &mut fmt::Formatter<W>) -> fmt::Result {
        let said = Numbers::from(*self);
        write!(
            f,
            "{} {} {} {}",
            said.number, said.level, said.involution, said.dart
        )
    }
}
