// A census: the cells of each dimension of each level, and their alternating sum. One climb reaches every level in the lent table, and each is counted there. Assumes nothing.
#![tactic(auto)]

mod level; // level.rt: one explicit level
mod slices; // slices.rt: the census in slices
mod sums; // sums.rt: the alternating sums

ghost use Rattle.std.specs.Prelude.{◌≡◌, ◌+◌};
ghost use Rattle.maps.specs.Accepted.{Accepted};
ghost use Rattle.maps.specs.CheckPyramid.{check_lent, check_leaves, table_at};
ghost use Rattle.answers.specs.Pyramid.{folded};
ghost use Rattle.answers.specs.Numbers.{verdict_of};
ghost use Rattle.counting.specs.Counts.{zeroed, Counted};
ghost use Rattle.counting.specs.Left.{CensusLeft};

use answers::{ABSENT, LEVELS, Level, MOST_ROWS, Pyramid, ROOM, Refusal, Table};
use kernels::{HEADS, Strings};
use level::count_level;
pub use slices::census_into;
use sums::sums_of;

// No count at all.
fn zeros() -> [[u16; MOST_ROWS]; LEVELS]
    ensures { result ≡ zeroed }
{
    [[0u16; MOST_ROWS]; LEVELS]
}

// The counts of all levels, on one climb from the base up, so that the table is left with level h.
fn count_levels(pyramid: &Pyramid<'_>, table: &mut [u16]) -> [[u16; MOST_ROWS]; LEVELS]
    requires { Accepted (folded pyramid.now) table.old }
    ensures counted { Counted (folded pyramid.now) result (pyramid.now.sizes.h.0 + 1) }
    ensures table_left { table.new ≡ table_at (folded pyramid.now) pyramid.now.sizes.h.0 }
{
    let mut strings = Strings {
        head: [ABSENT; HEADS],
        next: [0; ROOM],
    };
    climbing::begin(pyramid, &mut strings, table);
    let n = pyramid.sizes.n;
    let darts = pyramid.sizes.darts;
    let mut counts = zeros();
    let base = Table {
        n,
        darts,
        entries: &*table,
    };
    counts[0] = count_level(&base);
    let top = pyramid.sizes.h.0;
    for l in 0..top {
        let above = l + 1;
        // No kernel is refused: the pyramid is accepted.
        let _ = climbing::go_on(pyramid, &strings, Level(l), Level(above), table);
        let next = Table {
            n,
            darts,
            entries: &*table,
        };
        counts[above as usize] = count_level(&next);
    }
    counts
}

// A census of an accepted pyramid: row l of the counts is level l, entry i of a row its cells of dimension i; unused places are 0. The table is left as a check leaves it; refused, counts and sums are as found.
pub fn census(
    pyramid: &Pyramid<'_>,
    table: &mut [u16],
    cells: &mut [[u16; MOST_ROWS]; LEVELS],
    sums: &mut [i32; LEVELS],
) -> Result<(), Refusal>
    ensures verdict { verdict_of result ≡ check_lent (folded pyramid.now) table.old }
    ensures table_left { table.new ≡ check_leaves (folded pyramid.now) table.old }
    ensures counts { CensusLeft (folded pyramid.now) table.old cells.old sums.old cells.new sums.new }
{
    checking::check(pyramid, table)?;
    let counts = count_levels(pyramid, table);
    *sums = sums_of(counts);
    *cells = counts;
    Ok(())
}
