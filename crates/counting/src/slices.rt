// The census in slices, for callers that lend no arrays: row l of the counts stands at 5l. 330 bytes of counts and 132 of sums are kept besides. Assumes nothing.
ghost use Rattle.std.specs.Prelude.{◌≡◌, ◌<◌, length};
ghost use Rattle.maps.specs.Census.{census_lent, census_table};
ghost use Rattle.answers.specs.Pyramid.{folded};
ghost use Rattle.answers.specs.Numbers.{verdict_of};
ghost use Rattle.counting.specs.Slices.{RowPut, CellsPut};
ghost use Rattle.counting.specs.Left.{CensusPutLeft};

use answers::{LEVELS, Level, MOST_ROWS, Pyramid, Refusal};

// The counts of all levels.
const COUNTS: usize = LEVELS * MOST_ROWS;

// One row of counts, to its five places.
fn put_row(row: &[u16; MOST_ROWS], level: Level, cells: &mut [u16])
    requires { (level.0 < 33) × (length cells.old ≡ 165) }
    ensures { RowPut row.now level.0 cells.old cells.new }
{
    let start = MOST_ROWS * usize::from(level.0);
    answers::copy(row, &mut cells[start..start + MOST_ROWS]);
}

// All counts, row after row.
fn put_cells(counts: &[[u16; MOST_ROWS]; LEVELS], cells: &mut [u16])
    requires { length cells.old ≡ 165 }
    ensures { CellsPut counts.now cells.new }
{
    for (l, row) in counts.iter().enumerate() {
        put_row(row, Level(l as u8), cells);
    }
}

// A census into 165 counts and 33 sums; slices of other lengths are refused as all others are.
pub fn census_into(
    pyramid: &Pyramid<'_>,
    table: &mut [u16],
    cells: &mut [u16],
    sums: &mut [i32],
) -> Result<(), Refusal>
    ensures verdict { verdict_of result ≡ census_lent (folded pyramid.now) table.old cells.old sums.old }
    ensures table_left { table.new ≡ census_table (folded pyramid.now) table.old cells.old sums.old }
    ensures counts_left { CensusPutLeft (folded pyramid.now) table.old cells.old sums.old cells.new sums.new }
{
    if cells.len() != COUNTS || sums.len() != LEVELS {
        return answers::lent(pyramid.sizes, false);
    }
    let mut counts = crate::zeros();
    let mut all = [0i32; LEVELS];
    crate::census(pyramid, table, &mut counts, &mut all)?;
    put_cells(&counts, cells);
    answers::copy(&all, sums);
    Ok(())
}
