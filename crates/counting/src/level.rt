// The cells of one explicit level, counted by their lowest darts; each dart is reached once for each dimension. A choice, a set and a queue of 4,096 darts, 16 KiB, are all the local memory. Assumes nothing.
ghost use Rattle.std.specs.Prelude.{◌≤◌};
ghost use Rattle.maps.specs.Table.{entry};
ghost use Rattle.maps.specs.Explicit.{present};
ghost use Rattle.maps.specs.Census.{CellCount};
ghost use Rattle.orbits.specs.Explicit.{ExplicitLevel};
ghost use Rattle.counting.specs.Counts.{LevelCounted};

use answers::{Dim, MOST_ROWS, ROOM, Table};
use orbits::Search;

// How many cells of one dimension. Darts come in rising order, so one that no cell counted before it has is the lowest of its own.
fn count_cells(table: &Table<'_>, dimension: Dim) -> u16
    requires { ExplicitLevel table.now.n.0 table.now.darts table.now.entries.now × (1 ≤ table.now.n.0) × (dimension.0 ≤ table.now.n.0) }
    ensures { CellCount (entry table.now.darts table.now.entries.now) table.now.n.0 table.now.darts (present table.now.darts table.now.entries.now) dimension.0 result }
{
    let choice = orbits::all_but(dimension);
    let choices = [choice; ROOM];
    let mut reached = [false; ROOM];
    let mut queue = [0u16; ROOM];
    let mut number: u16 = 0;
    // By dart: a search that begins at one changes the flags of others.
    for d in 0..table.darts {
        let place = d as usize;
        if table.there(d) & !reached[place] {
            let search = Search::begin(table.n, table.darts, d);
            orbits::orbit(search, table.entries, &choices, &mut reached, &mut queue);
            number += 1;
        }
    }
    number
}

// The number of cells of each dimension, 0 above n.
pub(crate) fn count_level(table: &Table<'_>) -> [u16; MOST_ROWS]
    requires { ExplicitLevel table.now.n.0 table.now.darts table.now.entries.now × (1 ≤ table.now.n.0) }
    ensures { LevelCounted table.now.n.0 table.now.darts table.now.entries.now result }
{
    let mut row = [0u16; MOST_ROWS];
    // By dimension: the entry is the count of it.
    for i in 0..table.n.0 + 1 {
        row[i as usize] = count_cells(table, Dim(i));
    }
    row
}
