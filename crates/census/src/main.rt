// Takes a record from standard input and prints its census: for each level its number, its cells of each dimension, and their alternating sum.
// It keeps 156,110 bytes: the input (65,536), rows and a table (40,960 each), Λ and Δ (4,096 each), counts (330) and sums (132). What is read and printed no contract can say.
#![tactic(auto)]

ghost use Rattle.std.specs.Prelude.{◌≤◌};

use answers::{Dim, LEVELS, Level, MOST_ROWS, Pyramid};
use std::io;

// Number, the n+1 counts, sum.
fn level_line(
    to: &impl Print,
    n: Dim,
    level: Level,
    counts: &[u16; MOST_ROWS],
    sum: i32,
) -> io::Result<()>
    requires { n.0 ≤ 4 }
{
    print!(to; "{}", level.0)?;
    let rows = usize::from(n.0) + 1;
    for count in &counts[..rows] {
        print!(to; " {count}")?;
    }
    println!(to; " {sum}")
}

// Each level's line.
fn all_levels(
    to: &impl Print,
    n: Dim,
    h: Level,
    cells: &[[u16; MOST_ROWS]; LEVELS],
    sums: &[i32; LEVELS],
) -> io::Result<()>
    requires { (n.0 ≤ 4) × (h.0 ≤ 32) }
{
    for (level, (counts, sum)) in (0..=h.0).zip(cells.iter().zip(sums)) {
        level_line(to, n, Level(level), counts, *sum)?;
    }
    Ok(())
}

// The census of the pyramid of a record, which checks it first.
fn print_census(to: &impl Print, pyramid: &Pyramid<'_>, table: &mut [u16]) -> io::Result<()> {
    let mut cells = [[0u16; MOST_ROWS]; LEVELS];
    let mut sums = [0i32; LEVELS];
    match counting::census(pyramid, table, &mut cells, &mut sums) {
        Err(r) => programs::refuse(to, r),
        Ok(()) => all_levels(to, pyramid.sizes.n, pyramid.sizes.h, &cells, &sums),
    }
}

fn main(rt: HostRuntime) -> io::Result<()> {
    programs::with_pyramid(&mut rt.stdin(), &rt, |pyramid, table| {
        print_census(&rt, pyramid, table)
    })
}
