// Takes a record from standard input, unfolds each level and prints: n, N, h; then for each level its number, survivors, total count, and since which level all its links stand.
// It keeps 156,160 bytes: the input (65,536), rows and a table (40,960 each), Λ and Δ (4,096 each) and survivor words (512). What is read and printed no contract can say.
#![tactic(auto)]

use answers::{Level, Pyramid, Refusal};
use one_level::Unfolding;
use std::io;

// The survivors of a level, and what unfolding it counts; in an accepted pyramid neither job refuses it.
fn counted(
    pyramid: &Pyramid<'_>,
    level: Level,
    table: &mut [u16],
    words: &mut [u64; 64],
) -> Result<(u32, Unfolding), Refusal> {
    let sizes = pyramid.sizes;
    let survivors = survivor_words::survivors(sizes.darts, sizes.h, pyramid.lambda, level, words)?;
    let all = one_level::unfold(pyramid, level, table)?;
    Ok((survivors, all))
}

// n, N and h; then for each level its number, survivors, total count, and since which level all links stand.
fn print_pyramid(to: &impl Print, pyramid: &Pyramid<'_>, table: &mut [u16]) -> io::Result<()> {
    let mut words = [0u64; 64];
    let n = pyramid.sizes.n;
    let top = pyramid.sizes.h.0;
    println!(to; "{} {} {top}", n.0, pyramid.sizes.darts)?;
    for l in 0..=top {
        match counted(pyramid, Level(l), table, &mut words) {
            Ok((survivors, all)) => println!(to; "{l} {survivors} {} {}", all.count, all.since.0)?,
            Err(r) => programs::refuse(to, r)?,
        }
    }
    Ok(())
}

fn main(rt: HostRuntime) -> io::Result<()> {
    programs::with_pyramid(&mut rt.stdin(), &rt, |pyramid, table| {
        print_pyramid(&rt, pyramid, table)
    })
}
