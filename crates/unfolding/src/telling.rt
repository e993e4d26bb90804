// What unfolding each level counts: the sum of its counts, and the largest level since which. A count and a level for each link, 80 KiB, and the strings of the darts by kernel are all the local memory here.
ghost use Rattle.std.specs.Prelude.{◌≡◌, cond, not, suc, ◌*◌, ◌≤◌, length};
ghost use Rattle.maps.specs.UnfoldAll.{by_level, total_at, latest_at};
ghost use Rattle.answers.specs.Pyramid.{folded};
ghost use Rattle.unfolding.specs.Told.{Levels, row_total, row_latest, total_on, latest_on};

use answers::{ABSENT, Dim, Level, MOST_ENTRIES, Pyramid, ROOM};
use carrying::{carry, date};
use kernels::{HEADS, Kernel, Strings};

// The number of a dart, 0 where it is gone: no branch around a load, so that many darts are taken at once.
fn kept(gone: bool, number: u16) -> u16
    ensures { result ≡ cond (not gone) number 0 }
{
    if gone {
        return 0;
    }
    number
}

// The numbers of a row's survivors, summed.
fn row_total(lambda: &[u8], level: Level, row: &[u16]) -> u32
    requires { length lambda.now ≤ 4096 }
    ensures { result ≡ row_total lambda.now level.0 row.now }
{
    let darts = lambda.iter().zip(row);
    darts
        .map(|(own, number)| u32::from(kept(answers::is_gone(Level(*own), level), *number)))
        .sum()
}

// The largest of them.
fn row_latest(lambda: &[u8], level: Level, row: &[u16]) -> u16
    ensures { result ≡ row_latest lambda.now level.0 row.now }
{
    let darts = lambda.iter().zip(row);
    darts
        .map(|(own, number)| kept(answers::is_gone(Level(*own), level), *number))
        .fold(0, |most, number| most.max(number))
}

// The numbers of all survivors, summed over the rows of a table.
fn total(n: Dim, lambda: &[u8], level: Level, table: &[u16]) -> u32
    requires { (n.0 ≤ 4) × (length lambda.now ≤ 4096) × (length table.now ≡ suc n.0 * length lambda.now) }
    ensures { result ≡ total_on n.0 (length lambda.now) lambda.now level.0 table.now }
{
    let darts = lambda.len();
    let mut all: u32 = 0;
    let mut from: usize = 0;
    // By row: std has no law of a loop over chunks_exact.
    for i in 0..n.0 + 1 {
        let to = from + darts;
        all = all + row_total(lambda, level, &table[from..to]);
        from = to;
    }
    all
}

// The largest of them.
fn latest(n: Dim, lambda: &[u8], level: Level, table: &[u16]) -> u16
    requires { (n.0 ≤ 4) × (length lambda.now ≤ 4096) × (length table.now ≡ suc n.0 * length lambda.now) }
    ensures { result ≡ latest_on n.0 (length lambda.now) lambda.now level.0 table.now }
{
    let darts = lambda.len();
    let mut all: u16 = 0;
    let mut from: usize = 0;
    // By row: std has no law of a loop over chunks_exact.
    for i in 0..n.0 + 1 {
        let to = from + darts;
        all = all.max(row_latest(lambda, level, &table[from..to]));
        from = to;
    }
    all
}

// The total count and the largest level since which of every level, 0 above h. The blocks hold the levels.
pub(crate) fn tell(pyramid: &Pyramid<'_>, tables: &[u16], counts: &mut [u32], since: &mut [u8])
    requires { Levels (folded pyramid.now) tables.now × (length counts.old ≡ 33) × (length since.old ≡ 33) }
    ensures counts_left { counts.new ≡ by_level pyramid.now.sizes.h.0 (total_at (folded pyramid.now)) }
    ensures since_left { since.new ≡ by_level pyramid.now.sizes.h.0 (latest_at (folded pyramid.now)) }
{
    let n = pyramid.sizes.n;
    let darts = pyramid.sizes.darts;
    let top = pyramid.sizes.h.0;
    let lambda = pyramid.lambda;
    let size = answers::entries(n, darts);
    let mut strings = Strings {
        head: [ABSENT; HEADS],
        next: [0; ROOM],
    };
    strings.string(lambda);
    let mut most_reads = [1u16; MOST_ENTRIES];
    let mut most_stands = [0u16; MOST_ENTRIES];
    let reads = &mut most_reads[..size];
    let stands = &mut most_stands[..size];
    counts.fill(0);
    since.fill(0);
    let mut from: usize = 0;
    // By level: it picks the string and the block, and is the kernel's own.
    for l in 0..top as usize {
        let level = Level(l as u8);
        counts[l] = total(n, lambda, level, reads);
        since[l] = latest(n, lambda, level, stands) as u8;
        let kernel = Kernel {
            n,
            darts,
            level,
            first: strings.head[l],
            lambda,
            delta: pyramid.delta,
            next: &strings.next,
        };
        let to = from + size;
        let block = &tables[from..to];
        carry(&kernel, block, reads);
        date(&kernel, block, stands);
        from = to;
    }
    counts[top as usize] = total(n, lambda, Level(top), reads);
    since[top as usize] = latest(n, lambda, Level(top), stands) as u8;
}
