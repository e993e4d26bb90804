// The levels of a pyramid climbed one after the other, each in a block of its own. The strings of the darts by kernel, 8,704 bytes, are all the local memory here.
#![tactic(auto)]

ghost use Rattle.std.specs.Prelude.{◌≡◌, ◌++◌, suc, ◌+◌, ◌*◌, length, take, eqb};
ghost use Rattle.answers.specs.Pyramid.{folded};
ghost use Rattle.answers.specs.Numbers.{verdict_of};
ghost use Rattle.kernels.specs.Ready.{row_of, TestedOn, StrungIn};
ghost use Rattle.climbing.specs.Climb.{Base, climbs};
ghost use Rattle.stacking.specs.Stacked.{size_of, stack_lent, climb_leaves, stack_tables, pair_tested, raised};

use answers::{ABSENT, Level, Pyramid, ROOM, Refusal, Sizes};
use kernels::{HEADS, Kernel, Strings};

// Of two blocks the first is copied into the second.
fn double(size: usize, pair: &mut [u16])
    requires { length pair.old ≡ size + size }
    ensures { pair.new ≡ take size pair.old ++ take size pair.old }
{
    let (first, second) = pair.split_at_mut(size);
    answers::copy(first, second);
}

// One level more: the kernel is tested on the first of two blocks and taken out of its copy in the second. Refused, nothing is written.
fn raise(kernel: &Kernel<'_>, pair: &mut [u16]) -> Result<(), Refusal>
    requires pair_len { (length pair.old ≡ size_of kernel.now + size_of kernel.now) × TestedOn kernel.now (take (size_of kernel.now) pair.old) }
    requires strung { StrungIn kernel.now }
    ensures verdict { verdict_of result ≡ pair_tested kernel.now pair.old }
    ensures pair_left { pair.new ≡ raised kernel.now.n.0 kernel.now.darts kernel.now.level.0 (row_of kernel.now) pair.old }
{
    let size = answers::entries(kernel.n, kernel.darts);
    kernel.tested(&pair[..size])?;
    double(size, pair);
    kernel.remove(&mut pair[size..]);
    Ok(())
}

// Kernels 0 to h−1, in rising order, from the base in the first block; each leaves its level in the block behind.
fn climb(pyramid: &Pyramid<'_>, tables: &mut [u16]) -> Result<(), Refusal>
    requires { Base (folded pyramid.now) × (length tables.old ≡ suc pyramid.now.sizes.h.0 * (suc pyramid.now.sizes.n.0 * pyramid.now.sizes.darts)) }
    ensures verdict { verdict_of result ≡ climbs (folded pyramid.now) }
    ensures tables_left { tables.new ≡ climb_leaves (folded pyramid.now) tables.old }
{
    let n = pyramid.sizes.n;
    let darts = pyramid.sizes.darts;
    let top = pyramid.sizes.h.0;
    let size = pyramid.rows.len();
    let mut strings = Strings {
        head: [ABSENT; HEADS],
        next: [0; ROOM],
    };
    strings.string(pyramid.lambda);
    answers::copy(pyramid.rows, &mut tables[..size]);
    let mut from: usize = 0;
    // By level: it picks the string and the blocks, and is the kernel's own.
    for l in 0..top {
        let kernel = Kernel {
            n,
            darts,
            level: Level(l),
            first: strings.head[l as usize],
            lambda: pyramid.lambda,
            delta: pyramid.delta,
            next: &strings.next,
        };
        let to = from + size + size;
        raise(&kernel, &mut tables[from..to])?;
        from = from + size;
    }
    Ok(())
}

// Has a slice of h+1 blocks the exact length?
fn blocks_fit(sizes: Sizes, length: usize) -> bool
    ensures { result ≡ eqb length (suc sizes.h.0 * (suc sizes.n.0 * sizes.darts)) }
{
    length == (sizes.h.0 as usize + 1) * answers::entries(sizes.n, sizes.darts)
}

// The pyramid is checked, and its levels are left in their blocks, up to the one whose kernel is refused.
pub fn stack(pyramid: &Pyramid<'_>, tables: &mut [u16]) -> Result<(), Refusal>
    ensures verdict { verdict_of result ≡ stack_lent (folded pyramid.now) tables.old }
    ensures tables_left { tables.new ≡ stack_tables (folded pyramid.now) tables.old }
{
    let blocks = blocks_fit(pyramid.sizes, tables.len());
    checking::early_with(pyramid, blocks)?;
    climb(pyramid, tables)
}
