// Kernels climbed one after the other, each on its own level. A climb begins with the strings of the darts by kernel and the base in the table, and goes on from the level that the table holds. The strings, 8,704 bytes, are all the local memory. Each function says what it asks of its caller: base and marks that have passed 1 to 8.
#![tactic(auto)]

ghost use Rattle.std.specs.Prelude.{◌≡◌, ◌≤◌, length};
ghost use Rattle.maps.specs.Table.{each};
ghost use Rattle.answers.specs.Numbers.{verdict_of};
ghost use Rattle.answers.specs.Pyramid.{folded};
ghost use Rattle.kernels.specs.Strings.{Unstrung, Linked};
ghost use Rattle.climbing.specs.Climb.{Base, climbs, climb_leaves, climbs_to, climb_to_leaves, GoesOn, Reaches, Leaves};

use answers::{ABSENT, Level, Pyramid, ROOM, Refusal};
use kernels::{HEADS, Kernel, Strings};

// A climb begins: the table holds the base, and the darts are strung by kernel.
pub fn begin(pyramid: &Pyramid<'_>, strings: &mut Strings, table: &mut [u16])
    requires { (length pyramid.now.lambda.now ≤ 4096) × Unstrung strings.old.head strings.old.next × (length table.old ≡ length pyramid.now.rows.now) }
    ensures strung { Linked (length pyramid.now.lambda.now) (each pyramid.now.lambda.now) 0 strings.new.head strings.new.next }
    ensures table_left { table.new ≡ pyramid.now.rows.now }
{
    answers::copy(pyramid.rows, table);
    strings.string(pyramid.lambda);
}

// It goes on: the kernels from one level to below another, in rising order, on the table that holds the first.
pub fn go_on(
    pyramid: &Pyramid<'_>,
    strings: &Strings,
    from: Level,
    to: Level,
    table: &mut [u16],
) -> Result<(), Refusal>
    requires { (from.0 ≤ to.0) × (to.0 ≤ pyramid.now.sizes.h.0) × GoesOn pyramid.now from.0 strings.now.head strings.now.next table.old }
    ensures verdict { Reaches pyramid.now from.0 strings.now.head strings.now.next table.old to.0 (verdict_of result) }
    ensures table_left { Leaves pyramid.now from.0 strings.now.head strings.now.next table.old to.0 table.new }
{
    // By level: it picks the string, and is the kernel's own.
    for l in from.0..to.0 {
        let kernel = Kernel {
            n: pyramid.sizes.n,
            darts: pyramid.sizes.darts,
            level: Level(l),
            first: strings.head[l as usize],
            lambda: pyramid.lambda,
            delta: pyramid.delta,
            next: &strings.next,
        };
        kernel.step(table)?;
    }
    Ok(())
}

// Kernels 0 to level−1, from the base.
pub fn climb_to(pyramid: &Pyramid<'_>, level: Level, table: &mut [u16]) -> Result<(), Refusal>
    requires { Base (folded pyramid.now) × (level.0 ≤ pyramid.now.sizes.h.0) × (length table.old ≡ length pyramid.now.rows.now) }
    ensures verdict { verdict_of result ≡ climbs_to (folded pyramid.now) level.0 }
    ensures table_left { table.new ≡ climb_to_leaves (folded pyramid.now) level.0 }
{
    let mut strings = Strings {
        head: [ABSENT; HEADS],
        next: [0; ROOM],
    };
    begin(pyramid, &mut strings, table);
    go_on(pyramid, &strings, Level(0), level, table)
}

// Kernels 0 to h−1, from the base.
pub fn rise(pyramid: &Pyramid<'_>, table: &mut [u16]) -> Result<(), Refusal>
    requires { Base (folded pyramid.now) × (length table.old ≡ length pyramid.now.rows.now) }
    ensures verdict { verdict_of result ≡ climbs (folded pyramid.now) }
    ensures table_left { table.new ≡ climb_leaves (folded pyramid.now) }
{
    climb_to(pyramid, pyramid.sizes.h, table)
}
