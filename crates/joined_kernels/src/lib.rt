// Two kernels that follow each other, joined: Λ then, and the joined kernel tested on the way up. Assumes nothing but what is asked.
#![tactic(auto)]

ghost use Rattle.std.specs.Prelude.{◌≡◌, cond, suc, ◌-◌, ◌<◌, length, ltb};
ghost use Rattle.maps.specs.Table.{each, listed};
ghost use Rattle.maps.specs.Join.{joinΛ};
ghost use Rattle.answers.specs.Pyramid.{folded};
ghost use Rattle.answers.specs.Numbers.{verdict_of};
ghost use Rattle.climbing.specs.Climb.{Base};
ghost use Rattle.joined_kernels.specs.Climbed.{climbs_joined, climb_joined_leaves, Reached, Tells};

use answers::{ABSENT, Level, Pyramid, ROOM, Refusal};
use kernels::{HEADS, Kernel, Strings};

// Λ of a dart once the kernels of this level and the next are joined.
pub fn lambda_joined(level: Level, lambda: Level) -> Level
    ensures { result.0 ≡ cond (ltb level.0 lambda.0) (lambda.0 - 1) lambda.0 }
{
    if level < lambda {
        return Level(lambda.0 - 1);
    }
    lambda
}

// Λ of all darts once they are joined, in place.
pub fn join_lambda(level: Level, lambda: &mut [u8])
    ensures { lambda.new ≡ listed (joinΛ level.0 (each lambda.old)) (length lambda.old) }
{
    for own in lambda.iter_mut() {
        *own = lambda_joined(level, Level(*own)).0;
    }
}

// The same, in a row of its own.
fn join_row(level: Level, lambda: &[u8], joined: &mut [u8])
    requires { length joined.old ≡ length lambda.now }
    ensures { joined.new ≡ listed (joinΛ level.0 (each lambda.now)) (length lambda.now) }
{
    answers::copy(lambda, joined);
    join_lambda(level, joined);
}

// Number 9 of the joined kernel, on the table that holds its level. The joined Λ and its strings, 12,800 bytes, are local.
fn tested(pyramid: &Pyramid<'_>, level: Level, table: &[u16]) -> Result<(), Refusal>
    requires { Reached (folded pyramid.now) level.0 table.now }
    ensures { Tells (folded pyramid.now) level.0 (verdict_of result) }
{
    let width = pyramid.sizes.darts as usize;
    let mut joined = [0u8; ROOM];
    join_row(level, pyramid.lambda, &mut joined[..width]);
    let mut strings = Strings {
        head: [ABSENT; HEADS],
        next: [0; ROOM],
    };
    strings.string(&joined[..width]);
    let kernel = Kernel {
        n: pyramid.sizes.n,
        darts: pyramid.sizes.darts,
        level,
        first: strings.head[level.0 as usize],
        lambda: &joined[..width],
        delta: pyramid.delta,
        next: &strings.next,
    };
    kernel.whole(table)
}

// All kernels, from the base, and on the way up, on its level, the joined one, whose refusal comes last. Only such a refusal climbs again, to leave that level. The strings, 8,704 bytes, are local.
pub fn climb(pyramid: &Pyramid<'_>, level: Level, table: &mut [u16]) -> Result<(), Refusal>
    requires { Base (folded pyramid.now) × (suc level.0 < pyramid.now.sizes.h.0) × (length table.old ≡ length pyramid.now.rows.now) }
    ensures verdict { verdict_of result ≡ climbs_joined (folded pyramid.now) level.0 }
    ensures table_left { table.new ≡ climb_joined_leaves (folded pyramid.now) level.0 }
{
    let mut strings = Strings {
        head: [ABSENT; HEADS],
        next: [0; ROOM],
    };
    climbing::begin(pyramid, &mut strings, table);
    climbing::go_on(pyramid, &strings, Level(0), level, table)?;
    let found = tested(pyramid, level, table);
    climbing::go_on(pyramid, &strings, level, pyramid.sizes.h, table)?;
    if found.is_err() {
        let _ = climbing::climb_to(pyramid, level, table);
    }
    found
}
