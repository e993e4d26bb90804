// Join two kernels of an accepted pyramid that follow each other. Assumes nothing.
#![tactic(auto)]

ghost use Rattle.std.specs.Prelude.{◌≡◌, suc, leb};
ghost use Rattle.maps.specs.Join.{join_lent, join_height, join_lambda, join_leaves};
ghost use Rattle.answers.specs.Pyramid.{lent};
ghost use Rattle.answers.specs.Numbers.{verdict_of};
ghost use Rattle.checking.specs.Answers.{height_of};

use answers::{Dim, Level, Pyramid, Refusal, Sizes};
use joined_kernels::{climb, join_lambda};

// Are there no two kernels from this level on: is the next level not below h?
fn no_pair(h: Level, level: Level) -> bool
    ensures { result ≡ leb h.0 (suc level.0) }
{
    h <= level || h.0 - level.0 == 1
}

// Join the kernels of this level and the next. The pyramid is checked first; Λ is written only once the joined kernel is accepted.
// Lent apart: Λ is written, and a `Pyramid` is read alone.
pub fn join(
    sizes: Sizes,
    rows: &[u16],
    lambda: &mut [u8],
    delta: &[u8],
    table: &mut [u16],
    level: Level,
) -> Result<Level, Refusal>
    ensures answer { verdict_of result ≡ join_lent (lent sizes rows.now lambda.old delta.now) table.old level.0 }
    ensures height { height_of sizes.h.0 result ≡ join_height (lent sizes rows.now lambda.old delta.now) table.old level.0 }
    ensures lambda_left { lambda.new ≡ join_lambda (lent sizes rows.now lambda.old delta.now) table.old level.0 }
    ensures table_left { table.new ≡ join_leaves (lent sizes rows.now lambda.old delta.now) table.old level.0 }
{
    let pyramid = Pyramid {
        sizes,
        rows,
        lambda: &*lambda,
        delta,
    };
    if no_pair(sizes.h, level) {
        checking::check(&pyramid, table)?;
        return Err(Refusal::NoLevel(level, Dim(0), 0));
    }
    checking::early(&pyramid, table)?;
    climb(&pyramid, level, table)?;
    join_lambda(level, lambda);
    Ok(Level(sizes.h.0 - 1))
}
