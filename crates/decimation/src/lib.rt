// How fast a pyramid shrinks: the factor between the survivors of a level and those of the next. Assumes nothing.
#![tactic(auto)]

ghost use Rattle.std.specs.Prelude.{◌≡◌};
ghost use Rattle.maps.specs.Decimation.{decimation_table};
ghost use Rattle.answers.specs.Pyramid.{folded};
ghost use Rattle.decimation.specs.Answers.{factor_of, factor_between, decimating};

use answers::{Dim, Level, Pyramid, Refusal};

// By which factor the survivors become fewer, or that the next level has no dart.
// No Option: docs/SCOPE.md wants it said by name that the next level has no dart.
#[derive(Clone, Copy)]
pub enum Factor {
    By(f64),
    Empty,
}

// The factor between two counts, or that the second is 0.
fn factor_between(count: u16, next: u16) -> Factor
    ensures { result ≡ factor_between count next }
{
    if next == 0 {
        return Factor::Empty;
    }
    Factor::By(count as f64 / next as f64)
}

// How fast the pyramid shrinks at a level: it is checked first, and then asked.
pub fn decimation(pyramid: &Pyramid<'_>, table: &mut [u16], level: Level) -> Result<Factor, Refusal>
    ensures answer { factor_of result ≡ decimating (folded pyramid.now) table.old level.0 }
    ensures table_left { table.new ≡ decimation_table (folded pyramid.now) table.old level.0 }
{
    checking::check(pyramid, table)?;
    if pyramid.sizes.h <= level {
        return Err(Refusal::NoLevel(level, Dim(0), 0));
    }
    let count = answers::survivors_on(pyramid.lambda, level);
    let next = answers::survivors_on(pyramid.lambda, Level(level.0 + 1));
    Ok(factor_between(count, next))
}
