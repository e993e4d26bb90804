// Start again from a higher level: it becomes the base, and its survivors are packed to the front of what is lent. Assumes nothing.
#![tactic(auto)]

mod reaching; // reaching.rt: the kernels below the level, removed in the rows

ghost use Rattle.std.specs.Prelude.{◌≡◌};
ghost use Rattle.maps.specs.Rebase.{rebase_lent, rebase_rows, rebase_lambda, rebase_delta, rebase_old, rebase_table};
ghost use Rattle.answers.specs.Pyramid.{lent, folded};
ghost use Rattle.answers.specs.Numbers.{verdict_of};
ghost use Rattle.starting_again.specs.Answers.{rebased_of, rebasing};

use answers::{AtLevel, Dim, Level, Pyramid, Refusal, Sizes};

// All tests, in their order.
fn tested(
    pyramid: &Pyramid<'_>,
    level: Level,
    table: &mut [u16],
    old: &[u16],
) -> Result<(), Refusal>
    ensures verdict { verdict_of result ≡ rebase_lent (folded pyramid.now) table.old level.0 old.now }
    ensures table_left { table.new ≡ rebase_table (folded pyramid.now) table.old level.0 old.now }
{
    answers::lent(
        pyramid.sizes,
        answers::row_fits(pyramid.sizes.darts, old.len()),
    )?;
    checking::check(pyramid, table)?;
    if pyramid.sizes.h < level {
        return Err(Refusal::NoLevel(level, Dim(0), 0));
    }
    if answers::survivors_on(pyramid.lambda, level) == 0 {
        return Err(Refusal::Darts);
    }
    Ok(())
}

// Start again, with the new pyramid's sizes as the answer: nothing is changed before all is tested; the lent row has the ranks until the rows are packed, and then the old numbers.
// Lent apart: all is written, and a `Pyramid` is read alone.
pub fn rebase(
    at: AtLevel,
    rows: &mut [u16],
    lambda: &mut [u8],
    delta: &mut [u8],
    table: &mut [u16],
    old: &mut [u16],
) -> Result<Sizes, Refusal>
    ensures answer { rebased_of at.sizes result ≡ rebasing (lent at.sizes rows.old lambda.old delta.old) table.old at.level.0 old.old }
    ensures rows_left { rows.new ≡ rebase_rows (lent at.sizes rows.old lambda.old delta.old) table.old at.level.0 old.old }
    ensures lambda_left { lambda.new ≡ rebase_lambda (lent at.sizes rows.old lambda.old delta.old) table.old at.level.0 old.old }
    ensures delta_left { delta.new ≡ rebase_delta (lent at.sizes rows.old lambda.old delta.old) table.old at.level.0 old.old }
    ensures table_left { table.new ≡ rebase_table (lent at.sizes rows.old lambda.old delta.old) table.old at.level.0 old.old }
    ensures old_left { old.new ≡ rebase_old (lent at.sizes rows.old lambda.old delta.old) table.old at.level.0 old.old }
{
    let sizes = at.sizes;
    let level = at.level;
    let pyramid = Pyramid {
        sizes,
        rows: &*rows,
        lambda: &*lambda,
        delta: &*delta,
    };
    tested(&pyramid, level, table, old)?;
    reaching::climb(sizes.n, sizes.darts as usize, level, lambda, delta, rows);
    let count = packing::rank(lambda, level, old);
    packing::pack_rows(sizes.n, lambda, level, old, count as usize, rows);
    packing::pack_marks(level, lambda, delta, old);
    Ok(Sizes {
        n: sizes.n,
        h: Level(sizes.h.0 - level.0),
        darts: count,
    })
}
