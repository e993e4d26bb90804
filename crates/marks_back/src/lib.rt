// The mark row of a level, read back out of Λ and Δ into a lent row. Assumes nothing.
#![tactic(auto)]

ghost use Rattle.std.specs.Prelude.{◌≡◌, cond, ◌&&◌, length, eqb, ltb};
ghost use Rattle.maps.specs.Mark.{stay};
ghost use Rattle.maps.specs.Folded.{marks};
ghost use Rattle.maps.specs.Table.{each, listed};
ghost use Rattle.maps.specs.MarksBack.{marks_lent, marks_leaves};
ghost use Rattle.answers.specs.Numbers.{verdict_of};

use answers::{Dim, Level, Mark, Question, Refusal, STAY, Sizes};

// Δ where Λ is that level, else 255; for level h 255.
fn mark_at(h: Level, lambda: Level, delta: Mark, level: Level) -> Mark
    ensures { result.0 ≡ cond (ltb level.0 h.0 && eqb lambda.0 level.0) delta.0 stay }
{
    if h <= level {
        return Mark(STAY);
    }
    if !answers::in_kernel(lambda, level) {
        return Mark(STAY);
    }
    delta
}

// The mark row, dart by dart.
fn fill_marks(h: Level, lambda: &[u8], delta: &[u8], level: Level, out: &mut [u8])
    requires { (length lambda.now ≡ length out.old) × (length delta.now ≡ length out.old) }
    ensures { out.new ≡ listed (marks h.0 (each lambda.now) (each delta.now) level.0) (length out.old) }
{
    // By index: through iter_mut the compiler takes one dart at a time, 8 to 10 times the instructions.
    for d in 0..out.len() {
        let own = answers::lambda_at(lambda, d);
        let mark = mark_at(h, own, answers::delta_at(delta, d), level);
        out[d] = mark.0;
    }
}

// Have Λ, Δ and the row lent the exact length?
fn all_fit(darts: u16, lambda: &[u8], delta: &[u8], out: &[u8]) -> bool
    ensures { result ≡ (eqb (length lambda.now) darts && (eqb (length delta.now) darts && eqb (length out.now) darts)) }
{
    answers::row_fits(darts, lambda.len())
        && answers::row_fits(darts, delta.len())
        && answers::row_fits(darts, out.len())
}

// The mark row of a level, read back. After a refusal nothing lent has changed.
pub fn marks_of(
    sizes: Sizes,
    lambda: &[u8],
    delta: &[u8],
    level: Level,
    out: &mut [u8],
) -> Result<(), Refusal>
    ensures verdict { verdict_of result ≡ marks_lent sizes.n.0 sizes.darts sizes.h.0 lambda.now delta.now level.0 out.old }
    ensures out_left { out.new ≡ marks_leaves sizes.n.0 sizes.darts sizes.h.0 lambda.now delta.now level.0 out.old }
{
    let fit = all_fit(sizes.darts, lambda, delta, out);
    let question = Question {
        level,
        involution: Dim(0),
        dart: 0,
    };
    answers::asked(sizes, fit, question)?;
    answers::marks_refusal(sizes, lambda, delta, level)?;
    fill_marks(sizes.h, lambda, delta, level, out);
    Ok(())
}
