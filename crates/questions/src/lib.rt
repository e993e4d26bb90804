// What is tested before either reading of a neighbour. Assumes nothing.
#![tactic(auto)]

ghost use Rattle.std.specs.Prelude.{◌≡◌};
ghost use Rattle.maps.specs.Read.{question as question_of};
ghost use Rattle.answers.specs.Numbers.{verdict_of};
ghost use Rattle.answers.specs.Pyramid.{folded};

use answers::{Pyramid, Question, Refusal, Sizes};

// What is tested before a walk: 1, 2, 3, 4, 11, 13, then 12, 8 and 12 of the starting dart.
pub fn question(pyramid: &Pyramid<'_>, asked: Question) -> Result<(), Refusal>
    ensures { verdict_of result ≡ question_of (folded pyramid.now) asked.level.0 asked.involution.0 asked.dart }
{
    let n = pyramid.sizes.n;
    let h = pyramid.sizes.h;
    let darts = pyramid.sizes.darts;
    let fit = answers::pyramid_fits(
        pyramid.sizes,
        pyramid.rows.len(),
        pyramid.lambda.len(),
        pyramid.delta.len(),
    );
    answers::asked(pyramid.sizes, fit, asked)?;
    let level = asked.level;
    let involution = asked.involution;
    let dart = asked.dart;
    if n.0 < involution.0 {
        return Err(Refusal::NoInvolution(level, involution, dart));
    }
    if darts <= dart {
        return Err(Refusal::NoDart(level, involution, dart));
    }
    let at = dart as usize;
    let own = answers::lambda_at(pyramid.lambda, at);
    if answers::marks_refused(n, h, own, answers::delta_at(pyramid.delta, at)) {
        return Err(Refusal::Marks(level, involution, dart));
    }
    if answers::is_gone(own, level) {
        return Err(Refusal::NoDart(level, involution, dart));
    }
    Ok(())
}
