// Unfold a whole level: the walks of all its darts, into a lent table. Assumes nothing.
#![tactic(auto)]

ghost use Rattle.std.specs.Prelude.{◌≡◌};
ghost use Rattle.maps.specs.Unfold.{unfold_lent, unfold_total, unfold_since, unfold_leaves};
ghost use Rattle.answers.specs.Numbers.{verdict_of};
ghost use Rattle.answers.specs.Pyramid.{folded};
ghost use Rattle.one_level.specs.Answers.{total_of, latest_of};

use answers::{ABSENT, Dim, Level, Pyramid, Question, Refusal};
pub use filling::Unfolding;

// A whole level into the lent table by direct walks, with the total count and since which level all links stand; after 5, 14 and 15 the table is 65,535 throughout.
pub fn unfold(pyramid: &Pyramid<'_>, level: Level, table: &mut [u16]) -> Result<Unfolding, Refusal>
    ensures verdict { verdict_of result ≡ unfold_lent (folded pyramid.now) level.0 table.old }
    ensures total { total_of result ≡ unfold_total (folded pyramid.now) level.0 table.old }
    ensures since { latest_of result ≡ unfold_since (folded pyramid.now) level.0 table.old }
    ensures table_left { table.new ≡ unfold_leaves (folded pyramid.now) level.0 table.old }
{
    let sizes = pyramid.sizes;
    let lent = answers::pyramid_fits(
        sizes,
        pyramid.rows.len(),
        pyramid.lambda.len(),
        pyramid.delta.len(),
    );
    let fit = lent && answers::rows_fit(sizes.n, sizes.darts, table.len());
    let asked = Question {
        level,
        involution: Dim(0),
        dart: 0,
    };
    answers::asked(sizes, fit, asked)?;
    answers::marks_refusal(sizes, pyramid.lambda, pyramid.delta, level)?;
    let walks = filling::fill(pyramid, level, table);
    if walks.is_err() {
        table.fill(ABSENT);
    }
    walks
}
