// Unfold all levels in one call: each explicit level in a block of its own, and what unfolding it counts. The counts are carried from one level to the next, so that no walk is walked again.
#![tactic(auto)]

mod telling; // telling.rt: what unfolding each level counts

ghost use Rattle.std.specs.Prelude.{◌≡◌, ◌&&◌, length, eqb};
ghost use Rattle.maps.specs.UnfoldAll.{unfold_all_lent, unfold_all_tables, unfold_all_counts, unfold_all_since};
ghost use Rattle.answers.specs.Pyramid.{folded};
ghost use Rattle.answers.specs.Numbers.{verdict_of};

use answers::{LEVELS, Pyramid, Refusal};
use stacking::stack;
use telling::tell;

// Is there a count and a level since which for every level?
fn both_fit(counts: &[u32], since: &[u8]) -> bool
    ensures { result ≡ (eqb (length counts.now) 33 && eqb (length since.now) 33) }
{
    counts.len() == LEVELS && since.len() == LEVELS
}

// All levels, each in its block, with its total count and the level since which all its links stand. Refused, counts and levels since which are as found.
pub fn unfold_all(
    pyramid: &Pyramid<'_>,
    tables: &mut [u16],
    counts: &mut [u32],
    since: &mut [u8],
) -> Result<(), Refusal>
    ensures verdict { verdict_of result ≡ unfold_all_lent (folded pyramid.now) tables.old counts.old since.old }
    ensures tables_left { tables.new ≡ unfold_all_tables (folded pyramid.now) tables.old counts.old since.old }
    ensures counts_left { counts.new ≡ unfold_all_counts (folded pyramid.now) tables.old counts.old since.old }
    ensures since_left { since.new ≡ unfold_all_since (folded pyramid.now) tables.old counts.old since.old }
{
    let fit = both_fit(counts, since);
    answers::lent(pyramid.sizes, fit)?;
    stack(pyramid, tables)?;
    tell(pyramid, tables, counts, since);
    Ok(())
}
