// A row handed back: a part of the base rows or of an unfolded level, and no copy. Assumes nothing.
#![tactic(auto)]

ghost use Rattle.std.specs.Prelude.{◌≡◌, ◌&&◌, ◌*◌, suc, length, eqb};
ghost use Rattle.maps.specs.Row.{row_lent, row_part};
ghost use Rattle.answers.specs.Numbers.{verdict_of};

use answers::{Dim, Level, Question, Refusal, Sizes};

// Have the base rows and the unfolded table the exact length?
fn both_fit(n: Dim, darts: u16, base: &[u16], unfolded: &[u16]) -> bool
    ensures { result ≡ (eqb (length base.now) (suc n.0 * darts) && eqb (length unfolded.now) (suc n.0 * darts)) }
{
    answers::rows_fit(n, darts, base.len()) && answers::rows_fit(n, darts, unfolded.len())
}

// Is the row refused? Both slices are measured, at level 0 too.
pub fn row_refusal(
    sizes: Sizes,
    base: &[u16],
    unfolded: &[u16],
    level: Level,
    involution: Dim,
) -> Result<(), Refusal>
    ensures { verdict_of result ≡ row_lent sizes.n.0 sizes.darts sizes.h.0 base.now unfolded.now level.0 involution.0 }
{
    let fit = both_fit(sizes.n, sizes.darts, base, unfolded);
    let question = Question {
        level,
        involution,
        dart: 0,
    };
    answers::asked(sizes, fit, question)?;
    if sizes.n < involution {
        return Err(Refusal::NoInvolution(level, involution, 0));
    }
    Ok(())
}

// The row: for level 0 part of the base rows, for any other level part of the unfolded table; refused, an empty part of the base rows.
pub fn row<'a>(
    sizes: Sizes,
    base: &'a [u16],
    unfolded: &'a [u16],
    level: Level,
    involution: Dim,
) -> &'a [u16]
    ensures { result.now ≡ row_part sizes.n.0 sizes.darts sizes.h.0 base.now unfolded.now level.0 involution.0 }
{
    match row_refusal(sizes, base, unfolded, level, involution) {
        Err(_) => &base[0..0],
        Ok(()) => {
            let i = involution.0;
            let length = sizes.darts as usize;
            let start = i as usize * length;
            let end = start + length;
            if level.0 == 0 {
                &base[start..end]
            } else {
                &unfolded[start..end]
            }
        },
    }
}
