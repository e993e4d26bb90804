// The tests that a job begins with: sizes, exact lengths, and the level asked. Assumes nothing.
ghost use Rattle.std.specs.Prelude.{◌≡◌, ◌&&◌, suc, ◌*◌, eqb};
ghost use Rattle.maps.specs.Sizes.{sizes as sizes_of};
ghost use Rattle.answers.specs.Numbers.{verdict_of};
ghost use Rattle.answers.specs.Lent.{lent_of, asked_of};

use super::{Dim, MOST_DARTS, MOST_DIMENSION, MOST_HEIGHT, Question, Refusal, Sizes};

// Numbers 1, 2 and 3.
pub fn in_range(sizes: Sizes) -> Result<(), Refusal>
    ensures { verdict_of result ≡ sizes_of sizes.n.0 sizes.darts sizes.h.0 }
{
    if sizes.n.0 < 1 {
        return Err(Refusal::Dimension);
    }
    if MOST_DIMENSION < sizes.n.0 {
        return Err(Refusal::Dimension);
    }
    if sizes.darts < 1 {
        return Err(Refusal::Darts);
    }
    if MOST_DARTS < sizes.darts {
        return Err(Refusal::Darts);
    }
    if MOST_HEIGHT < sizes.h.0 {
        return Err(Refusal::Height);
    }
    Ok(())
}

// The entries of n+1 rows.
pub fn entries(n: Dim, darts: u16) -> usize
    ensures { result ≡ suc n.0 * darts }
{
    (n.0 as usize + 1) * darts as usize
}

// Has a slice of n+1 rows the exact length?
pub fn rows_fit(n: Dim, darts: u16, length: usize) -> bool
    ensures { result ≡ eqb length (suc n.0 * darts) }
{
    length == entries(n, darts)
}

// Has a slice of one number for each dart the exact length?
pub fn row_fits(darts: u16, length: usize) -> bool
    ensures { result ≡ eqb length darts }
{
    length == darts as usize
}

// Have base rows, Λ and Δ of these lengths the exact ones?
pub fn pyramid_fits(sizes: Sizes, rows: usize, lambda: usize, delta: usize) -> bool
    ensures { result ≡ (eqb rows (suc sizes.n.0 * sizes.darts) && (eqb lambda sizes.darts && eqb delta sizes.darts)) }
{
    let marks = row_fits(sizes.darts, lambda) && row_fits(sizes.darts, delta);
    rows_fit(sizes.n, sizes.darts, rows) && marks
}

// Numbers 1 to 4: the sizes, and whether every slice lent has the exact length.
pub fn lent(sizes: Sizes, fit: bool) -> Result<(), Refusal>
    ensures { verdict_of result ≡ lent_of sizes.n.0 sizes.darts sizes.h.0 fit }
{
    in_range(sizes)?;
    if !fit {
        return Err(Refusal::Length);
    }
    Ok(())
}

// Numbers 1 to 4 and 11, which repeats what was asked.
pub fn asked(sizes: Sizes, fit: bool, question: Question) -> Result<(), Refusal>
    ensures { verdict_of result ≡ asked_of sizes.n.0 sizes.darts sizes.h.0 fit question.level.0 question.involution.0 question.dart }
{
    lent(sizes, fit)?;
    let level = question.level;
    if sizes.h.0 < level.0 {
        let involution = question.involution;
        return Err(Refusal::NoLevel(level, involution, question.dart));
    }
    Ok(())
}
