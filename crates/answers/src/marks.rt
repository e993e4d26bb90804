// What a mark lets a walk do, and number 8: the marks of a dart, and of all darts. Assumes nothing.
ghost use Rattle.std.specs.Prelude.{◌≡◌, true, false, ℕ, ◌<◌, ◌≤◌, length, eqb, ltb, position};
ghost use Rattle.std.specs.List.{zip};
ghost use Rattle.maps.specs.Verdict.{scan};
ghost use Rattle.maps.specs.Mark.{is_mark, stay, between as between_of, lower, has_beyond, beyond as beyond_of};
ghost use Rattle.maps.specs.Table.{each};
ghost use Rattle.maps.specs.Folded.{refused_marks};
ghost use Rattle.maps.specs.MarksBack.{at_marks8};
ghost use Rattle.answers.specs.Numbers.{verdict_of};
ghost use Rattle.answers.specs.Marked.{Goes, marks_refusal};

use super::{CONTRACTED, Dim, Level, Mark, Passage, Refusal, Sizes, delta_at, lambda_at};

// A contraction of dimension δ passes between rows δ and δ−1, and δ−2 lies beyond: what its mark is more than each of the last two.
const CONTRACTED_NEXT: u8 = CONTRACTED + 1;

const CONTRACTED_BEYOND: u8 = CONTRACTED + 2;

// The lower of the two rows between which a mark lets a walk pass; the other is the next.
fn lower_row(mark: Mark) -> Dim
    ensures { result.0 ≡ lower mark.0 }
{
    if CONTRACTED < mark.0 {
        return Dim(mark.0 - CONTRACTED_NEXT);
    }
    Dim(mark.0)
}

// Is a mark a contraction?
pub fn contracts(mark: Mark) -> bool
    ensures { result ≡ ltb 8 mark.0 }
{
    CONTRACTED < mark.0
}

// Is a mark the removal with this dimension? A mark and a dimension are two types, so that `==` has no word for it.
pub fn removes(mark: Mark, dimension: Dim) -> bool
    ensures { result ≡ eqb mark.0 dimension.0 }
{
    mark.0 == dimension.0
}

// Is a byte a mark?
pub fn is_mark(n: Dim, mark: Mark) -> bool
    ensures { result ≡ is_mark n.0 mark.0 }
{
    let low = lower_row(mark);
    low.0 < n.0
}

// The two rows between which a mark lets a walk pass.
pub fn between(mark: Mark) -> Passage
    requires { mark.0 < stay }
    ensures { (result.0.0 ≡ (between_of mark.0).0) × (result.1.0 ≡ (between_of mark.0).1) }
{
    if CONTRACTED < mark.0 {
        return Passage(Dim(mark.0 - CONTRACTED), Dim(mark.0 - CONTRACTED_NEXT));
    }
    Passage(Dim(mark.0), Dim(mark.0 + 1))
}

// The row by which a walk that came by row t goes on past a dart of this mark, if it may.
pub fn row_across(mark: Mark, t: Dim) -> Option<Dim>
    requires { mark.0 < stay }
    ensures { Goes mark.0 t.0 result }
{
    let low = lower_row(mark);
    if t.0 == low.0 {
        return Some(Dim(t.0 + 1));
    }
    if t.0 == low.0 + 1 {
        return Some(Dim(t.0 - 1));
    }
    None
}

// Has the map a row that has to commute with the second of them?
pub fn has_beyond(n: Dim, mark: Mark) -> bool
    ensures { result ≡ has_beyond n.0 mark.0 }
{
    if CONTRACTED < mark.0 {
        return CONTRACTED_NEXT < mark.0;
    }
    if n.0 < 2 {
        return false;
    }
    mark.0 < n.0 - 1
}

// That row.
pub fn beyond(n: Dim, mark: Mark) -> Dim
    requires { (n.0 ≤ 4) × (has_beyond n.0 mark.0 ≡ true) }
    ensures { result.0 ≡ beyond_of mark.0 }
{
    if CONTRACTED < mark.0 {
        return Dim(mark.0 - CONTRACTED_BEYOND);
    }
    Dim(mark.0 + 2)
}

// Number 8 of one dart: are its marks refused?
pub fn marks_refused(n: Dim, h: Level, lambda: Level, delta: Mark) -> bool
    ensures { result ≡ refused_marks n.0 h.0 lambda.0 delta.0 }
{
    if lambda.0 < h.0 {
        return !is_mark(n, delta);
    }
    if h.0 < lambda.0 {
        return true;
    }
    delta.0 != n.0
}

// Are the marks of any dart refused? No branch for each dart, so that many are tested at once.
fn any_refused(n: Dim, h: Level, lambda: &[u8], delta: &[u8]) -> bool
    requires { length delta.now ≡ length lambda.now }
    ensures { result ≡ false → (x : ℕ) → x < length lambda.now → refused_marks n.0 h.0 (each lambda.now x) (each delta.now x) ≡ false }
{
    let mut any = false;
    for (d, own) in lambda.iter().enumerate() {
        any = any | marks_refused(n, h, Level(*own), delta_at(delta, d));
    }
    any
}

// The first dart whose marks are refused.
fn first_refused(sizes: Sizes, lambda: &[u8], delta: &[u8]) -> Option<usize>
    ensures { result ≡ position (λ p. refused_marks sizes.n.0 sizes.h.0 p.0 p.1) (zip lambda.now delta.now) }
{
    let mut marks = lambda.iter().zip(delta);
    marks.position(|(own, mark)| marks_refused(sizes.n, sizes.h, Level(*own), Mark(*mark)))
}

// Number 8 over all darts; the dart is sought only if there is one.
pub fn marks_refusal(sizes: Sizes, lambda: &[u8], delta: &[u8], level: Level) -> Result<(), Refusal>
    ensures { verdict_of result ≡ marks_refusal sizes.n.0 sizes.darts sizes.h.0 lambda.now delta.now level.0 }
{
    let width = sizes.darts as usize;
    if lambda.len() != width || delta.len() != width {
        return Err(Refusal::Length);
    }
    if any_refused(sizes.n, sizes.h, lambda, delta) {
        if let Some(d) = first_refused(sizes, lambda, delta) {
            return Err(Refusal::Marks(level, Dim(0), d as u16));
        }
    }
    Ok(())
}
