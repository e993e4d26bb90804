// Check a whole pyramid, with one lent table, and add a level. An add's new Λ and Δ, 8,192 bytes, are all the local memory here. Assumes nothing.
ghost use Rattle.std.specs.Prelude.{◌≡◌, false, cond, ◌&&◌, ◌||◌, not, ℕ, suc, ◌*◌, ◌≤◌, ◌<◌, length, eqb, position};
ghost use Rattle.std.specs.List.{zip, fold};
ghost use Rattle.maps.specs.Mark.{is_mark, stay};
ghost use Rattle.maps.specs.Table.{each, listed};
ghost use Rattle.maps.specs.Folded.{addΛ, addΔ};
ghost use Rattle.maps.specs.MarkRow.{Row};
ghost use Rattle.maps.specs.Verdict.{accepted};
ghost use Rattle.maps.specs.CheckPyramid.{check_lent, check_leaves};
ghost use Rattle.maps.specs.AddLevel.{refused_mark, add_lent, add_height, add_lambda, add_delta, add_leaves};
ghost use Rattle.answers.specs.Pyramid.{lent, folded};
ghost use Rattle.answers.specs.Numbers.{verdict_of};
ghost use Rattle.climbing.specs.Climb.{Base};
ghost use Rattle.checking.specs.Checked.{lengths_with, Measured, MeasuredRow, base_and_marks, early_with, early_of};
ghost use Rattle.checking.specs.Added.{add_sizes, row_marks, add_marks, ascends, ascend_leaves};
ghost use Rattle.checking.specs.Answers.{height_of};

use answers::{Dim, Level, MOST_HEIGHT, Mark, Pyramid, ROOM, Refusal, STAY, Sizes};

// Have base rows, Λ and Δ the exact lengths, and what else is lent?
fn fit(pyramid: &Pyramid<'_>, others: bool) -> bool
    ensures { result ≡ lengths_with (folded pyramid.now) others }
{
    let rows = pyramid.rows.len();
    let lambda = pyramid.lambda.len();
    let delta = pyramid.delta.len();
    answers::pyramid_fits(pyramid.sizes, rows, lambda, delta) && others
}

// Numbers 5 to 8, before anything lent is written.
fn base_and_marks(pyramid: &Pyramid<'_>) -> Result<(), Refusal>
    requires { Measured (folded pyramid.now) }
    ensures { verdict_of result ≡ base_and_marks (folded pyramid.now) }
{
    bases::check_base(pyramid.sizes.n, pyramid.sizes.darts, pyramid.rows)?;
    answers::marks_refusal(pyramid.sizes, pyramid.lambda, pyramid.delta, Level(0))
}

// Numbers 1 to 8, before anything lent is written. `others` says whether all else that is lent has the exact length.
pub fn early_with(pyramid: &Pyramid<'_>, others: bool) -> Result<(), Refusal>
    ensures { verdict_of result ≡ early_with (folded pyramid.now) others }
{
    answers::lent(pyramid.sizes, fit(pyramid, others))?;
    base_and_marks(pyramid)
}

// The same, where a table is lent.
pub fn early(pyramid: &Pyramid<'_>, table: &[u16]) -> Result<(), Refusal>
    ensures { verdict_of result ≡ early_of (folded pyramid.now) table.now }
{
    let whole = answers::rows_fit(pyramid.sizes.n, pyramid.sizes.darts, table.len());
    early_with(pyramid, whole)
}

// Check a whole pyramid. Accepted, the table holds the explicit level h; after 9 or 10 the level whose kernel failed.
pub fn check(pyramid: &Pyramid<'_>, table: &mut [u16]) -> Result<(), Refusal>
    ensures verdict { verdict_of result ≡ check_lent (folded pyramid.now) table.old }
    ensures table_left { table.new ≡ check_leaves (folded pyramid.now) table.old }
{
    early(pyramid, table)?;
    climbing::rise(pyramid, table)
}

// Have a mark row and a table the exact lengths?
fn added_fit(sizes: Sizes, row: &[u8], table: &[u16]) -> bool
    ensures { result ≡ (eqb (length row.now) sizes.darts && eqb (length table.now) (suc sizes.n.0 * sizes.darts)) }
{
    answers::row_fits(sizes.darts, row.len())
        && answers::rows_fit(sizes.n, sizes.darts, table.len())
}

// Numbers 1 to 4 and 20 of an add.
fn add_lent(pyramid: &Pyramid<'_>, row: &[u8], table: &[u16]) -> Result<(), Refusal>
    ensures { verdict_of result ≡ add_sizes (folded pyramid.now) row.now table.now }
{
    let all = fit(pyramid, added_fit(pyramid.sizes, row, table));
    answers::lent(pyramid.sizes, all)?;
    if pyramid.sizes.h.0 == MOST_HEIGHT {
        return Err(Refusal::Full);
    }
    Ok(())
}

// Number 8 of one mark: a mark, remove; 255, stay; a dart not on level h must have 255.
fn mark_refused(n: Dim, h: Level, lambda: Level, mark: Mark) -> bool
    ensures { result ≡ not (cond (is_mark n.0 mark.0) (eqb lambda.0 h.0) (eqb mark.0 stay)) }
{
    if answers::is_mark(n, mark) {
        return lambda != h;
    }
    mark.0 != STAY
}

// Is any entry of the mark row refused? No branch for each dart, so that many are tested at once.
fn any_refused(n: Dim, h: Level, lambda: &[u8], row: &[u8]) -> bool
    ensures { result ≡ fold (λ any p. any || not (cond (is_mark n.0 p.1) (eqb p.0 h.0) (eqb p.1 stay))) false (zip lambda.now row.now) }
{
    let marks = lambda.iter().zip(row);
    marks.fold(
        false,
        |any, (own, mark)| any | mark_refused(n, h, Level(*own), Mark(*mark)),
    )
}

// The first dart whose entry is refused.
fn first_refused(n: Dim, h: Level, lambda: &[u8], row: &[u8]) -> Option<usize>
    ensures { result ≡ position (λ p. not (cond (is_mark n.0 p.1) (eqb p.0 h.0) (eqb p.1 stay))) (zip lambda.now row.now) }
{
    let mut marks = lambda.iter().zip(row);
    marks.position(|(own, mark)| mark_refused(n, h, Level(*own), Mark(*mark)))
}

// Number 8 of the mark row; the dart is sought only if there is one.
fn row_checked(sizes: Sizes, lambda: &[u8], row: &[u8]) -> Result<(), Refusal>
    requires { (length lambda.now ≡ sizes.darts) × (length row.now ≡ sizes.darts) }
    ensures { verdict_of result ≡ row_marks sizes.n.0 sizes.darts sizes.h.0 lambda.now row.now }
{
    if any_refused(sizes.n, sizes.h, lambda, row) {
        if let Some(d) = first_refused(sizes.n, sizes.h, lambda, row) {
            return Err(Refusal::Marks(sizes.h, Dim(0), d as u16));
        }
    }
    Ok(())
}

// Numbers 5 to 8 of an add: the mark row comes last.
fn add_marked(pyramid: &Pyramid<'_>, row: &[u8]) -> Result<(), Refusal>
    requires { MeasuredRow (folded pyramid.now) row.now }
    ensures { verdict_of result ≡ add_marks (folded pyramid.now) row.now }
{
    base_and_marks(pyramid)?;
    row_checked(pyramid.sizes, pyramid.lambda, row)
}

// Λ of a dart once the level is added: darts marked get the old h, the other survivors the new one.
fn lambda_after(n: Dim, h: Level, lambda: Level, mark: Mark) -> Level
    requires { h.0 ≤ 32 }
    ensures { result.0 ≡ cond (is_mark n.0 mark.0) h.0 (cond (eqb lambda.0 h.0) (suc h.0) lambda.0) }
{
    if answers::is_mark(n, mark) {
        return h;
    }
    if lambda == h {
        return Level(h.0 + 1);
    }
    lambda
}

// Δ of a dart once the level is added: the mark, of the darts marked.
fn delta_after(n: Dim, delta: Mark, mark: Mark) -> Mark
    ensures { result.0 ≡ cond (is_mark n.0 mark.0) mark.0 delta.0 }
{
    if answers::is_mark(n, mark) {
        return mark;
    }
    delta
}

// The mark row folded into Λ and Δ.
fn fold_in(n: Dim, h: Level, row: &[u8], lambda: &mut [u8], delta: &mut [u8])
    requires { (h.0 ≤ 32) × (length lambda.old ≡ length row.now) × (length delta.old ≡ length row.now) }
    ensures lambda_left { lambda.new ≡ listed (addΛ n.0 h.0 (each lambda.old) (each row.now)) (length row.now) }
    ensures delta_left { delta.new ≡ listed (addΔ n.0 (each delta.old) (each row.now)) (length row.now) }
{
    // By index: Λ and Δ are both written, by what stands in three rows.
    for d in 0..row.len() {
        let mark = answers::delta_at(row, d);
        let new_lambda = lambda_after(n, h, answers::lambda_at(lambda, d), mark);
        let new_delta = delta_after(n, answers::delta_at(delta, d), mark);
        lambda[d] = new_lambda.0;
        delta[d] = new_delta.0;
    }
}

// Λ and Δ with the mark row folded in, in rows of their own.
fn folded_apart(
    sizes: Sizes,
    row: &[u8],
    lambda: &[u8],
    delta: &[u8],
    new_lambda: &mut [u8],
    new_delta: &mut [u8],
)
    requires h_bound { (sizes.h.0 ≤ 32) × (length lambda.now ≡ length row.now) × (length delta.now ≡ length row.now) }
    requires new_lambda_len { (length new_lambda.old ≡ length row.now) × (length new_delta.old ≡ length row.now) }
    ensures new_lambda_left { new_lambda.new ≡ listed (addΛ sizes.n.0 sizes.h.0 (each lambda.now) (each row.now)) (length row.now) }
    ensures new_delta_left { new_delta.new ≡ listed (addΔ sizes.n.0 (each delta.now) (each row.now)) (length row.now) }
{
    answers::copy(lambda, new_lambda);
    answers::copy(delta, new_delta);
    fold_in(sizes.n, sizes.h, row, new_lambda, new_delta);
}

// Kernels 0 to h−1, then the mark row as kernel h, from the base.
fn ascend(pyramid: &Pyramid<'_>, row: &[u8], table: &mut [u16]) -> Result<(), Refusal>
    requires base { Base (folded pyramid.now) × (pyramid.now.sizes.h.0 ≤ 32) × (length table.old ≡ length pyramid.now.rows.now) }
    requires row_len { (length row.now ≡ pyramid.now.sizes.darts) × Row pyramid.now.sizes.n.0 pyramid.now.sizes.darts pyramid.now.sizes.h.0 (each pyramid.now.lambda.now) (each row.now) }
    ensures verdict { verdict_of result ≡ ascends (folded pyramid.now) row.now }
    ensures table_left { table.new ≡ ascend_leaves (folded pyramid.now) row.now }
{
    let darts = pyramid.sizes.darts;
    let width = darts as usize;
    let mut new_lambda = [0u8; ROOM];
    let mut new_delta = [0u8; ROOM];
    folded_apart(
        pyramid.sizes,
        row,
        pyramid.lambda,
        pyramid.delta,
        &mut new_lambda[..width],
        &mut new_delta[..width],
    );
    let grown = Sizes {
        n: Dim(pyramid.sizes.n.0),
        h: Level(pyramid.sizes.h.0 + 1),
        darts,
    };
    let after = Pyramid {
        sizes: grown,
        rows: pyramid.rows,
        lambda: &new_lambda[..width],
        delta: &new_delta[..width],
    };
    climbing::rise(&after, table)
}

// Add a level. Accepted, Λ and Δ hold the new height's marks and the table the new top level; refused, Λ and Δ are as found.
// Lent apart: Λ and Δ are written, and a `Pyramid` is read alone.
pub fn add(
    sizes: Sizes,
    rows: &[u16],
    lambda: &mut [u8],
    delta: &mut [u8],
    row: &[u8],
    table: &mut [u16],
) -> Result<Level, Refusal>
    ensures answer { verdict_of result ≡ add_lent (lent sizes rows.now lambda.old delta.old) row.now table.old }
    ensures height { height_of sizes.h.0 result ≡ add_height (lent sizes rows.now lambda.old delta.old) row.now table.old }
    ensures lambda_left { lambda.new ≡ add_lambda (lent sizes rows.now lambda.old delta.old) row.now table.old }
    ensures delta_left { delta.new ≡ add_delta (lent sizes rows.now lambda.old delta.old) row.now table.old }
    ensures table_left { table.new ≡ add_leaves (lent sizes rows.now lambda.old delta.old) row.now table.old }
{
    let pyramid = Pyramid {
        sizes,
        rows,
        lambda: &*lambda,
        delta: &*delta,
    };
    add_lent(&pyramid, row, table)?;
    add_marked(&pyramid, row)?;
    ascend(&pyramid, row, table)?;
    fold_in(sizes.n, sizes.h, row, lambda, delta);
    Ok(Level(sizes.h.0 + 1))
}
