// Take a record: it is unpacked and its pyramid checked, in one job; its rows have two bytes an entry, or, in an old record, one or two. Assumes nothing: any bytes at all are answered.
#![tactic(auto)]

mod copying; // copying.rt: a field's body into a lent slice
mod unpacking; // unpacking.rt: the fields of a record, tested and copied

ghost use Rattle.std.specs.Prelude.{◌≡◌, ◌++◌};
ghost use Rattle.maps.specs.CheckPyramid.{check_lent, check_leaves};
ghost use Rattle.maps.specs.Record.{wide, either, take_rows, take_lambda, take_delta, take_table};
ghost use Rattle.answers.specs.Numbers.{verdict_of};
ghost use Rattle.answers.specs.Pyramid.{folded};
ghost use Rattle.taking.specs.Answers.{allowed_of, taken_of, taken};
ghost use Rattle.taking.specs.Front.{front, front_of, behind, FrontOf, InFront};

use answers::{Pyramid, Refusal, Sizes};
pub use copying::copy_bytes;
use unpacking::unpack;

// The rows that a reader allows: of two bytes an entry alone, or of either kind, as old records may have them.
#[derive(Clone, Copy)]
pub(crate) enum Allowed {
    Wide,
    Either,
}

// The pyramid that stands at the front of slices, which may be longer.
pub fn at_front<'a>(pyramid: &Pyramid<'a>) -> Pyramid<'a>
    requires { FrontOf pyramid.now.sizes pyramid.now.rows.now pyramid.now.lambda.now pyramid.now.delta.now }
    ensures sizes { result.sizes ≡ pyramid.now.sizes }
    ensures parts { folded result ≡ front pyramid.now.sizes pyramid.now.rows.now pyramid.now.lambda.now pyramid.now.delta.now }
{
    let sizes = pyramid.sizes;
    let width = sizes.darts as usize;
    let size = answers::entries(sizes.n, sizes.darts);
    Pyramid {
        sizes,
        rows: &pyramid.rows[..size],
        lambda: &pyramid.lambda[..width],
        delta: &pyramid.delta[..width],
    }
}

// The check of a pyramid that stands at the front of slices.
fn check_front(pyramid: &Pyramid<'_>, table: &mut [u16]) -> Result<(), Refusal>
    requires { InFront pyramid.now.sizes pyramid.now.rows.now pyramid.now.lambda.now pyramid.now.delta.now table.old }
    ensures verdict { verdict_of result ≡ check_lent (front pyramid.now.sizes pyramid.now.rows.now pyramid.now.lambda.now pyramid.now.delta.now) (front_of pyramid.now.sizes table.old) }
    ensures table_left { table.new ≡ check_leaves (front pyramid.now.sizes pyramid.now.rows.now pyramid.now.lambda.now pyramid.now.delta.now) (front_of pyramid.now.sizes table.old) ++ behind pyramid.now.sizes table.old }
{
    let size = answers::entries(pyramid.sizes.n, pyramid.sizes.darts);
    checking::check(&at_front(pyramid), &mut table[..size])
}

// A record with the rows that are allowed. Nothing lent is written before the whole record is known to be good; what the check then refuses is left in the lent rows and marks.
fn take_allowed(
    bytes: &[u8],
    allowed: Allowed,
    rows: &mut [u16],
    lambda: &mut [u8],
    delta: &mut [u8],
    table: &mut [u16],
) -> Result<Sizes, Refusal>
    ensures answer { taken_of result ≡ taken bytes.now (allowed_of allowed) rows.old lambda.old delta.old table.old }
    ensures rows_left { rows.new ≡ take_rows bytes.now (allowed_of allowed) rows.old lambda.old delta.old table.old }
    ensures lambda_left { lambda.new ≡ take_lambda bytes.now (allowed_of allowed) rows.old lambda.old delta.old table.old }
    ensures delta_left { delta.new ≡ take_delta bytes.now (allowed_of allowed) rows.old lambda.old delta.old table.old }
    ensures table_left { table.new ≡ take_table bytes.now (allowed_of allowed) rows.old lambda.old delta.old table.old }
{
    let sizes = unpack(bytes, allowed, rows, lambda, delta, table)?;
    let lent = Pyramid {
        sizes,
        rows: &*rows,
        lambda: &*lambda,
        delta: &*delta,
    };
    check_front(&lent, table)?;
    Ok(sizes)
}

// Take a record: its rows have two bytes an entry.
pub fn take(
    bytes: &[u8],
    rows: &mut [u16],
    lambda: &mut [u8],
    delta: &mut [u8],
    table: &mut [u16],
) -> Result<Sizes, Refusal>
    ensures answer { taken_of result ≡ taken bytes.now wide rows.old lambda.old delta.old table.old }
    ensures rows_left { rows.new ≡ take_rows bytes.now wide rows.old lambda.old delta.old table.old }
    ensures lambda_left { lambda.new ≡ take_lambda bytes.now wide rows.old lambda.old delta.old table.old }
    ensures delta_left { delta.new ≡ take_delta bytes.now wide rows.old lambda.old delta.old table.old }
    ensures table_left { table.new ≡ take_table bytes.now wide rows.old lambda.old delta.old table.old }
{
    take_allowed(bytes, Allowed::Wide, rows, lambda, delta, table)
}

// Take an old record, with rows of either kind.
pub fn take_old(
    bytes: &[u8],
    rows: &mut [u16],
    lambda: &mut [u8],
    delta: &mut [u8],
    table: &mut [u16],
) -> Result<Sizes, Refusal>
    ensures answer { taken_of result ≡ taken bytes.now either rows.old lambda.old delta.old table.old }
    ensures rows_left { rows.new ≡ take_rows bytes.now either rows.old lambda.old delta.old table.old }
    ensures lambda_left { lambda.new ≡ take_lambda bytes.now either rows.old lambda.old delta.old table.old }
    ensures delta_left { delta.new ≡ take_delta bytes.now either rows.old lambda.old delta.old table.old }
    ensures table_left { table.new ≡ take_table bytes.now either rows.old lambda.old delta.old table.old }
{
    take_allowed(bytes, Allowed::Either, rows, lambda, delta, table)
}
