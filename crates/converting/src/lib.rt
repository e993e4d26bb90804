// Convert an old record, with rows of either kind: it is taken, which checks its pyramid, and the new record written, in one job. Assumes nothing: any bytes at all are answered.
#![tactic(auto)]

ghost use Rattle.std.specs.Prelude.{◌≡◌};
ghost use Rattle.maps.specs.Record.{either, take_rows, take_lambda, take_delta, take_table};
ghost use Rattle.maps.specs.Convert.{convert_leaves};
ghost use Rattle.writing.specs.Answers.{written_of};
ghost use Rattle.converting.specs.Answers.{converted};

use answers::{Pyramid, Refusal};

// Convert an old record. Rows, Λ, Δ and the table are left as taking leaves them; nothing of the buffer is written before the pyramid is accepted.
pub fn convert(
    old: &[u8],
    rows: &mut [u16],
    lambda: &mut [u8],
    delta: &mut [u8],
    table: &mut [u16],
    new: &mut [u8],
) -> Result<u32, Refusal>
    ensures answer { written_of result ≡ converted old.now rows.old lambda.old delta.old table.old new.old }
    ensures rows_left { rows.new ≡ take_rows old.now either rows.old lambda.old delta.old table.old }
    ensures lambda_left { lambda.new ≡ take_lambda old.now either rows.old lambda.old delta.old table.old }
    ensures delta_left { delta.new ≡ take_delta old.now either rows.old lambda.old delta.old table.old }
    ensures table_left { table.new ≡ take_table old.now either rows.old lambda.old delta.old table.old }
    ensures new_left { new.new ≡ convert_leaves old.now rows.old lambda.old delta.old table.old new.old }
{
    let sizes = taking::take_old(old, rows, lambda, delta, table)?;
    let taken = Pyramid {
        sizes,
        rows: &*rows,
        lambda: &*lambda,
        delta: &*delta,
    };
    writing::write_accepted(&taking::at_front(&taken), new)
}
