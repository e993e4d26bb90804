// Write the record of an accepted pyramid into a lent buffer. Assumes nothing.
#![tactic(auto)]

mod putting; // putting.rt: a record's fields into the buffer

ghost use Rattle.std.specs.Prelude.{◌≡◌, ◌≤◌};
ghost use Rattle.maps.specs.Write.{record_of, write_table, write_leaves};
ghost use Rattle.answers.specs.Pyramid.{folded};
ghost use Rattle.writing.specs.Answers.{written_of, writing, Checked, putting as putting_of, put_leaves};
ghost use Rattle.writing.specs.Put.{record_size, CanHold, Put};

use answers::{Dim, Pyramid, Refusal};
use putting::{put_header, put_marks, put_rows};

// The bytes of a record.
fn record_size(n: Dim, darts: u16) -> u16
    requires { (n.0 ≤ 4) × (darts ≤ 4096) }
    ensures { result ≡ record_size n.0 darts }
{
    7 + (u16::from(n.0) + 1) * (3 + 2 * darts) + 2 * (3 + darts)
}

// All fields, to the front of the buffer.
fn put_record(pyramid: &Pyramid<'_>, bytes: &mut [u8])
    requires { CanHold pyramid.now.sizes pyramid.now.rows.now pyramid.now.lambda.now pyramid.now.delta.now bytes.old }
    ensures { Put (record_of (folded pyramid.now)) 0 bytes.old bytes.new }
{
    let n = pyramid.sizes.n;
    let darts = pyramid.sizes.darts;
    let marks_at = 7 + (n.0 as usize + 1) * (3 + 2 * darts as usize);
    put_header(pyramid.sizes, bytes);
    put_rows(n, darts, pyramid.rows, bytes);
    let delta_at = marks_at + (3 + darts as usize);
    put_marks(0x30, pyramid.lambda, &mut bytes[marks_at..]);
    put_marks(0x31, pyramid.delta, &mut bytes[delta_at..]);
}

// Write the record of a pyramid that the check has accepted: nothing is written before the buffer is known to be long enough.
pub fn write_accepted(pyramid: &Pyramid<'_>, bytes: &mut [u8]) -> Result<u32, Refusal>
    requires { Checked (folded pyramid.now) }
    ensures answer { written_of result ≡ putting_of (folded pyramid.now) bytes.old }
    ensures bytes_left { bytes.new ≡ put_leaves (folded pyramid.now) bytes.old }
{
    let size = record_size(pyramid.sizes.n, pyramid.sizes.darts);
    if bytes.len() < size as usize {
        return Err(Refusal::Length);
    }
    put_record(pyramid, bytes);
    Ok(size as u32)
}

// Write a record: the pyramid is checked first.
pub fn write(pyramid: &Pyramid<'_>, table: &mut [u16], bytes: &mut [u8]) -> Result<u32, Refusal>
    ensures answer { written_of result ≡ writing (folded pyramid.now) table.old bytes.old }
    ensures table_left { table.new ≡ write_table (folded pyramid.now) table.old bytes.old }
    ensures bytes_left { bytes.new ≡ write_leaves (folded pyramid.now) table.old bytes.old }
{
    checking::check(pyramid, table)?;
    write_accepted(pyramid, bytes)
}
