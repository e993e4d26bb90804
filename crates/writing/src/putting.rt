// A record's fields, put into the front of a lent buffer: a head of tag and length, then the body. Assumes nothing.
// Most of a row goes in parts of 64 entries, each read whole before any of it is written, so that a part is moved in registers (crates/taking/src/copying.rt
// says why).
ghost use Rattle.std.specs.Prelude.{◌≡◌, [], ◌∷◌, suc, ◌+◌, ◌*◌, ◌≤◌, length};
ghost use Rattle.maps.specs.Write.{field_written, in_two_bytes, rows_written};
ghost use Rattle.writing.specs.Put.{head_of, Put};

use answers::{Dim, Sizes};

// Entries, two bytes each, low byte first, one by one.
fn put_few(row: &[u16], to: &mut [u8])
    requires { 2 * length row.now ≤ length to.old }
    ensures { Put (in_two_bytes row.now) 0 to.old to.new }
{
    for (d, entry) in row.iter().enumerate() {
        let pair = entry.to_le_bytes();
        to[2 * d] = pair[0];
        to[2 * d + 1] = pair[1];
    }
}

// The bytes of a part of a row: 64 entries.
fn bytes_of(part: &[u16; 64]) -> [u8; 128]
    ensures { result ≡ in_two_bytes part.now }
{
    let mut bytes = [0u8; 128];
    put_few(part, &mut bytes);
    bytes
}

// The body of a row: the parts, then the last few.
fn put_entries(row: &[u16], to: &mut [u8])
    requires { 2 * length row.now ≤ length to.old }
    ensures { Put (in_two_bytes row.now) 0 to.old to.new }
{
    let (parts, rest) = row.as_chunks::<64>();
    for (k, part) in parts.iter().enumerate() {
        let at = 128 * k;
        answers::copy(&bytes_of(part), &mut to[at..at + 128]);
    }
    let done = 128 * parts.len();
    put_few(rest, &mut to[done..]);
}

// The head of a field: its tag, and its length in two bytes, low byte first.
fn put_head(tag: u8, size: u16, to: &mut [u8])
    requires { 3 ≤ length to.old }
    ensures { Put (head_of tag size) 0 to.old to.new }
{
    let size = size.to_le_bytes();
    to[..3].copy_from_slice(&[tag, size[0], size[1]]);
}

// The header: n, h, N.
pub(crate) fn put_header(sizes: Sizes, to: &mut [u8])
    requires { 7 ≤ length to.old }
    ensures { Put (field_written 0x01 (sizes.n.0 ∷ sizes.h.0 ∷ in_two_bytes (sizes.darts ∷ []))) 0 to.old to.new }
{
    let darts = sizes.darts.to_le_bytes();
    to[..7].copy_from_slice(&[0x01, 4, 0, sizes.n.0, sizes.h.0, darts[0], darts[1]]);
}

// A row, two bytes an entry.
fn put_row(tag: u8, row: &[u16], to: &mut [u8])
    requires { (length row.now ≤ 4096) × (3 + 2 * length row.now ≤ length to.old) }
    ensures { Put (field_written tag (in_two_bytes row.now)) 0 to.old to.new }
{
    put_head(tag, 2 * row.len() as u16, to);
    put_entries(row, &mut to[3..]);
}

// Rows 0 to n, after the header.
pub(crate) fn put_rows(n: Dim, darts: u16, rows: &[u16], to: &mut [u8])
    requires { (n.0 ≤ 4) × (darts ≤ 4096) × (length rows.now ≡ suc n.0 * darts) × (7 + suc n.0 * (3 + 2 * darts) ≤ length to.old) }
    ensures { Put (rows_written darts rows.now (suc n.0)) 7 to.old to.new }
{
    let count = darts as usize;
    for i in 0..n.0 + 1 {
        let from = i as usize * count;
        let at = 7 + i as usize * (3 + 2 * count);
        put_row(0x10 + i, &rows[from..from + count], &mut to[at..]);
    }
}

// Λ or Δ.
pub(crate) fn put_marks(tag: u8, marks: &[u8], to: &mut [u8])
    requires { (length marks.now ≤ 4096) × (3 + length marks.now ≤ length to.old) }
    ensures { Put (field_written tag marks.now) 0 to.old to.new }
{
    put_head(tag, marks.len() as u16, to);
    taking::copy_bytes(marks, &mut to[3..3 + marks.len()]);
}
