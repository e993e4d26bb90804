// A field's body, copied into a lent slice: bytes, or entries of one or two bytes. Assumes nothing.
// Most of a body goes in parts of 128 bytes, each read whole before any of it is written: the compiler, which can't know that lent slices lie apart, then
// moves a part in registers.
ghost use Rattle.std.specs.Prelude.{◌≡◌, ℕ, ◌*◌, ◌<◌, length, get_or};
ghost use Rattle.taking.specs.Parts.{byte_from, two_from, Laid};

// One part of a body of bytes.
fn copy_part(part: &[u8; 128], to: &mut [u8])
    requires { length to.old ≡ 128 }
    ensures { to.new ≡ part.now }
{
    let part = *part;
    answers::copy(&part, to);
}

// A body of bytes, copied: the parts, then the last few.
pub fn copy_bytes(body: &[u8], to: &mut [u8])
    requires { length to.old ≡ length body.now }
    ensures { to.new ≡ body.now }
{
    let (parts, rest) = body.as_chunks::<128>();
    for (k, part) in parts.iter().enumerate() {
        let at = 128 * k;
        copy_part(part, &mut to[at..at + 128]);
    }
    let done = 128 * parts.len();
    answers::copy(rest, &mut to[done..]);
}

// A row of one byte an entry.
pub(crate) fn copy_narrow(body: &[u8], row: &mut [u16])
    requires { length body.now ≡ length row.old }
    ensures { Laid (byte_from body.now 0) 0 (length row.old) row.old row.new }
{
    for (d, entry) in row.iter_mut().enumerate() {
        *entry = u16::from(body[d]);
    }
}

// Entries of two bytes, low byte first, one by one.
fn copy_few(body: &[u8], row: &mut [u16])
    requires { length body.now ≡ 2 * length row.old }
    ensures { Laid (two_from body.now 0) 0 (length row.old) row.old row.new }
{
    for (d, entry) in row.iter_mut().enumerate() {
        *entry = u16::from_le_bytes([body[2 * d], body[2 * d + 1]]);
    }
}

// The entries of one part of a row of two bytes an entry.
fn entries_of(part: &[u8; 128]) -> [u16; 64]
    ensures { (d : ℕ) → d < 64 → get_or result d 0 ≡ two_from part.now 0 d }
{
    let mut entries = [0u16; 64];
    copy_few(part, &mut entries);
    entries
}

// A row of two bytes an entry: the parts, then the last few.
pub(crate) fn copy_wide(body: &[u8], row: &mut [u16])
    requires { length body.now ≡ 2 * length row.old }
    ensures { Laid (two_from body.now 0) 0 (length row.old) row.old row.new }
{
    let (parts, rest) = body.as_chunks::<128>();
    for (k, part) in parts.iter().enumerate() {
        let at = 64 * k;
        answers::copy(&entries_of(part), &mut row[at..at + 64]);
    }
    let done = 64 * parts.len();
    copy_few(rest, &mut row[done..]);
}
