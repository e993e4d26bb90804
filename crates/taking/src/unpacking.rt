// Unpack a record: tagged fields, in their order, into lent tables. Its pyramid is not checked here, so that no other crate sees these functions. Assumes nothing: any bytes at all are answered.
ghost use Rattle.std.specs.Prelude.{◌≡◌, cond, ◌&&◌, suc, ◌+◌, ◌*◌, ◌≤◌, length, get_or, leb};
ghost use Rattle.maps.specs.Verdict.{◌then◌, scan};
ghost use Rattle.maps.specs.Sizes.{sizes as sizes_of};
ghost use Rattle.maps.specs.Record.{one_byte_by, field as field_of, take_rows, take_lambda, take_delta};
ghost use Rattle.answers.specs.Numbers.{verdict_of};
ghost use Rattle.taking.specs.Answers.{allowed_of, taken_of, unpacked};
ghost use Rattle.taking.specs.Kinds.{kind_of, tag_of, Due};
ghost use Rattle.taking.specs.Parts.{size_of, marks_at, row_field, room_of, rest_of, byte_from, entry_from, table_entry, Laid};
ghost use Rattle.taking.specs.Front.{entries_of, lambda_from, delta_from, Whole};

use super::Allowed;
use super::copying::{copy_bytes, copy_narrow, copy_wide};
use answers::{Dim, Level, Refusal, Sizes};

// What a tag says; a row's tag says which row.
#[derive(Clone, Copy, PartialEq, Eq)]
enum Kind {
    Header,
    Wide(Dim),
    Narrow(Dim),
    Lambda,
    Delta,
}

// What a tag says, if anything: this match alone decides it. `Narrow` rows, of one byte an entry, are those of old records; whether a reader allows them `one_byte` decides.
fn kind_of(tag: u8) -> Option<Kind>
    ensures { result ≡ kind_of tag }
{
    match tag {
        0x10..=0x14 => Some(Kind::Wide(Dim(tag - 0x10))),
        0x20..=0x24 => Some(Kind::Narrow(Dim(tag - 0x20))),
        0x01 => Some(Kind::Header),
        0x30 => Some(Kind::Lambda),
        0x31 => Some(Kind::Delta),
        _ => None,
    }
}

// A byte, or 0 where there is none.
fn byte_at(bytes: &[u8], at: usize) -> u8
    ensures { result ≡ get_or bytes.now at 0 }
{
    bytes.get(at).copied().unwrap_or(0)
}

// The first row's tag settles the kind: has an entry one byte?
fn one_byte(bytes: &[u8], allowed: Allowed, darts: u16) -> bool
    ensures { result ≡ one_byte_by (allowed_of allowed) (get_or bytes.now 7 0) darts }
{
    match allowed {
        Allowed::Wide => false,
        Allowed::Either => {
            kind_of(byte_at(bytes, 7)) == Some(Kind::Narrow(Dim(0))) && darts <= 256
        }
    }
}

// The field at an offset: 16, 17 and 18 in the document's order.
fn field(bytes: &[u8], at: u16, due: Kind, size: u16) -> Result<(), Refusal>
    requires { (at ≤ 50000) × (size ≤ 8192) × Due due }
    ensures { verdict_of result ≡ field_of bytes.now at (tag_of due) size }
{
    let start = at as usize;
    if bytes.len() <= start {
        return Err(Refusal::EndsEarly(at));
    }
    if kind_of(bytes[start]) != Some(due) {
        return Err(Refusal::OtherTag(at));
    }
    if bytes.len() < start + 3 {
        return Err(Refusal::EndsEarly(at));
    }
    if u16::from_le_bytes([bytes[start + 1], bytes[start + 2]]) != size {
        return Err(Refusal::WrongLength(at));
    }
    if bytes.len() < start + 3 + size as usize {
        return Err(Refusal::EndsEarly(at));
    }
    Ok(())
}

// The header's field, then its values: 1, 2, 3.
fn header(bytes: &[u8], sizes: Sizes) -> Result<(), Refusal>
    ensures { verdict_of result ≡ (field_of bytes.now 0 0x01 4 then sizes_of sizes.n.0 sizes.darts sizes.h.0) }
{
    field(bytes, 0, Kind::Header, 4)?;
    answers::in_range(sizes)
}

// The bytes of a row's body.
fn row_size(darts: u16, one: bool) -> u16
    requires { darts ≤ 4096 }
    ensures { (result ≡ size_of darts one) × (result ≤ 8192) }
{
    if one {
        return darts;
    }
    2 * darts
}

// What a row's tag says.
fn row_kind(row: Dim, one: bool) -> Kind
    requires { row.0 ≤ 4 }
    ensures { Due result × (tag_of result ≡ cond one 0x20 0x10 + row.0) }
{
    if one {
        return Kind::Narrow(row);
    }
    Kind::Wide(row)
}

// Where Λ stands.
fn marks_at(n: Dim, darts: u16, one: bool) -> u16
    requires { (n.0 ≤ 4) × (darts ≤ 4096) }
    ensures { (result ≡ marks_at n.0 darts one) × (result ≤ 40982) }
{
    7 + (u16::from(n.0) + 1) * (3 + row_size(darts, one))
}

// The fields of rows 0 to n.
fn row_fields(bytes: &[u8], n: Dim, one: bool, size: u16) -> Result<(), Refusal>
    requires { (n.0 ≤ 4) × (size ≤ 8192) }
    ensures { verdict_of result ≡ scan (suc n.0) (row_field bytes.now one size) }
{
    for i in 0..n.0 + 1 {
        let at = 7 + u16::from(i) * (3 + size);
        field(bytes, at, row_kind(Dim(i), one), size)?;
    }
    Ok(())
}

// Are lent slices of these lengths long enough?
fn long_enough(n: Dim, darts: u16, rows: usize, lambda: usize, delta: usize, table: usize) -> bool
    ensures { result ≡ (leb (suc n.0 * darts) rows && (leb darts lambda && (leb darts delta && leb (suc n.0 * darts) table))) }
{
    let due = darts as usize;
    let all = answers::entries(n, darts);
    all <= rows && due <= lambda && due <= delta && all <= table
}

// Numbers 19 and 4: `length` bytes of which the record ends at `end`.
fn room(length: usize, end: u16, enough: bool) -> Result<(), Refusal>
    ensures { verdict_of result ≡ room_of length end enough }
{
    if (end as usize) < length {
        return Err(Refusal::BytesAfter(end));
    }
    if !enough {
        return Err(Refusal::Length);
    }
    Ok(())
}

// All that is tested after the header: the fields of the rows, Λ and Δ, then 19 and 4.
fn rest(bytes: &[u8], n: Dim, darts: u16, one: bool, enough: bool) -> Result<(), Refusal>
    requires { (n.0 ≤ 4) × (darts ≤ 4096) }
    ensures { verdict_of result ≡ rest_of bytes.now n.0 darts one enough }
{
    let at = marks_at(n, darts, one);
    let next = at + (3 + darts);
    let end = next + (3 + darts);
    row_fields(bytes, n, one, row_size(darts, one))?;
    field(bytes, at, Kind::Lambda, darts)?;
    field(bytes, next, Kind::Delta, darts)?;
    room(bytes.len(), end, enough)
}

// A row of either kind.
fn copy_row(body: &[u8], one: bool, row: &mut [u16])
    requires { length body.now ≡ size_of (length row.old) one }
    ensures { Laid (entry_from body.now one 0) 0 (length row.old) row.old row.new }
{
    if one {
        copy_narrow(body, row);
        return;
    }
    copy_wide(body, row);
}

// All rows, to the front of the lent rows.
fn copy_rows(bytes: &[u8], n: Dim, darts: u16, one: bool, rows: &mut [u16])
    requires { (n.0 ≤ 4) × (1 ≤ darts) × (darts ≤ 4096) × (marks_at n.0 darts one ≤ length bytes.now) × (suc n.0 * darts ≤ length rows.old) }
    ensures { Laid (table_entry bytes.now darts one) 0 (suc n.0 * darts) rows.old rows.new }
{
    let count = darts as usize;
    let size = row_size(darts, one) as usize;
    for i in 0..n.0 as usize + 1 {
        let from = 7 + i * (3 + size) + 3;
        let at = i * count;
        copy_row(&bytes[from..from + size], one, &mut rows[at..at + count]);
    }
}

// All that an accepted record holds, copied.
fn copy_all(
    bytes: &[u8],
    sizes: Sizes,
    one: bool,
    rows: &mut [u16],
    lambda: &mut [u8],
    delta: &mut [u8],
)
    requires { Whole sizes one bytes.now rows.old lambda.old delta.old }
    ensures rows_left { Laid (table_entry bytes.now sizes.darts one) 0 (entries_of sizes) rows.old rows.new }
    ensures lambda_left { Laid (byte_from bytes.now (lambda_from sizes one)) 0 sizes.darts lambda.old lambda.new }
    ensures delta_left { Laid (byte_from bytes.now (delta_from sizes one)) 0 sizes.darts delta.old delta.new }
{
    let darts = sizes.darts;
    let count = darts as usize;
    let lambda_from = marks_at(sizes.n, darts, one) as usize + 3;
    let delta_from = lambda_from + count + 3;
    copy_rows(bytes, sizes.n, darts, one, rows);
    copy_bytes(
        &bytes[lambda_from..lambda_from + count],
        &mut lambda[..count],
    );
    copy_bytes(&bytes[delta_from..delta_from + count], &mut delta[..count]);
}

// Unpack a record into lent tables: nothing lent is written before the whole record is known to be good. Of the table that its check is lent, the length is tested.
pub(crate) fn unpack(
    bytes: &[u8],
    allowed: Allowed,
    rows: &mut [u16],
    lambda: &mut [u8],
    delta: &mut [u8],
    table: &[u16],
) -> Result<Sizes, Refusal>
    ensures answer { taken_of result ≡ unpacked bytes.now (allowed_of allowed) rows.old lambda.old delta.old table.now }
    ensures rows_left { rows.new ≡ take_rows bytes.now (allowed_of allowed) rows.old lambda.old delta.old table.now }
    ensures lambda_left { lambda.new ≡ take_lambda bytes.now (allowed_of allowed) rows.old lambda.old delta.old table.now }
    ensures delta_left { delta.new ≡ take_delta bytes.now (allowed_of allowed) rows.old lambda.old delta.old table.now }
{
    let n = Dim(byte_at(bytes, 3));
    let h = Level(byte_at(bytes, 4));
    let darts = u16::from_le_bytes([byte_at(bytes, 5), byte_at(bytes, 6)]);
    let sizes = Sizes { n, h, darts };
    header(bytes, sizes)?;
    let one = one_byte(bytes, allowed, darts);
    let enough = long_enough(n, darts, rows.len(), lambda.len(), delta.len(), table.len());
    rest(bytes, n, darts, one, enough)?;
    copy_all(bytes, sizes, one, rows, lambda, delta);
    Ok(sizes)
}
