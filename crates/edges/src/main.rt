// Runs the examples of the scope document that are not proved, the unchecked reading and the edges, and prints each answer on a line.
// What is printed no contract can say.
#![tactic(auto)]

ghost use Rattle.std.specs.Prelude.{◌<◌, ◌≤◌};

use answers::{Dim, Level, Pyramid, Question, Refusal, Sizes};
use std::io;

// What was tried, and its answer: taken, or refused with number, level, involution and dart.
fn taken(to: &impl Print, name: &str) -> io::Result<()> {
    println!(to; "{name}: taken")
}

fn converted(to: &impl Print, name: &str) -> io::Result<()> {
    println!(to; "{name}: converted")
}

fn refused(to: &impl Print, name: &str, refusal: Refusal) -> io::Result<()> {
    println!(to; "{name}: refused {refusal}")
}

fn checked(to: &impl Print, name: &str, check: Result<(), Refusal>) -> io::Result<()> {
    match check {
        Ok(()) => taken(to, name),
        Err(r) => refused(to, name, r),
    }
}

// Rows in which every dart is its own neighbour.
fn free_rows(darts: u16, rows: &mut [u16])
    requires { 0 < darts }
{
    for (k, entry) in rows.iter_mut().enumerate() {
        *entry = (k % darts as usize) as u16;
    }
}

// n=1, N=2, a0 = 1 1, a1 = 0 1, h=1, dart 1 removed: a0 of 0 at level 1.
fn unchecked_reading(to: &impl Print) -> io::Result<()> {
    let sizes = Sizes {
        n: Dim(1),
        h: Level(1),
        darts: 2,
    };
    let pyramid = Pyramid {
        sizes,
        rows: &[1u16, 1, 0, 1],
        lambda: &[1u8, 0],
        delta: &[1u8, 0],
    };
    let asked = Question {
        level: Level(1),
        involution: Dim(0),
        dart: 0,
    };
    match reading::read(&pyramid, asked) {
        Ok(_) => taken(to, "unchecked reading"),
        Err(r) => refused(to, "unchecked reading", r),
    }
}

fn dimensions(to: &impl Print) -> io::Result<()> {
    checked(to, "n 4", bases::check_base(Dim(4), 1, &[0u16; 5]))?;
    checked(to, "n 5", bases::check_base(Dim(5), 1, &[0u16; 6]))
}

fn darts(to: &impl Print) -> io::Result<()> {
    let mut rows = [0u16; 8192];
    free_rows(4096, &mut rows);
    checked(to, "N 4096", bases::check_base(Dim(1), 4096, &rows))?;
    let mut more = [0u16; 8194];
    free_rows(4097, &mut more);
    checked(to, "N 4097", bases::check_base(Dim(1), 4097, &more))
}

// A pyramid of one dart that stays to height h.
fn height(to: &impl Print, name: &str, h: Level) -> io::Result<()> {
    let sizes = Sizes {
        n: Dim(1),
        h,
        darts: 1,
    };
    let pyramid = Pyramid {
        sizes,
        rows: &[0u16, 0],
        lambda: &[h.0],
        delta: &[1u8],
    };
    checked(to, name, checking::check(&pyramid, &mut [0u16; 2]))
}

// A level added at height h, on one dart that stays.
fn added(to: &impl Print, name: &str, h: Level) -> io::Result<()> {
    let mut lambda = [h.0];
    let mut delta = [1u8; 1];
    let mut table = [0u16; 2];
    match checking::add(
        Sizes {
            n: Dim(1),
            h,
            darts: 1,
        },
        &[0u16, 0],
        &mut lambda,
        &mut delta,
        &[255u8],
        &mut table,
    ) {
        Ok(_) => taken(to, name),
        Err(r) => refused(to, name, r),
    }
}

// A record that is converted.
fn convert(to: &impl Print, name: &str, bytes: &[u8]) -> io::Result<()> {
    let mut rows = [0u16; 514];
    let mut lambda = [0u8; 257];
    let mut delta = [0u8; 257];
    let mut table = [0u16; 514];
    let mut new = [0u8; 1600];
    match converting::convert(
        bytes,
        &mut rows,
        &mut lambda,
        &mut delta,
        &mut table,
        &mut new,
    ) {
        Ok(_) => converted(to, name),
        Err(r) => refused(to, name, r),
    }
}

// An old record, with rows of one byte an entry, in which every dart is its own neighbour: n = 1, h = 0.
fn one_byte_rows(to: &impl Print, name: &str, darts: u16) -> io::Result<()>
    requires { darts ≤ 257 }
{
    let mut bytes = [0u8; 1050];
    let size = usize::from(darts) + 3;
    let [low, high] = darts.to_le_bytes();
    bytes[0] = 1;
    bytes[1] = 4;
    bytes[3] = 1;
    bytes[5] = low;
    bytes[6] = high;
    field(&mut bytes, 7, 0x20, darts);
    free_from(&mut bytes, 10);
    field(&mut bytes, 7 + size, 0x21, darts);
    free_from(&mut bytes, 10 + size);
    field(&mut bytes, 7 + 2 * size, 0x30, darts);
    marks_from(&mut bytes, 10 + 2 * size, 0);
    field(&mut bytes, 7 + 3 * size, 0x31, darts);
    marks_from(&mut bytes, 10 + 3 * size, 1);
    convert(to, name, &bytes[..7 + 4 * size])
}

// A field's tag and length.
fn field(bytes: &mut [u8; 1050], at: usize, tag: u8, length: u16)
    requires { at ≤ 1040 }
{
    let [low, high] = length.to_le_bytes();
    bytes[at] = tag;
    bytes[at + 1] = low;
    bytes[at + 2] = high;
}

// From here to the end a row in which every dart is its own neighbour, as far as a byte tells.
fn free_from(bytes: &mut [u8; 1050], from: usize) {
    for (k, byte) in bytes.iter_mut().skip(from).enumerate() {
        *byte = (k % 256) as u8;
    }
}

// From here to the end one mark for every dart.
fn marks_from(bytes: &mut [u8; 1050], from: usize, mark: u8) {
    for byte in bytes.iter_mut().skip(from) {
        *byte = mark;
    }
}

fn main(rt: HostRuntime) -> io::Result<()> {
    unchecked_reading(&rt)?;
    dimensions(&rt)?;
    darts(&rt)?;
    height(&rt, "h 32", Level(32))?;
    height(&rt, "h 33", Level(33))?;
    added(&rt, "added at h 31", Level(31))?;
    added(&rt, "added at h 32", Level(32))?;
    one_byte_rows(&rt, "one-byte rows at N 256", 256)?;
    one_byte_rows(&rt, "one-byte rows at N 257", 257)
}
