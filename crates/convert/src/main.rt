// Takes an old record from standard input and writes the new one, of the same pyramid, to standard output. A refused record writes nothing there; its line goes to the error stream.
// It keeps 204,828 bytes: the input (65,536), the new record (49,180), rows and a table (40,960 each), Λ and Δ (4,096 each). What is read and written no contract can say.
#![tactic(auto)]

ghost use Rattle.std.specs.Prelude.{◌≤◌, length};

use answers::{MOST_BYTES, MOST_ENTRIES, ROOM};
use programs::MOST_INPUT;
use std::io;

// The new record, which stands at the front of the buffer.
fn hand_out(to: &impl Print, new: &[u8], size: u32) -> io::Result<()>
    requires { size ≤ length new.now }
{
    to.write_all(&new[..size as usize])
}

fn main(rt: HostRuntime) -> io::Result<()> {
    let mut input = [0u8; MOST_INPUT];
    let mut rows = [0u16; MOST_ENTRIES];
    let mut lambda = [0u8; ROOM];
    let mut delta = [0u8; ROOM];
    let mut table = [0u16; MOST_ENTRIES];
    let mut new = [0u8; MOST_BYTES];
    let length = programs::read_full(&mut rt.stdin(), &mut input)?;
    match converting::convert(
        &input[..length],
        &mut rows,
        &mut lambda,
        &mut delta,
        &mut table,
        &mut new,
    ) {
        Err(r) => programs::refuse(&rt.stderr(), r),
        Ok(size) => hand_out(&rt, &new, size),
    }
}
