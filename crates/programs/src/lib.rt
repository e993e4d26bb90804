// What the programs share: a record read and its pyramid handed on, a refusal printed. Which bytes are read and what is printed no contract can say.
#![tactic(auto)]

ghost use Rattle.std.specs.Io.{ReadsAtMost};

use answers::{MOST_ENTRIES, Pyramid, ROOM, Refusal};
use std::io;
use std::io::Read;

// Bytes of the input at most. Where there are more, what follows is never read.
pub const MOST_INPUT: usize = 65_536;

// Reads until buf is full or the input ends, and returns how many bytes stand at its start.
pub fn read_full<R: Read>(input: &mut R, buf: &mut [u8]) -> io::Result<usize>
    ensures { ReadsAtMost result buf.new }
{
    let mut done = 0;
    // By length: a read may bring fewer bytes than it is asked.
    while done < buf.len() {
        let n = input.read(&mut buf[done..])?;
        if n == 0 {
            break;
        }
        done += n;
    }
    Ok(done)
}

// A refusal prints one line: the word refused, then number, level, involution and dart.
pub fn refuse(to: &impl Print, refusal: Refusal) -> io::Result<()> {
    println!(to; "refused {refusal}")
}

// Takes a record from the input and hands its pyramid on, with a table of its size; a refusal is printed.
pub fn with_pyramid<R: Read, P: Print, F: FnOnce(&Pyramid<'_>, &mut [u16]) -> io::Result<()>>(
    input: &mut R,
    to: &P,
    show: F,
) -> io::Result<()>
    requires { F.IsAlwaysCallable show }
{
    let mut bytes = [0u8; MOST_INPUT];
    let mut rows = [0u16; MOST_ENTRIES];
    let mut lambda = [0u8; ROOM];
    let mut delta = [0u8; ROOM];
    let mut table = [0u16; MOST_ENTRIES];
    let length = read_full(input, &mut bytes)?;
    match taking::take(
        &bytes[..length],
        &mut rows,
        &mut lambda,
        &mut delta,
        &mut table,
    ) {
        Err(r) => refuse(to, r),
        Ok(sizes) => {
            let width = sizes.darts as usize;
            let size = answers::entries(sizes.n, sizes.darts);
            let pyramid = Pyramid {
                sizes,
                rows: &rows[..size],
                lambda: &lambda[..width],
                delta: &delta[..width],
            };
            show(&pyramid, &mut table[..size])
        },
    }
}
