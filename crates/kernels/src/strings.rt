// The darts strung by kernel, and what is read of one dart: whether it is in a kernel, the next of its kernel, an entry.
ghost use Rattle.std.specs.Prelude.{◌≡◌, ◌&&◌, ℕ, ◌+◌, ◌*◌, ◌<◌, ◌≤◌, length, set, eqb};
ghost use Rattle.maps.specs.Table.{entry, each};
ghost use Rattle.kernels.specs.Strings.{Unstrung, Linked};
ghost use Rattle.kernels.specs.Ready.{Place};

use super::Kernel;
use answers::{Dim, Mark, ROOM};

impl Kernel<'_> {
    // Is dart d in the kernel?
    pub fn removed(&self, d: usize) -> bool
        requires { d < length self.now.lambda.now }
        ensures { result ≡ eqb (each self.now.lambda.now d) self.now.level.0 }
    {
        answers::in_kernel(answers::lambda_at(self.lambda, d), self.level)
    }

    // Is it in the kernel with this mark?
    pub(crate) fn in_kernel(&self, mark: Mark, d: usize) -> bool
        requires { (d < length self.now.lambda.now) × (d < length self.now.delta.now) }
        ensures { result ≡ (eqb (each self.now.lambda.now d) self.now.level.0 && eqb (each self.now.delta.now d) mark.0) }
    {
        self.removed(d) && answers::delta_at(self.delta, d) == mark
    }

    // The next dart of its kernel.
    pub fn next_of(&self, d: usize) -> usize
        requires { d < 4096 }
        ensures { result ≡ each self.now.next.now d }
    {
        self.next[d] as usize
    }
}

// The entry of dart d in row i, as a dart. Darts are counted in words here: a loop along a string then has no narrow number to widen.
pub fn at(darts: usize, table: &[u16], i: Dim, d: usize) -> usize
    requires { Place darts table.now i.0 d }
    ensures { (result ≡ entry darts table.now i.0 d) × (result < 65536) }
{
    let row = i.0 as usize * darts;
    let on = &table[row..];
    on[d] as usize
}

// The entry of dart d in row i is stored.
pub fn put(darts: usize, i: Dim, d: usize, entry: u16, table: &mut [u16])
    requires { Place darts table.old i.0 d }
    ensures { table.new ≡ set table.old (i.0 * darts + d) entry }
{
    table[i.0 as usize * darts + d] = entry;
}

// The heads of the strings: one for each number that a byte of Λ may be.
pub const HEADS: usize = 256;

// The darts strung by kernel: the first of each kernel, and the next after each dart, by number, since no crate uses the heap. Who strings darts writes the empty strings out: a function or a constant that gave them would take their memory twice.
#[derive(Drop)]
pub struct Strings {
    pub head: [u16; HEADS],
    pub next: [u16; ROOM],
}

impl Strings {
    // The darts of Λ are strung, from the last to the first, so that each string rises.
    pub fn string(&mut self, lambda: &[u8])
        requires { (length lambda.now ≤ 4096) × Unstrung self.old.head self.old.next }
        ensures { Linked (length lambda.now) (each lambda.now) 0 self.new.head self.new.next }
    {
        // By dart: its number becomes its string's head.
        for d in (0..lambda.len()).rev() {
            let kernel = answers::lambda_at(lambda, d);
            let k = kernel.0 as usize;
            self.next[d] = self.head[k];
            self.head[k] = d as u16;
        }
    }
}
