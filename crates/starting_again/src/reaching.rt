// The kernels below a level, removed in the rows themselves. The strings of the darts by kernel, 8,704 bytes, are all the local memory here.
ghost use Rattle.starting_again.specs.Reaching.{HasLevel, HoldsLevel};

use answers::{ABSENT, Dim, Level, ROOM};
use kernels::{HEADS, Kernel, Strings};

// Kernels 0 to level−1, in rising order. They are accepted, so none is tested again.
pub(crate) fn climb(
    n: Dim,
    darts: usize,
    level: Level,
    lambda: &[u8],
    delta: &[u8],
    rows: &mut [u16],
)
    requires { HasLevel n.0 darts rows.old lambda.now delta.now level.0 }
    ensures { HoldsLevel n.0 darts rows.old lambda.now delta.now level.0 rows.new }
{
    let mut strings = Strings {
        head: [ABSENT; HEADS],
        next: [0; ROOM],
    };
    strings.string(lambda);
    // By level: it picks the string, and is the kernel's own.
    for l in 0..level.0 {
        let kernel = Kernel {
            n,
            darts: darts as u16,
            level: Level(l),
            first: strings.head[l as usize],
            lambda,
            delta,
            next: &strings.next,
        };
        kernel.remove(rows);
    }
}
