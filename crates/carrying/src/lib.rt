// A number for each link of a level, carried along where a kernel is taken out: the counts, and the levels since which. The block of the level stands as it is.
#![tactic(auto)]

ghost use Rattle.std.specs.Prelude.{◌≡◌, true, ◌&&◌, ◌*◌, ◌<◌, ◌≤◌, length, eqb, MatchOption};
ghost use Rattle.maps.specs.Mark.{is_mark, between as between_of};
ghost use Rattle.maps.specs.Table.{each};
ghost use Rattle.kernels.specs.Ready.{row_of};
ghost use Rattle.carrying.specs.Carried.{Fits, counts_on, CanFollow, CanTake, Within, Enters, CountsLed, SinceLed};

use answers::Dim;
use kernels::{Kernel, at, put};

// Is dart d in the kernel, with a mark whose first row is i?
fn passes(kernel: &Kernel<'_>, i: Dim, d: usize) -> bool
    requires { (d < length kernel.now.lambda.now) × (d < length kernel.now.delta.now) × (each kernel.now.lambda.now d ≡ kernel.now.level.0 → each kernel.now.delta.now d < 255) }
    ensures { result ≡ (eqb (each kernel.now.lambda.now d) kernel.now.level.0 && eqb (between_of (each kernel.now.delta.now d)).0 i.0) }
{
    if kernel.removed(d) {
        let rows = answers::between(answers::delta_at(kernel.delta, d));
        return rows.0 == i;
    }
    false
}

// The counts of the links by which the removal goes on from dart d of the kernel, by the first row of its mark.
fn follow(kernel: &Kernel<'_>, block: &[u16], reads: &[u16], i: Dim, d: usize) -> usize
    requires can_follow { CanFollow kernel.now block.now reads.now }
    requires row_le_n { (i.0 ≤ kernel.now.n.0) × (d < kernel.now.darts) × (each kernel.now.lambda.now d ≡ kernel.now.level.0) × ((between_of (each kernel.now.delta.now d)).0 ≡ i.0) }
    ensures answer { result ≡ counts_on kernel.now block.now reads.now i.0 d }
    ensures small { result ≤ 131072 * 4096 }
{
    let darts = kernel.darts as usize;
    let mut sum: usize = 0;
    let mut turns: usize = 0;
    let mut e = d;
    while turns < darts {
        let rows = answers::between(answers::delta_at(kernel.delta, e));
        let second = rows.1;
        let y = at(darts, block, second, e);
        sum = sum + at(darts, reads, second, e) + at(darts, reads, i, y);
        e = at(darts, block, i, y);
        turns = turns + 1;
        if !passes(kernel, i, e) {
            return sum;
        }
    }
    sum
}

// The link that leads to dart d of the kernel by the first row of its mark: that row, and the survivor that it leads from. None where it leads from the kernel.
fn entering(kernel: &Kernel<'_>, block: &[u16], d: usize) -> Option<(Dim, usize)>
    requires { CanTake kernel.now block.now × (d < kernel.now.darts) × (is_mark kernel.now.n.0 (row_of kernel.now d) ≡ true) }
    ensures { MatchOption result (Within kernel.now block.now d) (λ link. Enters kernel.now block.now d link.0.0 link.1) }
{
    let rows = answers::between(answers::delta_at(kernel.delta, d));
    let i = rows.0;
    let b = at(kernel.darts as usize, block, i, d);
    if kernel.removed(b) {
        return None;
    }
    Some((i, b))
}

// The counts of the links that lead into the kernel, summed over the links that they are made of.
pub fn carry(kernel: &Kernel<'_>, block: &[u16], reads: &mut [u16])
    requires can_take { CanTake kernel.now block.now }
    requires reads_len { (length reads.old ≡ length block.now) × Fits kernel.now.n.0 kernel.now.darts (row_of kernel.now) block.now reads.old }
    ensures { CountsLed kernel.now block.now reads.old reads.new }
{
    let darts = kernel.darts as usize;
    let mut d = kernel.first as usize;
    while d < darts {
        if let Some((i, b)) = entering(kernel, block, d) {
            let more = follow(kernel, block, reads, i, d);
            let sum = at(darts, reads, i, b) + more;
            put(darts, i, b, sum as u16, reads);
        }
        d = kernel.next_of(d);
    }
}

// The links that lead into the kernel stand since the next level. No closure for both: `carry` reads the table that it writes.
pub fn date(kernel: &Kernel<'_>, block: &[u16], since: &mut [u16])
    requires can_take { CanTake kernel.now block.now }
    requires since_len { length since.old ≡ length block.now }
    ensures { SinceLed kernel.now block.now since.old since.new }
{
    let darts = kernel.darts as usize;
    let mut d = kernel.first as usize;
    while d < darts {
        if let Some((i, b)) = entering(kernel, block, d) {
            put(darts, i, b, u16::from(kernel.level.0) + 1, since);
        }
        d = kernel.next_of(d);
    }
}
