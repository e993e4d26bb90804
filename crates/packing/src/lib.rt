// The survivors of a level, packed to the front of rows and marks, in place and front to back: an entry is written at or before the place where it was read.
#![tactic(auto)]

ghost use Rattle.std.specs.Prelude.{◌≡◌, ℕ, suc, ◌+◌, ◌-◌, ◌*◌, ◌≤◌, ◌<◌, length};
ghost use Rattle.maps.specs.Table.{each};
ghost use Rattle.maps.specs.Folded.{survives};
ghost use Rattle.packing.specs.Packing.{RowInside, RowPacked, EntriesInside, count_on, ranks_on, packed_rows, packedΛ, packedΔ, packed_old};

use answers::{ABSENT, Dim, Level, STAY};

// Is dart d on the level?
fn stands(lambda: &[u8], level: Level, d: usize) -> bool
    requires { d < length lambda.now }
    ensures { result ≡ survives (each lambda.now) level.0 d }
{
    !answers::is_gone(answers::lambda_at(lambda, d), level)
}

// The rank of each dart: how many survivors are below it. The answer is how many there are. By index: one of two rows side by side is written.
pub fn rank(lambda: &[u8], level: Level, ranks: &mut [u16]) -> u16
    requires { (length lambda.now ≤ 4096) × (length ranks.old ≡ length lambda.now) }
    ensures answer { result ≡ count_on lambda.now level.0 }
    ensures ranks_left { ranks.new ≡ ranks_on lambda.now level.0 }
{
    let mut below: u16 = 0;
    for d in 0..lambda.len() {
        ranks[d] = below;
        if stands(lambda, level, d) {
            below = below + 1;
        }
    }
    below
}

// The entries of the survivors in the row that begins at `from`, as ranks, put one after the other from `to` on. By index: the part written lies in the row that is read, before what is read.
fn pack_row(lambda: &[u8], level: Level, ranks: &[u16], rows: &mut [u16], from: usize, to: usize)
    requires { (to ≤ from) × (from + length lambda.now ≤ length rows.old) × RowInside lambda.now level.0 ranks.now rows.old from }
    ensures { RowPacked lambda.now level.0 ranks.now from to rows.old rows.new }
{
    let mut next = to;
    for d in 0..lambda.len() {
        if stands(lambda, level, d) {
            let neighbour = rows[from + d] as usize;
            rows[next] = ranks[neighbour];
            next = next + 1;
        }
    }
}

// All rows, each of the new length, one after the other.
pub fn pack_rows(n: Dim, lambda: &[u8], level: Level, ranks: &[u16], count: usize, rows: &mut [u16])
    requires n_bound { (n.0 ≤ 4) × (length lambda.now ≤ 4096) × (length rows.old ≡ suc n.0 * length lambda.now) × (count ≡ count_on lambda.now level.0) }
    requires ranks_value { (ranks.now ≡ ranks_on lambda.now level.0) × ((i : ℕ) → i ≤ n.0 → EntriesInside lambda.now level.0 rows.old i) }
    ensures { rows.new ≡ packed_rows n.0 lambda.now level.0 count rows.old }
{
    let darts = lambda.len();
    let mut from: usize = 0;
    let mut to: usize = 0;
    for i in 0..n.0 + 1 {
        pack_row(lambda, level, ranks, rows, from, to);
        from = from + darts;
        to = to + count;
    }
    rows[to..].fill(ABSENT);
}

// Λ, reduced by the level, Δ and the old numbers. By index: the part written lies before what is read.
pub fn pack_marks(level: Level, lambda: &mut [u8], delta: &mut [u8], old: &mut [u16])
    requires { (length lambda.old ≤ 4096) × (length delta.old ≡ length lambda.old) × (length old.old ≡ length lambda.old) }
    ensures lambda_left { lambda.new ≡ packedΛ lambda.old level.0 }
    ensures delta_left { delta.new ≡ packedΔ lambda.old delta.old level.0 }
    ensures old_left { old.new ≡ packed_old lambda.old level.0 }
{
    let mut next: usize = 0;
    for d in 0..lambda.len() {
        if stands(lambda, level, d) {
            lambda[next] = lambda[d] - level.0;
            delta[next] = delta[d];
            old[next] = d as u16;
            next = next + 1;
        }
    }
    lambda[next..].fill(STAY);
    delta[next..].fill(STAY);
    old[next..].fill(ABSENT);
}
