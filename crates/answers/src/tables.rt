// An entry of a table, and whether a dart of an explicit level is present; Λ and Δ of a dart, as a level and a mark; the survivors of a level. Assumes nothing.
ghost use Rattle.std.specs.Prelude.{◌≡◌, not, ◌+◌, ◌*◌, ◌≤◌, ◌<◌, length, eqb, ltb};
ghost use Rattle.maps.specs.Table.{entry, each};
ghost use Rattle.maps.specs.Explicit.{present};
ghost use Rattle.maps.specs.Folded.{survivors};
ghost use Rattle.answers.specs.Rows.{Corner, ends_alike};

use super::{ABSENT, Dim, Level, Mark};

// A table of the rows of a map: its n, its darts, and n+1 rows of so many entries.
#[derive(Clone, Copy)]
pub struct Table<'a> {
    pub n: Dim,
    pub darts: u16,
    pub entries: &'a [u16],
}

impl Table<'_> {
    // The entry of dart d in row i. The part from row i on is named first: in a loop over darts its start is then computed once.
    pub fn at(&self, i: Dim, d: u16) -> u16
        requires { (i.0 * self.now.darts + d < length self.now.entries.now) × (length self.now.entries.now ≤ 20480) }
        ensures { result ≡ entry self.now.darts self.now.entries.now i.0 d }
    {
        at(self.darts, self.entries, i, d)
    }

    // Is dart d present?
    pub fn there(&self, d: u16) -> bool
        requires { (0 * self.now.darts + d < length self.now.entries.now) × (length self.now.entries.now ≤ 20480) }
        ensures { result ≡ present self.now.darts self.now.entries.now d }
    {
        self.at(Dim(0), d) != ABSENT
    }

    // Does dart d end at the same place by row i and then j as by j and then i?
    pub fn commute(&self, i: Dim, j: Dim, d: u16) -> bool
        requires { Corner self.now.darts self.now.entries.now i.0 j.0 d }
        ensures { result ≡ ends_alike self.now.darts self.now.entries.now i.0 j.0 d }
    {
        let by_i = self.at(i, d);
        let by_j = self.at(j, d);
        self.at(j, by_i) == self.at(i, by_j)
    }
}

// The entry of dart d in row i. The part from row i on is named first: in a loop over darts its start is then computed once.
pub fn at(darts: u16, table: &[u16], i: Dim, d: u16) -> u16
    requires { (i.0 * darts + d < length table.now) × (length table.now ≤ 20480) }
    ensures { result ≡ entry darts table.now i.0 d }
{
    let start = i.0 as usize * darts as usize;
    let rows = &table[start..];
    rows[d as usize]
}

// Λ of dart d.
pub fn lambda_at(lambda: &[u8], d: usize) -> Level
    requires { d < length lambda.now }
    ensures { result.0 ≡ each lambda.now d }
{
    Level(lambda[d])
}

// Δ of dart d, or its byte of a mark row.
pub fn delta_at(delta: &[u8], d: usize) -> Mark
    requires { d < length delta.now }
    ensures { result.0 ≡ each delta.now d }
{
    Mark(delta[d])
}

// Is a dart with this Λ gone from a level?
pub fn is_gone(lambda: Level, level: Level) -> bool
    ensures { result ≡ ltb lambda.0 level.0 }
{
    lambda.0 < level.0
}

// Is a dart with this Λ in the kernel of a level?
pub fn in_kernel(lambda: Level, level: Level) -> bool
    ensures { result ≡ eqb lambda.0 level.0 }
{
    lambda.0 == level.0
}

// How many of 128 darts are on a level: a byte holds the count, so the compiler counts 16 darts at a time.
fn block_on(part: &[u8], level: Level) -> u8
    requires { length part.now ≡ 128 }
    ensures { result ≡ survivors 128 (each part.now) level.0 }
{
    let mut count: u8 = 0;
    for own in part {
        if level.0 <= *own {
            count = count + 1;
        }
    }
    count
}

// How many darts are on a level, one after the other.
fn rest_on(part: &[u8], level: Level) -> u16
    requires { length part.now ≤ 4096 }
    ensures { result ≡ survivors (length part.now) (each part.now) level.0 }
{
    let mut count: u16 = 0;
    for own in part {
        if !is_gone(Level(*own), level) {
            count = count + 1;
        }
    }
    count
}

// How many darts are on a level: in blocks of 128, and then the rest.
pub fn survivors_on(lambda: &[u8], level: Level) -> u16
    requires { length lambda.now ≤ 4096 }
    ensures { result ≡ survivors (length lambda.now) (each lambda.now) level.0 }
{
    let mut count: u16 = 0;
    let blocks = lambda.len() / 128;
    for b in 0..blocks {
        let start = 128 * b;
        let end = start + 128;
        count = count + u16::from(block_on(&lambda[start..end], level));
    }
    let rest = 128 * blocks;
    count + rest_on(&lambda[rest..], level)
}

// Copies a slice into another of its length. Not by `copy_from_slice`, which calls memmove: of the C library the archives ask memset and memcpy alone.
pub fn copy<T: Copy>(from: &[T], to: &mut [T])
    requires { length to.old ≡ length from.now }
    ensures { to.new ≡ from.now }
{
    for (k, item) in from.iter().enumerate() {
        to[k] = *item;
    }
}
