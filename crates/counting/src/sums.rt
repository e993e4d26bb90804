// The alternating sum of each level, from the counts of all. Assumes nothing.
ghost use Rattle.std.specs.Prelude.{◌≡◌, ◌≤◌, pos, ◌-ℤ◌};
ghost use Rattle.maps.specs.Table.{each};
ghost use Rattle.maps.specs.Census.{alternating};
ghost use Rattle.counting.specs.Counts.{Summed};

use answers::{LEVELS, MOST_ROWS};

// The counts with plus less those with minus, which may be below zero.
fn difference(plus: u32, minus: u32) -> i32
    requires { (plus ≤ 196605) × (minus ≤ 196605) }
    ensures { result ≡ pos plus -ℤ pos minus }
{
    plus as i32 - minus as i32
}

// The alternating sum of one level.
fn sum_of(row: [u16; MOST_ROWS]) -> i32
    ensures { result ≡ alternating (each row) 5 }
{
    let plus = u32::from(row[0]) + u32::from(row[2]) + u32::from(row[4]);
    let minus = u32::from(row[1]) + u32::from(row[3]);
    difference(plus, minus)
}

// The alternating sum of each level. A loop: the library's map of an array keeps a second array, and a trap that cannot come.
pub(crate) fn sums_of(counts: [[u16; MOST_ROWS]; LEVELS]) -> [i32; LEVELS]
    ensures { Summed counts result }
{
    let mut sums = [0i32; LEVELS];
    for (l, sum) in sums.iter_mut().enumerate() {
        *sum = sum_of(counts[l]);
    }
    sums
}
