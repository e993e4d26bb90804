// One kernel, tested and removed in place on an explicit level. Each function says what it asks of its caller: the level is a valid map, and the kernel's darts are strung.
#![tactic(auto)]

mod fits; // fits.rt: numbers 9 and 10 with a yes or no
mod removing; // removing.rt: a kernel removed in place
mod strings; // strings.rt: the darts strung by kernel, and what is read of one
mod testing; // testing.rt: numbers 9 and 10 of a kernel, with the place

ghost use Rattle.std.specs.Prelude.{◌≡◌};
ghost use Rattle.maps.specs.Check.{check_kernel};
ghost use Rattle.answers.specs.Numbers.{verdict_of};
ghost use Rattle.kernels.specs.Ready.{map_of, row_of, TestedOn, StrungIn, step_leaves};

use answers::{Dim, Level, ROOM, Refusal};
pub use strings::{HEADS, Strings, at, put};

// One kernel of a map: n and N, its level, Λ and Δ of all darts, and its darts strung: the first of them, and the next after each.
#[derive(Clone, Copy)]
pub struct Kernel<'a> {
    pub n: Dim,
    pub darts: u16,
    pub level: Level,
    pub first: u16,
    pub lambda: &'a [u8],
    pub delta: &'a [u8],
    pub next: &'a [u16; ROOM],
}

impl Kernel<'_> {
    // The kernel: tested, and removed where it is accepted.
    pub fn step(&self, table: &mut [u16]) -> Result<(), Refusal>
        requires tested { TestedOn self.now table.old }
        requires strung { StrungIn self.now }
        ensures verdict { verdict_of result ≡ check_kernel (map_of self.now table.old) self.now.n.0 self.now.darts (row_of self.now) self.now.level.0 }
        ensures table_left { table.new ≡ step_leaves self.now.n.0 self.now.darts self.now.level.0 (row_of self.now) table.old }
    {
        self.tested(table)?;
        self.remove(table);
        Ok(())
    }
}
