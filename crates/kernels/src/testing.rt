// Numbers 9 and 10 of one kernel, on an explicit level. The first place found is the one reported.
ghost use Rattle.std.specs.Prelude.{◌≡◌, true, ◌&&◌, not, ℕ, ◌<◌, ◌≤◌, length};
ghost use Rattle.maps.specs.Mark.{is_mark, stay, has_beyond};
ghost use Rattle.maps.specs.Table.{entry};
ghost use Rattle.maps.specs.Check.{differs, check9, check10, check_kernel};
ghost use Rattle.answers.specs.Numbers.{verdict_of};
ghost use Rattle.answers.specs.Rows.{Rows};
ghost use Rattle.kernels.specs.Ready.{map_of, row_of, Place, TestedOn, StrungIn, leaves_by};

use super::Kernel;
use super::strings::at;
use answers::{Dim, Mark, Refusal};

// Number 10 of one dart of this mark, which has a row beyond: does it end at the same place by the mark's second row and then the row beyond it as in the other order?
pub(crate) fn commuting(n: Dim, darts: usize, table: &[u16], mark: Mark, d: usize) -> bool
    requires rows { Rows n.0 darts table.now × (is_mark n.0 mark.0 ≡ true) × (d < darts) × (has_beyond n.0 mark.0 ≡ true) }
    requires by_index { (t : ℕ) → t ≤ n.0 → entry darts table.now t d < darts }
    ensures { not result ≡ (has_beyond n.0 mark.0 && differs (entry darts table.now) (λ _. mark.0) d) }
{
    let rows = answers::between(mark);
    let near = rows.1;
    let far = answers::beyond(n, mark);
    let by_near = at(darts, table, near, d);
    let by_far = at(darts, table, far, d);
    at(darts, table, far, by_near) == at(darts, table, near, by_far)
}

impl Kernel<'_> {
    // Number 9 at one place: does involution j, which is not the mark's first row, lead from dart d to one that is not in the kernel with its mark?
    fn leaving(&self, table: &[u16], mark: Mark, d: usize, j: Dim) -> bool
        requires place { Place self.now.darts table.now j.0 d × (mark.0 < stay) }
        requires dart_in_bounds { (entry self.now.darts table.now j.0 d < length self.now.lambda.now) × (entry self.now.darts table.now j.0 d < length self.now.delta.now) }
        ensures { result ≡ leaves_by self.now table.now mark.0 d j.0 }
    {
        let rows = answers::between(mark);
        if j == rows.0 {
            return false;
        }
        let e = at(self.darts as usize, table, j, d);
        !self.in_kernel(mark, e)
    }

    // Number 9: the first dart of the kernel from which an involution leaves it, and that involution.
    pub fn whole(&self, table: &[u16]) -> Result<(), Refusal>
        requires tested { TestedOn self.now table.now }
        requires strung { StrungIn self.now }
        ensures { verdict_of result ≡ check9 (map_of self.now table.now) self.now.n.0 self.now.darts (row_of self.now) self.now.level.0 }
    {
        let n = self.n;
        let darts = self.darts as usize;
        let mut found = Ok(());
        let mut d = self.first as usize;
        'darts: while d < darts {
            let mark = answers::delta_at(self.delta, d);
            for j in 0..n.0 + 1 {
                if self.leaving(table, mark, d, Dim(j)) {
                    found = Err(Refusal::NotWhole(self.level, Dim(j), d as u16));
                    break 'darts;
                }
            }
            d = self.next_of(d);
        }
        found
    }

    // Number 10: the first dart of the kernel whose own commuting test fails.
    fn fitting(&self, table: &[u16]) -> Result<(), Refusal>
        requires tested { TestedOn self.now table.now }
        requires strung { StrungIn self.now }
        ensures { verdict_of result ≡ check10 (map_of self.now table.now) self.now.n.0 self.now.darts (row_of self.now) self.now.level.0 }
    {
        let n = self.n;
        let darts = self.darts as usize;
        let mut d = self.first as usize;
        while d < darts {
            let mark = answers::delta_at(self.delta, d);
            if answers::has_beyond(n, mark) && !commuting(n, darts, table, mark, d) {
                let rows = answers::between(mark);
                return Err(Refusal::NotRemovable(self.level, rows.1, d as u16));
            }
            d = self.next_of(d);
        }
        Ok(())
    }

    // Numbers 9 and 10 of the kernel; the place is sought only if there is one.
    pub fn tested(&self, table: &[u16]) -> Result<(), Refusal>
        requires tested { TestedOn self.now table.now }
        requires strung { StrungIn self.now }
        ensures { verdict_of result ≡ check_kernel (map_of self.now table.now) self.now.n.0 self.now.darts (row_of self.now) self.now.level.0 }
    {
        let kernel = *self;
        if kernel.fits(table) {
            return Ok(());
        }
        self.whole(table)?;
        self.fitting(table)
    }
}
