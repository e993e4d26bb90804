// Numbers 9 and 10 of one kernel with a yes or no, one mark at a time. Where the answer is no, testing.rt seeks the place.
ghost use Rattle.std.specs.Prelude.{◌≡◌, Bool, true, ℕ, ◌<◌, ◌≤◌, length};
ghost use Rattle.maps.specs.Verdict.{accepted};
ghost use Rattle.maps.specs.Mark.{is_mark, stay};
ghost use Rattle.maps.specs.Table.{entry, each};
ghost use Rattle.maps.specs.Check.{check_kernel};
ghost use Rattle.answers.specs.Rows.{Rows};
ghost use Rattle.kernels.specs.Ready.{map_of, row_of, TestedOn, StrungIn};
ghost use Rattle.kernels.specs.Walked.{other_row, NineOf, Together, Alike, Run, Commuting};

use super::Kernel;
use super::strings::at;
use super::testing::commuting;
use answers::{Dim, Mark};

// The k-th row of a map, from 0 on, without the first row of the mark.
fn other(mark: Mark, k: u8) -> Dim
    requires { (mark.0 < stay) × (k < 4) }
    ensures { result.0 ≡ other_row mark.0 k }
{
    let rows = answers::between(mark);
    if k < rows.0.0 {
        return Dim(k);
    }
    Dim(k + 1)
}

impl Kernel<'_> {
    // Number 9 of dart d, which has this mark: does every row but the first of its mark lead into the kernel with its mark?
    fn together(&self, n: Dim, table: &[u16], mark: Mark, d: usize) -> bool
        requires rows { Rows n.0 (length self.now.lambda.now) table.now × (length self.now.delta.now ≡ length self.now.lambda.now) × (d < length self.now.lambda.now) × (is_mark n.0 mark.0 ≡ true) }
        requires by_index { (t : ℕ) → t ≤ n.0 → entry (length self.now.lambda.now) table.now t d < length self.now.lambda.now }
        ensures { result ≡ true → Together n.0 self.now.level.0 self.now.lambda.now self.now.delta.now table.now mark.0 d }
    {
        let darts = self.lambda.len();
        for k in 0..n.0 {
            let e = at(darts, table, other(mark, k), d);
            if !self.in_kernel(mark, e) {
                return false;
            }
        }
        true
    }

    // Along the string from a dart on, while darts have its mark and number 9 is not due: where that ends.
    fn whole_on(&self, n: Dim, table: &[u16], mark: Mark, from: usize) -> usize
        requires nine { NineOf n.0 self.now table.now from }
        requires dart_in_bounds { (from < length self.now.lambda.now) × (each self.now.delta.now from ≡ mark.0) }
        ensures whole { NineOf n.0 self.now table.now result }
        ensures alike { (from ≤ result) × (result ≤ length self.now.lambda.now) × Alike self.now.level.0 self.now.lambda.now self.now.delta.now mark.0 from result }
    {
        let darts = self.lambda.len();
        let mut d = from;
        while d < darts {
            if answers::delta_at(self.delta, d) != mark {
                return d;
            }
            if !self.together(n, table, mark, d) {
                return d;
            }
            d = self.next_of(d);
        }
        darts
    }

    // The same, with n as a number that the compiler knows where it is one: all rows of a dart are then taken in one go.
    fn whole_alike(&self, table: &[u16], mark: Mark, from: usize) -> usize
        requires nine { NineOf self.now.n.0 self.now table.now from }
        requires dart_in_bounds { (from < length self.now.lambda.now) × (each self.now.delta.now from ≡ mark.0) }
        ensures whole { NineOf self.now.n.0 self.now table.now result }
        ensures alike { (from ≤ result) × (result ≤ length self.now.lambda.now) × Alike self.now.level.0 self.now.lambda.now self.now.delta.now mark.0 from result }
    {
        match self.n.0 {
            1 => self.whole_on(Dim(1), table, mark, from),
            2 => self.whole_on(Dim(2), table, mark, from),
            3 => self.whole_on(Dim(3), table, mark, from),
            4 => self.whole_on(Dim(4), table, mark, from),
            _ => self.whole_on(self.n, table, mark, from),
        }
    }

    // Number 10 of the darts strung from one to below another, all of this mark: is it due at none?
    fn commute_alike(&self, table: &[u16], mark: Mark, from: usize, to: usize) -> bool
        requires { Rows self.now.n.0 self.now.darts table.now × (is_mark self.now.n.0 mark.0 ≡ true) × (to ≤ self.now.darts) × ((test : ℕ → Bool) × Run test self.now.n.0 self.now.darts self.now.next.now table.now from) }
        ensures { result ≡ true → Commuting self.now.n.0 self.now.darts self.now.next.now table.now mark.0 from to }
    {
        let n = self.n;
        let darts = self.darts as usize;
        if !answers::has_beyond(n, mark) {
            return true;
        }
        let mut d = from;
        while d < to {
            if !commuting(n, darts, table, mark, d) {
                return false;
            }
            d = self.next_of(d);
        }
        true
    }

    // Is neither number due at any dart of the kernel?
    pub(crate) fn fits(&self, table: &[u16]) -> bool
        requires tested { TestedOn self.now table.now }
        requires strung { StrungIn self.now }
        ensures { result ≡ true → check_kernel (map_of self.now table.now) self.now.n.0 self.now.darts (row_of self.now) self.now.level.0 ≡ accepted }
    {
        let darts = self.darts as usize;
        let mut d = self.first as usize;
        while d < darts {
            let mark = answers::delta_at(self.delta, d);
            let end = self.whole_alike(table, mark, d);
            if end == d {
                return false;
            }
            if !self.commute_alike(table, mark, d, end) {
                return false;
            }
            d = end;
        }
        true
    }
}
