// One kernel removed in place: survivors' entries are rewritten while the entries of the kernel's darts still stand, and these become 65,535 when all walks have ended.
ghost use Rattle.std.specs.Prelude.{◌≡◌, Bool, ◌&&◌, ℕ, ◌+◌, ◌*◌, ◌<◌, ◌≤◌, length, set, eqb, ltb};
ghost use Rattle.maps.specs.Mark.{between as between_of};
ghost use Rattle.maps.specs.Table.{entry, each};
ghost use Rattle.answers.specs.Rows.{Rows};
ghost use Rattle.kernels.specs.Strings.{Along, Strings as SomeStrung, Marks};
ghost use Rattle.kernels.specs.Ready.{row_of, Place, ReadyOn, StrungIn, Followed, past_marks, turns_past, turns_made, LinksPast, Cleared, removed_from};
ghost use Rattle.kernels.specs.Relinked.{Midway, Relinks};

use super::Kernel;
use super::strings::{at, put};
use answers::{ABSENT, Dim};

// The link between b and e in row i is stored, at both ends.
fn join(darts: usize, i: Dim, b: usize, e: usize, table: &mut [u16])
    requires { Place darts table.old i.0 b × Place darts table.old i.0 e }
    ensures { table.new ≡ set (set table.old (i.0 * darts + b) e) (i.0 * darts + e) b }
{
    put(darts, i, b, e as u16, table);
    put(darts, i, e, b as u16, table);
}

// Where following ends, and the turns that it took.
#[derive(Clone, Copy)]
struct End {
    dart: usize,
    turns: usize,
}

// The entries of a dart cleared: 65,535 in every row.
fn clear_dart(n: Dim, darts: usize, d: usize, table: &mut [u16])
    requires { Rows n.0 darts table.old × (d < darts) }
    ensures { Cleared darts (λ t k. eqb k d && ltb t (n.0 + 1)) table.old table.new }
{
    for i in 0..n.0 + 1 {
        put(darts, Dim(i), d, ABSENT, table);
    }
}

impl Kernel<'_> {
    // From dart d of the kernel, and the first row of its mark, while there is a dart of the kernel whose mark has that first row: on by the second row of that mark, then by the first. The rows of a mark are found anew only where it changes.
    fn follow(&self, table: &[u16], i: Dim, d: usize) -> End
        requires marks { Marks self.now.n.0 self.now.darts self.now.level.0 self.now.lambda.now self.now.delta.now × Followed self.now.n.0 self.now.darts (row_of self.now) table.now }
        requires row_le_n { (i.0 ≤ self.now.n.0) × (d < self.now.darts) × (each self.now.lambda.now d ≡ self.now.level.0) × ((between_of (each self.now.delta.now d)).0 ≡ i.0) }
        ensures end { (result.dart ≡ past_marks self.now table.now i.0 d) × (result.dart < self.now.darts) }
        ensures turns { result.turns ≡ turns_past self.now table.now i.0 d }
    {
        let darts = self.darts as usize;
        let mut mark = answers::delta_at(self.delta, d);
        let mut rows = answers::between(mark);
        let mut turns = 0;
        let mut e = d;
        while turns < darts {
            e = at(darts, table, i, at(darts, table, rows.1, e));
            turns = turns + 1;
            if !self.removed(e) {
                return End { dart: e, turns };
            }
            let met = answers::delta_at(self.delta, e);
            if met != mark {
                mark = met;
                rows = answers::between(mark);
                if rows.0 != i {
                    return End { dart: e, turns };
                }
            }
        }
        End { dart: e, turns }
    }

    // Survivors relinked, from the darts of the kernel along its string from one dart on, while they have its mark: where one leads to a survivor by its mark's first row, the survivor is linked to the one past the marks. A survivor that no longer leads back has its link from the other end. The answer is where that ends, and how many turns were taken. One mark at a time, so that its rows are found once.
    fn relink_alike(&self, start: usize, table: &mut [u16]) -> End
        requires { (start < self.now.darts) × Midway self.now table.old start }
        ensures further { start < result.dart }
        ensures relinked { Relinks self.now table.old start table.new result.dart result.turns }
    {
        let darts = self.darts as usize;
        let mark = answers::delta_at(self.delta, start);
        let rows = answers::between(mark);
        let i = rows.0;
        let mut turns = 0;
        let mut d = start;
        while d < darts {
            if answers::delta_at(self.delta, d) != mark {
                return End { dart: d, turns };
            }
            let b = at(darts, table, i, d);
            if !self.removed(b) {
                if at(darts, table, i, b) == d {
                    let end = self.follow(table, i, d);
                    join(darts, i, b, end.dart, table);
                    turns = turns + end.turns;
                }
            }
            d = self.next_of(d);
        }
        End { dart: d, turns }
    }

    // Survivors relinked, from all darts of the kernel. The answer is how many turns were taken, over all links followed.
    fn relink(&self, table: &mut [u16]) -> usize
        requires ready { ReadyOn self.now table.old }
        requires strung { StrungIn self.now }
        ensures answer { result ≡ turns_made self.now.n.0 self.now.darts (row_of self.now) table.old }
        ensures table_left { LinksPast self.now table.old table.new }
    {
        let darts = self.darts as usize;
        let mut turns = 0;
        let mut d = self.first as usize;
        while d < darts {
            let end = self.relink_alike(d, table);
            turns = turns + end.turns;
            d = end.dart;
        }
        turns
    }

    // The entries of all darts strung from the first on cleared, whichever these are.
    fn clear_strung(&self, n: Dim, table: &mut [u16])
        requires { SomeStrung (length self.now.lambda.now) self.now.first self.now.next.now × Rows n.0 (length self.now.lambda.now) table.old }
        ensures { (test : ℕ → Bool) → Along test (length self.now.lambda.now) self.now.first self.now.next.now → Cleared (length self.now.lambda.now) (λ t d. test d && ltb t (n.0 + 1)) table.old table.new }
    {
        let darts = self.lambda.len();
        let mut d = self.first as usize;
        while d < darts {
            clear_dart(n, darts, d, table);
            d = self.next_of(d);
        }
    }

    // The same, with n as a number that the compiler knows where it is one: all rows of a dart are then taken in one go.
    fn clear(&self, table: &mut [u16])
        requires { SomeStrung (length self.now.lambda.now) self.now.first self.now.next.now × Rows self.now.n.0 (length self.now.lambda.now) table.old }
        ensures { (test : ℕ → Bool) → Along test (length self.now.lambda.now) self.now.first self.now.next.now → Cleared (length self.now.lambda.now) (λ t d. test d && ltb t (self.now.n.0 + 1)) table.old table.new }
    {
        match self.n.0 {
            1 => self.clear_strung(Dim(1), table),
            2 => self.clear_strung(Dim(2), table),
            3 => self.clear_strung(Dim(3), table),
            4 => self.clear_strung(Dim(4), table),
            _ => self.clear_strung(self.n, table),
        }
    }

    // The kernel removed in place.
    pub fn remove(&self, table: &mut [u16])
        requires ready { ReadyOn self.now table.old }
        requires strung { StrungIn self.now }
        ensures { table.new ≡ removed_from self.now.n.0 self.now.darts (row_of self.now) table.old }
    {
        // A copy: what lies behind a reference would be read anew after each entry written.
        let kernel = *self;
        kernel.relink(table);
        kernel.clear(table);
    }
}
