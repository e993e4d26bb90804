// Mark cells of one dimension on an explicit level, in time proportional to its entries: every cell, part and piece is searched once at most. Takes 24 KiB of local memory: two choices, two sets and a queue of 4,096 darts. Assumes nothing.
ghost use Rattle.std.specs.Prelude.{◌≡◌, true, false, ◌&&◌, ℕ, ◌+◌, ◌*◌, ◌≤◌, ◌<◌, length, suc, eqb};
ghost use Rattle.maps.specs.Table.{entry, listed};
ghost use Rattle.maps.specs.Explicit.{present};
ghost use Rattle.maps.specs.MarkCells.{CellsMarked, mark_lent};
ghost use Rattle.answers.specs.Numbers.{verdict_of};
ghost use Rattle.orbits.specs.Choices.{uses};
ghost use Rattle.orbits.specs.Search.{has, Room};
ghost use Rattle.orbits.specs.Explicit.{ExplicitLevel};
ghost use Rattle.cells.specs.Marked.{Markable, failing, Broken, Spoilt, Divided, Spared, undivided, mark_of, marks_of, MarkingLeaves};

use answers::{Dim, Level, Mark, ROOM, Refusal, STAY, Sizes, Table};
use orbits::Search;

// The choice of every row.
fn every_row() -> u8
    ensures { (j : ℕ) → j < 5 → uses result j ≡ true }
{
    orbits::ALL_ROWS
}

// An explicit level, and the dimension of the cells that are marked on it.
#[derive(Clone, Copy)]
struct Marking<'a> {
    table: Table<'a>,
    dimension: Dim,
}

impl Marking<'_> {
    // "For δ = n−1 always. For δ ≤ n−2, each dart of the cell ends at the same place by a_(δ+1) then a_(δ+2) as by a_(δ+2) then a_(δ+1)": does dart d not?
    fn fails(&self, d: u16) -> bool
        requires { Markable self.now × (d < self.now.table.darts) }
        ensures { result ≡ failing self.now.table.n.0 self.now.table.darts self.now.table.entries.now self.now.dimension.0 d }
    {
        if self.table.n.0 <= self.dimension.0 + 1 {
            return false;
        }
        if !self.table.there(d) {
            return false;
        }
        let low = Dim(self.dimension.0 + 1);
        let high = Dim(self.dimension.0 + 2);
        !self.table.commute(low, high, d)
    }

    // The darts whose cell isn't removable: the cells of the darts that fail, each searched once.
    fn spoil(&self, reached: &mut [bool; ROOM], queue: &mut [u16; ROOM])
        requires { Markable self.now × ((d : ℕ) → has reached.old d ≡ false) × Room reached.old queue.old }
        ensures { Spoilt self.now.table.n.0 self.now.table.darts self.now.table.entries.now self.now.dimension.0 reached.new queue.new }
    {
        let choice = orbits::all_but(self.dimension);
        let choices = [choice; ROOM];
        // By dart: a search that begins at one changes the flags of others.
        for d in 0..self.table.darts {
            let place = d as usize;
            if !reached[place] && self.fails(d) {
                let search = Search::begin(self.table.n, self.table.darts, d);
                orbits::orbit(search, self.table.entries, &choices, reached, queue);
            }
        }
    }

    // Is it still to be found out whether the cell of dart d has two parts?
    fn undecided(&self, reached: &[bool; ROOM], parts: &[bool; ROOM], d: u16) -> bool
        requires { Markable self.now × (d < self.now.table.darts) }
        ensures { result ≡ undivided self.now.table.darts self.now.table.entries.now self.now.dimension.0 (has reached.now) (has parts.now) d }
    {
        let place = d as usize;
        if !self.table.there(d) {
            return false;
        }
        if reached[place] | parts[place] {
            return false;
        }
        let over = self.table.at(Dim(self.dimension.0 + 1), d) as usize;
        !parts[over]
    }

    // Adds the cells that don't fall into two parts when a_δ and a_(δ+1) are both left out. In a removable cell a_(δ+1) leads from one part to the other, so the part of one dart decides it.
    fn divide(&self, reached: &mut [bool; ROOM], queue: &mut [u16; ROOM])
        requires { Markable self.now × Spoilt self.now.table.n.0 self.now.table.darts self.now.table.entries.now self.now.dimension.0 reached.old queue.old }
        ensures { Divided self.now.table.n.0 self.now.table.darts self.now.table.entries.now self.now.dimension.0 reached.new queue.new }
    {
        let part = orbits::all_but_two(self.dimension);
        let part_choices = [part; ROOM];
        let cell = orbits::all_but(self.dimension);
        let cell_choices = [cell; ROOM];
        let mut parts = [false; ROOM];
        for d in 0..self.table.darts {
            if self.undecided(reached, &parts, d) {
                let search = Search::begin(self.table.n, self.table.darts, d);
                orbits::orbit(search, self.table.entries, &part_choices, &mut parts, queue);
                let over = self.table.at(Dim(self.dimension.0 + 1), d) as usize;
                if parts[over] {
                    orbits::orbit(search, self.table.entries, &cell_choices, reached, queue);
                }
            }
        }
    }

    // The connected pieces of the darts in the set, each searched once.
    fn break_pieces(
        &self,
        reached: &[bool; ROOM],
        pieces: &mut [bool; ROOM],
        queue: &mut [u16; ROOM],
    )
        requires { Markable self.now × ((d : ℕ) → has pieces.old d ≡ false) × Room pieces.old queue.old }
        ensures gathered { Broken self.now (has reached.now) (has pieces.new) }
        ensures room { Room pieces.new queue.new }
    {
        let choice = every_row();
        let choices = [choice; ROOM];
        // By dart: a search that begins at one changes the flags of others.
        for d in 0..self.table.darts {
            let place = d as usize;
            if self.table.there(d) & reached[place] & !pieces[place] {
                let search = Search::begin(self.table.n, self.table.darts, d);
                orbits::orbit(search, self.table.entries, &choices, pieces, queue);
            }
        }
    }

    // Adds the cell of the lowest dart of every connected piece that has no dart in the set. Darts come in rising order, so the first of such a piece is its lowest.
    fn spare(&self, reached: &mut [bool; ROOM], queue: &mut [u16; ROOM])
        requires { Markable self.now × Divided self.now.table.n.0 self.now.table.darts self.now.table.entries.now self.now.dimension.0 reached.old queue.old }
        ensures { Spared self.now.table.n.0 self.now.table.darts self.now.table.entries.now self.now.dimension.0 reached.new queue.new }
    {
        let mut pieces = [false; ROOM];
        self.break_pieces(reached, &mut pieces, queue);
        let left = orbits::all_but(self.dimension);
        let left_choices = [left; ROOM];
        let piece = every_row();
        let piece_choices = [piece; ROOM];
        // By dart: a search that begins at one changes the flags of others.
        for d in 0..self.table.darts {
            let place = d as usize;
            if self.table.there(d) & !pieces[place] {
                let search = Search::begin(self.table.n, self.table.darts, d);
                orbits::orbit(search, self.table.entries, &left_choices, reached, queue);
                orbits::orbit(
                    search,
                    self.table.entries,
                    &piece_choices,
                    &mut pieces,
                    queue,
                );
            }
        }
    }

    // 255 where dart d is absent or in the set, else δ. Both are read in any case, so that the compiler may take many darts at once.
    fn mark_at(&self, reached: bool, d: u16) -> Mark
        requires { (0 * self.now.table.darts + d < length self.now.table.entries.now) × (length self.now.table.entries.now ≤ 20480) }
        ensures { result.0 ≡ mark_of self.now.table.darts self.now.table.entries.now self.now.dimension.0 reached d }
    {
        let present = self.table.there(d);
        if !present | reached {
            return Mark(STAY);
        }
        Mark(self.dimension.0)
    }

    // The mark row, dart by dart.
    fn fill(&self, reached: &[bool; ROOM], out: &mut [u8])
        requires { Markable self.now × (length out.old ≡ self.now.table.darts) }
        ensures { out.new ≡ listed (marks_of self.now.table.darts self.now.table.entries.now self.now.dimension.0 (has reached.now)) self.now.table.darts }
    {
        // By index: the level and the set are read at the dart whose byte is written.
        for d in 0..self.table.darts {
            let place = d as usize;
            let mark = self.mark_at(reached[place], d);
            out[place] = mark.0;
        }
    }

    // The mark row of an accepted level.
    fn mark_accepted(&self, out: &mut [u8])
        requires { Markable self.now × (length out.old ≡ self.now.table.darts) }
        ensures { CellsMarked self.now.table.n.0 self.now.table.darts self.now.table.entries.now self.now.dimension.0 out.new }
    {
        let mut reached = [false; ROOM];
        let mut queue = [0u16; ROOM];
        self.spoil(&mut reached, &mut queue);
        self.divide(&mut reached, &mut queue);
        self.spare(&mut reached, &mut queue);
        self.fill(&reached, out);
    }
}

// Have a table and a mark row of these lengths the exact ones?
fn lengths_fit(n: Dim, darts: u16, table: usize, out: usize) -> bool
    ensures { result ≡ (eqb table (suc n.0 * darts) && eqb out darts) }
{
    answers::rows_fit(n, darts, table) && answers::row_fits(darts, out)
}

// Mark cells of one dimension δ on an explicit level: every δ-cell that is removable and falls into exactly two parts when a_δ and a_(δ+1) are both left out is marked; wherever that is every dart of a connected piece, the cell of its lowest dart is left unmarked; the rest get 255. After a refusal nothing lent has changed.
// Lent apart, as C lends them.
pub fn mark_cells(
    n: Dim,
    darts: u16,
    table: &[u16],
    dimension: Dim,
    out: &mut [u8],
) -> Result<(), Refusal>
    ensures verdict { verdict_of result ≡ mark_lent n.0 darts table.now dimension.0 out.old }
    ensures marks_left { MarkingLeaves n.0 darts table.now dimension.0 out.old out.new }
{
    let fit = lengths_fit(n, darts, table.len(), out.len());
    let sizes = Sizes {
        n,
        h: Level(0),
        darts,
    };
    answers::lent(sizes, fit)?;
    if n <= dimension {
        return Err(Refusal::NoInvolution(Level(0), dimension, 0));
    }
    bases::check_explicit(n, darts, table)?;
    let marking = Marking {
        table: Table {
            n,
            darts,
            entries: table,
        },
        dimension,
    };
    marking.mark_accepted(out);
    Ok(())
}
