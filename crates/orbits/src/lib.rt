// The orbit of a dart, by rows that are chosen for each dart: a search with a queue, in which each dart stands once. Assumes nothing.
#![tactic(auto)]

ghost use Rattle.std.specs.Prelude.{◌≡◌, true, false, not, ℕ, ◌≤◌, ◌<◌, eqb};
ghost use Rattle.maps.specs.Parts.{besides};
ghost use Rattle.maps.specs.Table.{entry};
ghost use Rattle.orbits.specs.Choices.{uses as uses_of, chosen};
ghost use Rattle.orbits.specs.Search.{has, state, held, Stored, pushed};
ghost use Rattle.orbits.specs.Orbits.{Ready, Spreads, begun, ending_at, pushed_by, spread_by, Finds};

use answers::{Dim, ROOM};

// The choice of every row, a bit for each.
pub const ALL_ROWS: u8 = 31;

// Does a choice use a row?
pub fn uses(choice: u8, row: Dim) -> bool
    requires { row.0 < 8 }
    ensures { result ≡ uses_of choice row.0 }
{
    (choice >> row.0) & 1 == 1
}

// The choice of every row but one.
pub fn all_but(row: Dim) -> u8
    requires { row.0 < 5 }
    ensures { (j : ℕ) → j < 5 → uses_of result j ≡ not (eqb j row.0) }
{
    ALL_ROWS - (1u8 << row.0)
}

// The choice of every row but one and the next.
pub fn all_but_two(row: Dim) -> u8
    requires { row.0 < 4 }
    ensures { (j : ℕ) → j < 5 → uses_of result j ≡ besides row.0 j }
{
    ALL_ROWS - (3u8 << row.0)
}

// Puts dart d in the queue, unless it is reached already; the queue's new end. The set and the queue stand apart: a caller searches into two sets by one queue.
fn push(d: u16, reached: &mut [bool; ROOM], queue: &mut [u16; ROOM], tail: usize) -> usize
    requires { (d < 4096) × (has reached.old d ≡ false → tail < 4096) }
    ensures { held reached.new queue.new result ≡ pushed (held reached.old queue.old tail) d }
{
    let place = d as usize;
    if reached[place] {
        return tail;
    }
    reached[place] = true;
    queue[tail] = d;
    tail + 1
}

// A search in a map of so many darts and n: the dart that it goes on from, and the queue's end.
#[derive(Clone, Copy)]
pub struct Search {
    pub n: Dim,
    pub darts: u16,
    pub dart: u16,
    pub tail: usize,
}

impl Search {
    // A search that begins at a dart, with nothing in the queue.
    pub fn begin(n: Dim, darts: u16, dart: u16) -> Search
        ensures { result ≡ begun n darts dart }
    {
        Search {
            n,
            darts,
            dart,
            tail: 0,
        }
    }

    // The same search with another end of the queue.
    fn ending(self, tail: usize) -> Search
        ensures { result ≡ ending_at self tail }
    {
        Search { tail, ..self }
    }
}

// Puts the neighbour of a dart by a row in the queue, if its choice uses the row, unless it is reached already; the queue's new end.
fn push_by(
    from: Search,
    row: Dim,
    choice: u8,
    table: &[u16],
    reached: &mut [bool; ROOM],
    queue: &mut [u16; ROOM],
) -> usize
    requires { Spreads from choice table.now (state reached.old queue.old from.tail) × (row.0 ≤ from.n.0) }
    ensures pushes { held reached.new queue.new result ≡ pushed_by from choice table.now row.0 (held reached.old queue.old from.tail) }
    ensures goes_on { Spreads (ending_at from result) choice table.now (held reached.new queue.new result) }
{
    if !uses(choice, row) {
        return from.tail;
    }
    let e = answers::at(from.darts, table, row, from.dart);
    push(e, reached, queue, from.tail)
}

// Puts the neighbours of a dart by the rows of its choice in the queue, unless they are reached already; the queue's new end. Without a loop over the rows, which would cost more than the rows themselves.
fn push_neighbours(
    from: Search,
    choice: u8,
    table: &[u16],
    reached: &mut [bool; ROOM],
    queue: &mut [u16; ROOM],
) -> usize
    requires { Spreads from choice table.now (state reached.old queue.old from.tail) }
    ensures { held reached.new queue.new result ≡ spread_by from choice table.now (held reached.old queue.old from.tail) }
{
    let n = from.n.0;
    let zero = push_by(from, Dim(0), choice, table, reached, queue);
    let one = push_by(from.ending(zero), Dim(1), choice, table, reached, queue);
    if n < 2 {
        return one;
    }
    let two = push_by(from.ending(one), Dim(2), choice, table, reached, queue);
    if n < 3 {
        return two;
    }
    let three = push_by(from.ending(two), Dim(3), choice, table, reached, queue);
    if n < 4 {
        return three;
    }
    push_by(from.ending(three), Dim(4), choice, table, reached, queue)
}

// Adds the orbit of a dart to the set of darts reached, which no row used leads out of; the queue's new end. From the old one on stand the darts added.
pub fn orbit(
    search: Search,
    table: &[u16],
    choices: &[u8; ROOM],
    reached: &mut [bool; ROOM],
    queue: &mut [u16; ROOM],
) -> usize
    requires ready { Ready search.n.0 search.darts table.now (chosen choices.now) search.dart (has reached.old) }
    requires stored { Stored search.darts (state reached.old queue.old search.tail) }
    requires le_n { 1 ≤ search.n.0 }
    ensures { Finds search table.now (chosen choices.now) (held reached.old queue.old search.tail) (held reached.new queue.new result) }
{
    let mut head = search.tail;
    let mut tail = push(search.dart, reached, queue, head);
    // By index: the queue grows while it is read.
    while head < tail {
        let dart = queue[head];
        let place = dart as usize;
        let choice = choices[place];
        let from = Search {
            dart,
            tail,
            ..search
        };
        tail = push_neighbours(from, choice, table, reached, queue);
        head += 1;
    }
    tail
}
