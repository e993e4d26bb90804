// Take a base back to a partner's two rows, where two rows yield it. Assumes nothing.
ghost use Rattle.std.specs.Prelude.{◌≡◌, true, ℕ, ◌+◌, ◌/◌, ◌<◌, length, eqb, ◌&&◌, ◌*◌};
ghost use Rattle.std.specs.Int.Bits.{bit_xor};
ghost use Rattle.maps.specs.Table.{entry, each, listed};
ghost use Rattle.answers.specs.Numbers.{verdict_of};
ghost use Rattle.answers.specs.Rows.{Rows};
ghost use Rattle.combinatorial.specs.Back.{tests_back, Says, alternates_at, Alternates, edge_of, vertex_of, Fit, Pairs, Paired, Backward, Pattern};
ghost use Rattle.combinatorial.specs.Left.{ExportLeft};

use answers::{Dim, Level, MOST_DARTS, Refusal, Sizes, Table};

// Have slices of these lengths the exact ones?
fn lengths_fit(darts: u16, rows: usize, edges: usize, vertices: usize) -> bool
    ensures { result ≡ (eqb rows (3 * darts) && (eqb edges (darts / 2) && eqb vertices (darts / 2))) }
{
    let half = darts / 2;
    answers::rows_fit(Dim(2), darts, rows)
        && (answers::row_fits(half, edges) && answers::row_fits(half, vertices))
}

// Numbers 1, 2 and 4, and 5, 6 and 7 as in the base check.
fn base_refused(table: &Table<'_>, edges: usize, vertices: usize) -> Result<(), Refusal>
    ensures { verdict_of result ≡ tests_back table.now.n.0 table.now.darts table.now.entries.now edges vertices }
{
    if table.n.0 != 2 {
        return Err(Refusal::Dimension);
    }
    let fit = lengths_fit(table.darts, table.entries.len(), edges, vertices);
    let sizes = Sizes {
        n: Dim(2),
        h: Level(0),
        darts: table.darts,
    };
    answers::lent(sizes, fit)?;
    bases::check_base(Dim(2), table.darts, table.entries)
}

// Are dart 2d and the next a2-neighbours, the next one's a1-neighbour even and the a0-neighbour of 2d odd?
fn alternates_at(table: &Table<'_>, even: u16) -> bool
    requires { Rows 2 table.now.darts table.now.entries.now × (even + 1 < table.now.darts) }
    ensures { result ≡ alternates_at (entry table.now.darts table.now.entries.now) even }
{
    let side = table.at(Dim(2), even);
    let turn = table.at(Dim(1), even + 1);
    let edge = table.at(Dim(0), even);
    (side == even + 1) & (turn % 2 == 0) & (edge % 2 == 1)
}

// Is it so of all darts, and their number even?
fn alternates(table: &Table<'_>) -> bool
    requires { Rows 2 table.now.darts table.now.entries.now }
    ensures { Says result (Alternates table.now.darts (entry table.now.darts table.now.entries.now)) }
{
    if table.darts % 2 != 0 {
        return false;
    }
    for d in 0..table.darts / 2 {
        if !alternates_at(table, 2 * d) {
            return false;
        }
    }
    true
}

// The edge partner of d is half of what a0 takes 2d to, its vertex successor half of what a1 takes 2d+1 to.
fn take_rows(table: &Table<'_>, edges: &mut [u16], vertices: &mut [u16])
    requires { Rows 2 table.now.darts table.now.entries.now × (length edges.old ≡ table.now.darts / 2) × (length vertices.old ≡ table.now.darts / 2) }
    ensures edges_left { edges.new ≡ listed (edge_of (entry table.now.darts table.now.entries.now)) (table.now.darts / 2) }
    ensures vertices_left { vertices.new ≡ listed (vertex_of (entry table.now.darts table.now.entries.now)) (table.now.darts / 2) }
{
    // By dart: two rows are read at places that it gives, and two are written.
    for d in 0..table.darts / 2 {
        let place = d as usize;
        let edge = table.at(Dim(0), 2 * d);
        let vertex = table.at(Dim(1), 2 * d + 1);
        edges[place] = edge / 2;
        vertices[place] = vertex / 2;
    }
}

// Take a base back by the tests of the base check, which name what is refused. All is tested before an entry is written.
fn tested(table: &Table<'_>, edges: &mut [u16], vertices: &mut [u16]) -> Result<(), Refusal>
    ensures { ExportLeft table.now.n.0 table.now.darts table.now.entries.now edges.old vertices.old (verdict_of result) edges.new vertices.new }
{
    base_refused(table, edges.len(), vertices.len())?;
    if !alternates(table) {
        return Err(Refusal::NoRows);
    }
    take_rows(table, edges, vertices);
    Ok(())
}

// Are n, the darts and the lengths those of a base that two rows yield?
fn fit(n: Dim, darts: u16, rows: usize, edges: usize, vertices: usize) -> bool
    ensures { result ≡ true → Fit n.0 darts rows edges vertices }
{
    if n.0 != 2 || darts < 1 || MOST_DARTS < darts || darts % 2 == 1 {
        return false;
    }
    let half = (darts / 2) as usize;
    rows == 3 * darts as usize && edges == half && vertices == half
}

// Is each dart's a2-neighbour the other dart of its pair? No exit, so that many darts are taken at once; so in the next one.
fn sides_paired(darts: u16, side: &[u16]) -> bool
    requires { length side.now ≡ darts }
    ensures { result ≡ true → (d : ℕ) → d < darts → each side.now d ≡ bit_xor d 1 }
{
    let mut all = true;
    for (d, entry) in side.iter().enumerate() {
        all = all & (*entry == (d as u16 ^ 1));
    }
    all
}

// Does a0 take every pair to a pair, turned round, and a1 every odd dart to an even one?
fn in_pairs(half: u16, edge: &[u16], turn: &[u16]) -> bool
    requires { Pairs half edge.now turn.now }
    ensures { result ≡ true → (d : ℕ) → d < half → Paired (each edge.now) (each turn.now) d }
{
    let mut all = true;
    // By pair: three entries of two rows are read at its darts.
    for d in 0..half {
        let even = 2 * d as usize;
        let odd = even + 1;
        all = all & ((edge[even] == edge[odd] + 1) & (edge[even] % 2 == 1) & (turn[odd] % 2 == 0));
    }
    all
}

// Do the even darts come back by a0, and the odd ones by a1?
fn lead_back(half: u16, edge: &[u16], turn: &[u16]) -> bool
    requires { Pairs half edge.now turn.now }
    ensures { result ≡ true → (d : ℕ) → d < half → Backward (each edge.now) (each turn.now) d }
{
    for d in 0..half {
        let even = 2 * d;
        let place = even as usize;
        let partner = edge[place] as usize;
        let successor = turn[place + 1] as usize;
        if (edge[partner] != even) | (turn[successor] != even + 1) {
            return false;
        }
    }
    true
}

// Do two rows yield the base? Only yes or no, by the pattern of the three rows: where it is yes, 5, 6 and 7 need no test.
fn yielded(table: &Table<'_>, edges: usize, vertices: usize) -> bool
    ensures { result ≡ true → Pattern table.now.n.0 table.now.darts table.now.entries.now edges vertices }
{
    if !fit(table.n, table.darts, table.entries.len(), edges, vertices) {
        return false;
    }
    if table.darts <= bases::largest(table.entries) {
        return false;
    }
    let start = table.darts as usize;
    let last = 2 * start;
    if !sides_paired(table.darts, &table.entries[last..]) {
        return false;
    }
    if !in_pairs(table.darts / 2, table.entries, &table.entries[start..]) {
        return false;
    }
    lead_back(table.darts / 2, table.entries, &table.entries[start..])
}

// Take a base back. What is refused is sought only where the pattern of two rows isn't found.
pub fn export(
    n: Dim,
    darts: u16,
    rows: &[u16],
    edges: &mut [u16],
    vertices: &mut [u16],
) -> Result<(), Refusal>
    ensures { ExportLeft n.0 darts rows.now edges.old vertices.old (verdict_of result) edges.new vertices.new }
{
    let table = Table {
        n,
        darts,
        entries: rows,
    };
    if !yielded(&table, edges.len(), vertices.len()) {
        return tested(&table, edges, vertices);
    }
    take_rows(&table, edges, vertices);
    Ok(())
}
