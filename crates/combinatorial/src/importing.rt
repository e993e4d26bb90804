// Bring in a 2D combinatorial map: dart d becomes darts 2d and 2d+1 of a base. Takes 2 KiB of local memory. Assumes nothing.
ghost use Rattle.std.specs.Prelude.{◌≡◌, false, ◌&&◌, ℕ, ◌+◌, ◌*◌, ◌≤◌, ◌<◌, length, set, eqb};
ghost use Rattle.maps.specs.Verdict.{◌then◌};
ghost use Rattle.maps.specs.Sizes.{number4};
ghost use Rattle.maps.specs.Table.{each};
ghost use Rattle.maps.specs.Partner.{number2_m, outside as outside_of, edges_back, number21, import_lent};
ghost use Rattle.answers.specs.Numbers.{verdict_of};
ghost use Rattle.combinatorial.specs.Rows.{Row, tests_of, Kept, Pairs, Turns};
ghost use Rattle.combinatorial.specs.Left.{ImportLeft};

use answers::{Dim, Level, PARTNER_DARTS, Refusal};

// Have slices of these lengths the exact ones?
fn lengths_fit(darts: u16, edges: usize, vertices: usize, rows: usize) -> bool
    ensures { result ≡ (eqb edges darts && (eqb vertices darts && eqb rows (6 * darts))) }
{
    let width = darts as usize;
    edges == width && (vertices == width && rows == 6 * width)
}

// Numbers 2 and 4: M, and whether every slice lent has the exact length.
fn sizes(darts: u16, edges: usize, vertices: usize, rows: usize) -> Result<(), Refusal>
    ensures { verdict_of result ≡ number2_m darts then number4 (eqb edges darts && (eqb vertices darts && eqb rows (6 * darts))) }
{
    if darts < 1 || PARTNER_DARTS < darts {
        return Err(Refusal::Darts);
    }
    if !lengths_fit(darts, edges, vertices, rows) {
        return Err(Refusal::Length);
    }
    Ok(())
}

// Number 5 of a row of the partner's; the place is sought only if there is one.
fn outside(darts: u16, i: Dim, row: &[u16]) -> Result<(), Refusal>
    requires { length row.now ≡ darts }
    ensures { verdict_of result ≡ outside_of darts i.0 row.now }
{
    if bases::largest(row) < darts {
        return Ok(());
    }
    for (d, entry) in row.iter().enumerate() {
        if darts <= *entry {
            return Err(Refusal::Strays(Level(0), i, d as u16));
        }
    }
    Ok(())
}

// Number 6 of the edge row.
fn not_twice(darts: u16, edges: &[u16]) -> Result<(), Refusal>
    requires { Row darts edges.now }
    ensures { verdict_of result ≡ edges_back darts edges.now }
{
    for (d, partner) in edges.iter().enumerate() {
        if edges[*partner as usize] as usize != d {
            return Err(Refusal::NotTwice(Dim(0), d as u16));
        }
    }
    Ok(())
}

// Number 21. A flag for each dart says whether it is the image of a dart before.
fn two_to_one(darts: u16, vertices: &[u16]) -> Result<(), Refusal>
    requires { Row darts vertices.now × (darts ≤ 2048) }
    ensures { verdict_of result ≡ number21 darts vertices.now }
{
    let mut had = [false; PARTNER_DARTS as usize];
    for (d, vertex) in vertices.iter().enumerate() {
        let image = *vertex as usize;
        if had[image] {
            return Err(Refusal::TwoToOne(d as u16));
        }
        had[image] = true;
    }
    Ok(())
}

// Numbers 5, 6 and 21, of rows of the exact length.
fn rows_refused(darts: u16, edges: &[u16], vertices: &[u16]) -> Result<(), Refusal>
    requires { (length edges.now ≡ darts) × (length vertices.now ≡ darts) × (darts ≤ 2048) }
    ensures { verdict_of result ≡ tests_of darts edges.now vertices.now }
{
    outside(darts, Dim(0), edges)?;
    outside(darts, Dim(1), vertices)?;
    not_twice(darts, edges)?;
    two_to_one(darts, vertices)
}

// A pair of entries: an even dart plus 1, then the even dart.
fn put_pair(even: u16, place: usize, rows: &mut [u16])
    requires { (even < 65535) × (place + 1 < length rows.old) }
    ensures { rows.new ≡ set (set rows.old place (even + 1)) (place + 1) even }
{
    rows[place] = even + 1;
    rows[place + 1] = even;
}

// "a0 takes 2d to twice the edge partner plus 1, and 2d+1 to twice the edge partner."
fn put_edges(darts: u16, edges: &[u16], rows: &mut [u16])
    requires { Row darts edges.now × (darts ≤ 2048) × (length rows.old ≡ 6 * darts) }
    ensures written { Pairs darts 0 (λ d. 2 * each edges.now d) rows.new }
    ensures kept { Kept darts 0 rows.old rows.new }
{
    for (d, partner) in edges.iter().enumerate() {
        put_pair(2 * *partner, 2 * d, rows);
    }
}

// "2d+1 and twice the vertex successor of d are a1-neighbours."
fn put_vertices(darts: u16, vertices: &[u16], rows: &mut [u16])
    requires { Row darts vertices.now × (darts ≤ 2048) × (length rows.old ≡ 6 * darts)
        × ((d e : ℕ) → d < darts → e < darts → each vertices.now d ≡ each vertices.now e → d ≡ e) }
    ensures written { Turns darts (2 * darts) (each vertices.now) rows.new }
    ensures kept { Kept darts (2 * darts) rows.old rows.new }
{
    let start = 2 * darts as usize;
    for (d, successor) in vertices.iter().enumerate() {
        let even = 2 * *successor;
        let odd = 2 * d as u16 + 1;
        rows[start + odd as usize] = even;
        rows[start + even as usize] = odd;
    }
}

// "These two are a2-neighbours."
fn put_sides(darts: u16, rows: &mut [u16])
    requires { (darts ≤ 2048) × (length rows.old ≡ 6 * darts) }
    ensures written { Pairs darts (4 * darts) (λ d. 2 * d) rows.new }
    ensures kept { Kept darts (4 * darts) rows.old rows.new }
{
    let start = 4 * darts as usize;
    for d in 0..darts {
        let even = 2 * d;
        put_pair(even, start + even as usize, rows);
    }
}

// Bring in a 2D combinatorial map of M darts. All is tested before an entry is written.
pub fn import(darts: u16, edges: &[u16], vertices: &[u16], rows: &mut [u16]) -> Result<(), Refusal>
    ensures verdict { verdict_of result ≡ import_lent darts edges.now vertices.now rows.old }
    ensures rows_left { ImportLeft darts edges.now vertices.now rows.old rows.new }
{
    sizes(darts, edges.len(), vertices.len(), rows.len())?;
    rows_refused(darts, edges, vertices)?;
    put_edges(darts, edges, rows);
    put_vertices(darts, vertices, rows);
    put_sides(darts, rows);
    Ok(())
}
