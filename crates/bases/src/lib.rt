// Check a base, or an explicit level: numbers 1, 2, 4, 5, 6 and 7, with the first place that is refused. Assumes nothing.
#![tactic(auto)]

ghost use Rattle.std.specs.Prelude.{◌≡◌, true, false, ℕ, ◌+◌, ◌<◌, ◌≤◌, length, get_or, fold, max};
ghost use Rattle.maps.specs.Verdict.{accepted};
ghost use Rattle.maps.specs.Table.{entry};
ghost use Rattle.maps.specs.CheckBase.{check_base, check_explicit};
ghost use Rattle.answers.specs.Numbers.{verdict_of};
ghost use Rattle.answers.specs.Rows.{Rows};
ghost use Rattle.bases.specs.InTable.{present_if, Leads, Crossing, strays_in, not_twice_in, not_commuting_in, check5_in, check6_in, check7_in, check_map_in, check_in};
ghost use Rattle.bases.specs.OfTable.{HasRow, HasRows};
ghost use Rattle.bases.specs.Places.{Asked, FirstDue};
ghost use Rattle.bases.specs.Valid.{Led, ValidAt, Kept, AllLed, AllValid, AllKept};

use answers::{ABSENT, Dim, Level, Refusal, Sizes, Table};

// A row and a dart of it.
#[derive(Clone, Copy)]
struct Place {
    row: Dim,
    dart: u16,
}

// Is dart d present? In a base every dart is.
fn there(explicit: bool, table: &Table<'_>, d: u16) -> bool
    requires { HasRow table.now 0 × (d < table.now.darts) }
    ensures { result ≡ present_if explicit table.now.darts table.now.entries.now d }
{
    !explicit || table.there(d)
}

// Is number 5 due at row i of dart d?
fn strays(explicit: bool, table: &Table<'_>, i: Dim, d: u16) -> bool
    requires { HasRow table.now 0 × HasRow table.now i.0 × (d < table.now.darts) }
    ensures { result ≡ strays_in explicit table.now.darts table.now.entries.now i.0 d }
{
    let e = table.at(i, d);
    if there(explicit, table, d) {
        return table.darts <= e || !there(explicit, table, e);
    }
    e != ABSENT
}

// Is number 6 due at row i of dart d? Where d is present, its entry there is a dart.
fn not_twice(explicit: bool, table: &Table<'_>, i: Dim, d: u16) -> bool
    requires { HasRow table.now 0 × HasRow table.now i.0 × (d < table.now.darts) × Leads explicit table.now.darts table.now.entries.now i.0 d }
    ensures { result ≡ not_twice_in explicit table.now.darts table.now.entries.now i.0 d }
{
    if there(explicit, table, d) {
        let e = table.at(i, d);
        return table.at(i, e) != d;
    }
    false
}

// Is number 7 due at rows i and j of dart d? Where d is present, its entries there are darts.
fn not_commuting(explicit: bool, table: &Table<'_>, i: Dim, j: Dim, d: u16) -> bool
    requires { Crossing explicit table.now.darts table.now.entries.now i.0 j.0 d }
    ensures { result ≡ not_commuting_in explicit table.now.darts table.now.entries.now i.0 j.0 d }
{
    if there(explicit, table, d) {
        return !table.commute(i, j, d);
    }
    false
}

// "The first place found is the one reported": the first over rows, then darts, where a number is due.
fn first_due<F: Fn(Dim, u16) -> bool>(n: Dim, darts: u16, due: F) -> Option<Place>
    requires { Asked (F.pre due) n.0 darts × (n.0 ≤ 4) }
    ensures { FirstDue (F.post due) n.0 darts result }
{
    let mut found = None;
    'rows: for i in 0..n.0 + 1 {
        for d in 0..darts {
            if due(Dim(i), d) {
                found = Some(Place {
                    row: Dim(i),
                    dart: d,
                });
                break 'rows;
            }
        }
    }
    found
}

// The largest entry, 0 where there is none. No exit, so that the compiler may take many entries at once.
pub fn largest(table: &[u16]) -> u16
    ensures largest { result ≡ fold max 0 table.now }
    ensures above { (k : ℕ) → k < length table.now → get_or table.now k 0 ≤ result }
{
    table.iter().fold(0, |most, e| most.max(*e))
}

// Number 5; the place is sought in a base only if there is one.
fn number5(explicit: bool, table: &Table<'_>) -> Result<(), Refusal>
    requires { HasRows table.now }
    ensures { verdict_of result ≡ check5_in explicit table.now.n.0 table.now.darts table.now.entries.now }
{
    if !explicit && largest(table.entries) < table.darts {
        return Ok(());
    }
    match first_due(table.n, table.darts, |i, d| strays(explicit, table, i, d)) {
        Some(at) => Err(Refusal::Strays(Level(0), at.row, at.dart)),
        None => Ok(()),
    }
}

// Number 6, where 5 is not refused, so that each entry of a dart present is a dart.
fn number6(explicit: bool, table: &Table<'_>) -> Result<(), Refusal>
    requires { HasRows table.now × (check5_in explicit table.now.n.0 table.now.darts table.now.entries.now ≡ accepted) }
    ensures { verdict_of result ≡ check6_in explicit table.now.n.0 table.now.darts table.now.entries.now }
{
    match first_due(
        table.n,
        table.darts,
        |i, d| not_twice(explicit, table, i, d),
    ) {
        Some(at) => Err(Refusal::NotTwice(at.row, at.dart)),
        None => Ok(()),
    }
}

// Number 7, sought over i, j, darts; pairs with j < i+2 are never refused.
fn number7(explicit: bool, table: &Table<'_>) -> Result<(), Refusal>
    requires { HasRows table.now × (check5_in explicit table.now.n.0 table.now.darts table.now.entries.now ≡ accepted) }
    ensures { verdict_of result ≡ check7_in explicit table.now.n.0 table.now.darts table.now.entries.now }
{
    let mut found = Ok(());
    'rows: for i in 0..table.n.0 + 1 {
        for j in i + 2..table.n.0 + 1 {
            for d in 0..table.darts {
                if not_commuting(explicit, table, Dim(i), Dim(j), d) {
                    found = Err(Refusal::NotCommuting(Dim(i), d));
                    break 'rows;
                }
            }
        }
    }
    found
}

// Is neither 6 nor 7 due at row i of dart d, which is present? A no promises nothing, here and up to `map_valid`: the place is then sought.
fn row_valid(table: &Table<'_>, i: Dim, d: u16) -> bool
    requires { Led table.now.n.0 table.now.darts table.now.entries.now d × (i.0 ≤ table.now.n.0) }
    ensures { result ≡ true → ValidAt table.now.n.0 table.now.darts table.now.entries.now i.0 d }
{
    let e = table.at(i, d);
    if table.at(i, e) != d {
        return false;
    }
    for j in i.0 + 2..table.n.0 + 1 {
        if !table.commute(i, Dim(j), d) {
            return false;
        }
    }
    true
}

// At no row of dart d?
fn dart_valid(table: &Table<'_>, d: u16) -> bool
    requires { Led table.now.n.0 table.now.darts table.now.entries.now d }
    ensures { result ≡ true → (i : ℕ) → i ≤ table.now.n.0 → ValidAt table.now.n.0 table.now.darts table.now.entries.now i d }
{
    for i in 0..table.n.0 + 1 {
        if !row_valid(table, Dim(i), d) {
            return false;
        }
    }
    true
}

// At no dart present? Dart by dart, so that its neighbours are read once for all its tests. N is n: a number that the compiler knows, so that it takes all rows of a dart without a loop; so it knows whether darts may be absent.
fn darts_valid<const EXPLICIT: bool, const N: u8>(table: &Table<'_>) -> bool
    requires { Rows N table.now.darts table.now.entries.now × AllLed EXPLICIT N table.now.darts table.now.entries.now }
    ensures { result ≡ true → AllValid EXPLICIT N table.now.darts table.now.entries.now }
{
    let known = Table {
        n: Dim(N),
        ..*table
    };
    for d in 0..known.darts {
        if there(EXPLICIT, &known, d) {
            if !dart_valid(&known, d) {
                return false;
            }
        }
    }
    true
}

// The same, with n for N.
fn all_valid<const EXPLICIT: bool>(table: &Table<'_>) -> bool
    requires { HasRows table.now × AllLed EXPLICIT table.now.n.0 table.now.darts table.now.entries.now × (0 < table.now.n.0) }
    ensures { result ≡ true → AllValid EXPLICIT table.now.n.0 table.now.darts table.now.entries.now }
{
    match table.n.0 {
        1 => darts_valid::<EXPLICIT, 1>(table),
        2 => darts_valid::<EXPLICIT, 2>(table),
        3 => darts_valid::<EXPLICIT, 3>(table),
        _ => darts_valid::<EXPLICIT, 4>(table),
    }
}

// Is the entry of dart d in row i a dart where d is present, and 65,535 where it is absent?
fn entry_kept(table: &Table<'_>, i: Dim, d: u16) -> bool
    requires { HasRow table.now 0 × HasRow table.now i.0 × (d < table.now.darts) }
    ensures { result ≡ true → Kept table.now.darts table.now.entries.now i.0 d }
{
    let e = table.at(i, d);
    if table.there(d) {
        return e < table.darts;
    }
    e == ABSENT
}

// Each entry of row i? The loop has no exit and no branch, so that the compiler may take many entries at once.
fn row_kept(table: &Table<'_>, i: Dim) -> bool
    requires { HasRow table.now 0 × HasRow table.now i.0 }
    ensures { result ≡ true → (d : ℕ) → d < table.now.darts → Kept table.now.darts table.now.entries.now i.0 d }
{
    let mut kept = true;
    for d in 0..table.darts {
        kept = kept & entry_kept(table, i, d);
    }
    kept
}

// Each entry?
fn rows_kept(table: &Table<'_>) -> bool
    requires { HasRows table.now }
    ensures { result ≡ true → AllKept table.now.n.0 table.now.darts table.now.entries.now }
{
    for i in 0..table.n.0 + 1 {
        if !row_kept(table, Dim(i)) {
            return false;
        }
    }
    true
}

// Is none of 5, 6 and 7 due? Where 6 is not, an entry kept leads to a dart present, since that dart leads back.
fn map_valid(explicit: bool, table: &Table<'_>) -> bool
    requires { HasRows table.now × (0 < table.now.n.0) }
    ensures { result ≡ true → check_map_in explicit table.now.n.0 table.now.darts table.now.entries.now ≡ accepted }
{
    if largest(table.entries) < table.darts {
        return all_valid::<false>(table);
    }
    explicit && rows_kept(table) && all_valid::<true>(table)
}

// Numbers 5, 6 and 7, in this order, of a table of the exact length; the place is sought only if there is one.
fn map_refused(explicit: bool, table: &Table<'_>) -> Result<(), Refusal>
    requires { HasRows table.now × (0 < table.now.n.0) }
    ensures { verdict_of result ≡ check_map_in explicit table.now.n.0 table.now.darts table.now.entries.now }
{
    if map_valid(explicit, table) {
        return Ok(());
    }
    number5(explicit, table)?;
    number6(explicit, table)?;
    number7(explicit, table)
}

// Numbers 1, 2, 4, 5, 6 and 7.
fn check_table(explicit: bool, table: &Table<'_>) -> Result<(), Refusal>
    ensures { verdict_of result ≡ check_in explicit table.now.n.0 table.now.darts table.now.entries.now }
{
    let fit = answers::rows_fit(table.n, table.darts, table.entries.len());
    let sizes = Sizes {
        n: table.n,
        h: Level(0),
        darts: table.darts,
    };
    answers::lent(sizes, fit)?;
    map_refused(explicit, table)
}

// Check a base. n, darts and rows are apart, as C lends them.
pub fn check_base(n: Dim, darts: u16, rows: &[u16]) -> Result<(), Refusal>
    ensures { verdict_of result ≡ check_base n.0 darts rows.now }
{
    let table = Table {
        n,
        darts,
        entries: rows,
    };
    check_table(false, &table)
}

// Check an explicit level. n, darts and entries are apart, as callers lend them.
pub fn check_explicit(n: Dim, darts: u16, table: &[u16]) -> Result<(), Refusal>
    ensures { verdict_of result ≡ check_explicit n.0 darts table.now }
{
    let table = Table {
        n,
        darts,
        entries: table,
    };
    check_table(true, &table)
}
