// Region names of a level, from the base and the marks alone. Takes 16 KiB of local memory: choices, a set and a queue of 4,096 darts. Assumes nothing.
#![tactic(auto)]

ghost use Rattle.std.specs.Prelude.{◌≡◌, ℕ, ◌≤◌, ◌<◌, length, get_or};
ghost use Rattle.maps.specs.Verdict.{scan};
ghost use Rattle.maps.specs.Table.{each};
ghost use Rattle.maps.specs.Folded.{base};
ghost use Rattle.maps.specs.Regions.{at23, regions_lent, regions_table};
ghost use Rattle.answers.specs.Pyramid.{folded};
ghost use Rattle.answers.specs.Numbers.{verdict_of};
ghost use Rattle.orbits.specs.Choices.{uses, chosen};
ghost use Rattle.regions.specs.Searches.{goes_on, RegionsAsked, RegionChoices, Leads, Lowests, Given, NamingLeaves};

use answers::{Dim, Level, Mark, Pyramid, ROOM, Refusal};
use orbits::Search;

// The first contracted dart, sought only if there is one: no removal's mark is above a contraction's. All marks are first read with no exit, so that the compiler may take many at once.
fn contracted(pyramid: &Pyramid<'_>) -> Result<(), Refusal>
    requires { length pyramid.now.delta.now ≡ pyramid.now.sizes.darts }
    ensures { verdict_of result ≡ scan pyramid.now.sizes.darts (at23 (each pyramid.now.delta.now)) }
{
    let largest = pyramid.delta.iter().fold(0, |most, mark| most.max(*mark));
    if !answers::contracts(Mark(largest)) {
        return Ok(());
    }
    // By dart: its number, a u16 already, is that of the refusal.
    for d in 0..pyramid.sizes.darts {
        if answers::contracts(answers::delta_at(pyramid.delta, d as usize)) {
            return Err(Refusal::Contracted(d));
        }
    }
    Ok(())
}

// The rows by which a region goes on from a dart with these marks: a_n only where it is removed below the level with dimension n−1.
fn rows_from(n: Dim, lambda: Level, delta: Mark, level: Level) -> u8
    requires { (1 ≤ n.0) × (n.0 ≤ 4) }
    ensures { (j : ℕ) → j ≤ n.0 → uses result j ≡ goes_on n.0 lambda.0 delta.0 level.0 j }
{
    if answers::is_gone(lambda, level) & answers::removes(delta, Dim(n.0 - 1)) {
        return orbits::ALL_ROWS;
    }
    orbits::all_but(n)
}

// The same for each dart.
fn region_choices(pyramid: &Pyramid<'_>, level: Level) -> [u8; ROOM]
    requires { RegionsAsked pyramid.now }
    ensures { RegionChoices pyramid.now.sizes.n.0 pyramid.now.sizes.darts (each pyramid.now.lambda.now) (each pyramid.now.delta.now) level.0 result }
{
    let mut choices = [0u8; ROOM];
    for (d, entry) in choices[..pyramid.lambda.len()].iter_mut().enumerate() {
        let lambda = answers::lambda_at(pyramid.lambda, d);
        let delta = answers::delta_at(pyramid.delta, d);
        *entry = rows_from(pyramid.sizes.n, lambda, delta, level);
    }
    choices
}

// Gives a name to the darts found.
fn give(name: u16, found: &[u16], names: &mut [u16])
    requires { (length names.old ≤ 4096) × ((k : ℕ) → k < length found.now → get_or found.now k 0 < length names.old) }
    ensures { Given name found.now (length found.now) names.old names.new }
{
    for d in found {
        names[*d as usize] = name;
    }
}

// The lowest dart of every orbit. Darts come in rising order, so the first of an orbit is its lowest; each dart is searched once.
fn name_orbits(pyramid: &Pyramid<'_>, choices: &[u8; ROOM], names: &mut [u16])
    requires { Leads pyramid.now.sizes.n.0 pyramid.now.sizes.darts pyramid.now.rows.now choices.now × (length names.old ≡ pyramid.now.sizes.darts) × (1 ≤ pyramid.now.sizes.n.0) }
    ensures { Lowests (base (folded pyramid.now)) pyramid.now.sizes.n.0 pyramid.now.sizes.darts (chosen choices.now) names.new }
{
    let mut reached = [false; ROOM];
    let mut queue = [0u16; ROOM];
    // By dart: a search that begins at one changes the flags of others.
    for start in 0..pyramid.sizes.darts {
        let at = start as usize;
        if !reached[at] {
            let search = Search::begin(pyramid.sizes.n, pyramid.sizes.darts, start);
            let end = orbits::orbit(search, pyramid.rows, choices, &mut reached, &mut queue);
            give(start, &queue[..end], names);
        }
    }
}

// Name the regions of a level: every base dart gets the lowest dart that it reaches in the base by a_0 to a_(n−1), and by a_n from darts with Λ < level and Δ = n−1. The pyramid is checked first, and nothing is named before all is tested.
pub fn name_regions(
    pyramid: &Pyramid<'_>,
    level: Level,
    table: &mut [u16],
    names: &mut [u16],
) -> Result<(), Refusal>
    ensures verdict { verdict_of result ≡ regions_lent (folded pyramid.now) table.old level.0 names.old }
    ensures table_left { table.new ≡ regions_table (folded pyramid.now) table.old level.0 names.old }
    ensures names_left { NamingLeaves (folded pyramid.now) table.old level.0 names.old names.new }
{
    if !answers::row_fits(pyramid.sizes.darts, names.len()) {
        return answers::lent(pyramid.sizes, false);
    }
    checking::check(pyramid, table)?;
    if pyramid.sizes.h < level {
        return Err(Refusal::NoLevel(level, Dim(0), 0));
    }
    contracted(pyramid)?;
    let choices = region_choices(pyramid, level);
    name_orbits(pyramid, &choices, names);
    Ok(())
}
