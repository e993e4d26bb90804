// The walks of a level into a table, over rows, then darts, left at the first refusal. Assumes nothing.
#![tactic(auto)]

ghost use Rattle.std.specs.Prelude.{◌≡◌, suc, ◌*◌, length};
ghost use Rattle.answers.specs.Pyramid.{folded};
ghost use Rattle.reading.specs.Walks.{Allowed, Meets};
ghost use Rattle.filling.specs.Walks.{Tells, Leaves};

use answers::{ABSENT, Dim, Level, Pyramid, Question, Refusal};
use reading::Link;

// The walk of a dart goes on from the dart met by its first read. All marks are allowed, so 8 is not tested again. A dart is passed, so the one more waits for the end.
fn onward(pyramid: &Pyramid<'_>, asked: Question, met: u16) -> Result<Link, Refusal>
    requires { Allowed (folded pyramid.now) asked.level.0 × Meets (folded pyramid.now) asked.level.0 asked.involution.0 asked.dart met }
    ensures { Tells (folded pyramid.now) asked.level.0 asked.involution.0 asked.dart result }
{
    let darts = pyramid.sizes.darts;
    let most = 1 + 2 * darts as u32;
    let level = asked.level;
    let involution = asked.involution;
    let mut t = involution;
    let mut from = met;
    let mut count: u32 = 1;
    let mut largest = answers::lambda_at(pyramid.lambda, from as usize);
    loop {
        let mark = answers::delta_at(pyramid.delta, from as usize);
        let Some(row) = answers::row_across(mark, t) else {
            return Err(Refusal::NoPass(level, t, from));
        };
        if count == most {
            return Err(Refusal::TooLong(level, involution, asked.dart));
        }
        t = row;
        let e = answers::at(darts, pyramid.rows, t, from);
        if darts <= e {
            return Err(Refusal::Strays(level, t, from));
        }
        count += 1;
        let own = answers::lambda_at(pyramid.lambda, e as usize);
        if !answers::is_gone(own, level) {
            return Ok(Link {
                dart: e,
                count,
                since: Level(largest.0 + 1),
            });
        }
        largest = largest.max(own);
        from = e;
    }
}

// The walk of dart d by row i, as it is asked.
fn walk_of(level: Level, i: u8, d: u16) -> Question
    ensures { (result.level.0 ≡ level.0) × (result.involution.0 ≡ i) × (result.dart ≡ d) }
{
    Question {
        level,
        involution: Dim(i),
        dart: d,
    }
}

// The count of all walks of a level, and since which level all its links stand.
#[derive(Clone, Copy)]
pub struct Unfolding {
    pub count: u32,
    pub since: Level,
}

// The walks of a level into the table, over rows, then darts, left at the first refusal. A neighbour that is on the level needs no call.
pub fn fill(pyramid: &Pyramid<'_>, level: Level, table: &mut [u16]) -> Result<Unfolding, Refusal>
    requires { Allowed (folded pyramid.now) level.0 × (length table.old ≡ suc pyramid.now.sizes.n.0 * pyramid.now.sizes.darts) }
    ensures { Leaves (folded pyramid.now) level.0 result table.new }
{
    let n = pyramid.sizes.n;
    let darts = pyramid.sizes.darts;
    let mut count: u32 = 0;
    let mut since = Level(0);
    // Counted: a place computed from row and dart takes an instruction more for each entry.
    let mut place: usize = 0;
    let mut refused = None;
    'rows: for i in 0..n.0 + 1 {
        // By dart: Λ is read at its number, rows and table at its place.
        for d in 0..darts {
            if answers::is_gone(answers::lambda_at(pyramid.lambda, d as usize), level) {
                table[place] = ABSENT;
            } else {
                let e = pyramid.rows[place];
                if darts <= e {
                    refused = Some(Refusal::Strays(level, Dim(i), d));
                    break 'rows;
                }
                if !answers::is_gone(answers::lambda_at(pyramid.lambda, e as usize), level) {
                    table[place] = e;
                    count += 1;
                } else {
                    match onward(pyramid, walk_of(level, i, d), e) {
                        Ok(end) => {
                            table[place] = end.dart;
                            count += end.count;
                            since = since.max(end.since);
                        },
                        Err(why) => {
                            refused = Some(why);
                            break 'rows;
                        },
                    }
                }
            }
            place += 1;
        }
    }
    match refused {
        Some(why) => Err(why),
        None => Ok(Unfolding { count, since }),
    }
}
