// Read one neighbour by the direct walk. Assumes nothing.
#![tactic(auto)]

ghost use Rattle.std.specs.Prelude.{◌≡◌, ◌≤◌, ◌<◌};
ghost use Rattle.maps.specs.Read.{walk_gives, walk_since, read_lent, read_since};
ghost use Rattle.answers.specs.Pyramid.{folded};
ghost use Rattle.questions.specs.Lent.{Lent};
ghost use Rattle.reading.specs.Answers.{value_of, stands_since};

use answers::{Level, Pyramid, Question, Refusal};

// A neighbour, the number of base entries read on the way to it, and since which level the link stands.
#[derive(Clone, Copy)]
pub struct Link {
    pub dart: u16,
    pub count: u32,
    pub since: Level,
}

// The direct walk of a dart: at each read 5 and 8; then the dart met is on the level, or 14, or 15, or it is passed.
fn walk(pyramid: &Pyramid<'_>, asked: Question) -> Result<Link, Refusal>
    requires { Lent (folded pyramid.now) asked.level.0 × (asked.involution.0 ≤ pyramid.now.sizes.n.0) × (asked.dart < pyramid.now.sizes.darts) }
    ensures answer { value_of result ≡ walk_gives (folded pyramid.now) asked.level.0 asked.involution.0 asked.dart }
    ensures since { stands_since result ≡ walk_since (folded pyramid.now) asked.level.0 asked.involution.0 asked.dart }
{
    let n = pyramid.sizes.n;
    let h = pyramid.sizes.h;
    let darts = pyramid.sizes.darts;
    let most = 1 + 2 * darts as u32;
    let level = asked.level;
    let involution = asked.involution;
    let mut t = involution;
    let mut from = asked.dart;
    let mut count: u32 = 0;
    let mut since = Level(0);
    loop {
        let e = answers::at(darts, pyramid.rows, t, from);
        if darts <= e {
            return Err(Refusal::Strays(level, t, from));
        }
        count += 1;
        let own = answers::lambda_at(pyramid.lambda, e as usize);
        let mark = answers::delta_at(pyramid.delta, e as usize);
        if !answers::is_gone(own, level) {
            if answers::marks_refused(n, h, own, mark) {
                return Err(Refusal::Marks(level, t, e));
            }
            return Ok(Link {
                dart: e,
                count,
                since,
            });
        }
        if !answers::is_mark(n, mark) {
            return Err(Refusal::Marks(level, t, e));
        }
        let Some(row) = answers::row_across(mark, t) else {
            return Err(Refusal::NoPass(level, t, e));
        };
        if count == most {
            return Err(Refusal::TooLong(level, involution, asked.dart));
        }
        since = since.max(Level(own.0 + 1));
        t = row;
        from = e;
    }
}

// The neighbour of a dart at a level, on any tables, and since which level it is that.
pub fn read(pyramid: &Pyramid<'_>, asked: Question) -> Result<Link, Refusal>
    ensures answer { value_of result ≡ read_lent (folded pyramid.now) asked.level.0 asked.involution.0 asked.dart }
    ensures since { stands_since result ≡ read_since (folded pyramid.now) asked.level.0 asked.involution.0 asked.dart }
{
    questions::question(pyramid, asked)?;
    walk(pyramid, asked)
}
