// Read one neighbour by levels: each step of a walk over a level is again a reading one level lower, down to the base. Assumes nothing.
#![tactic(auto)]

ghost use Rattle.std.specs.Prelude.{◌≡◌, ◌&&◌, ◌<◌, length, eqb};
ghost use Rattle.maps.specs.Table.{each};
ghost use Rattle.maps.specs.Read.{read_lent_by_levels};
ghost use Rattle.answers.specs.Numbers.{refusal_of};
ghost use Rattle.answers.specs.Pyramid.{folded};
ghost use Rattle.by_levels.specs.Answers.{value_of};
ghost use Rattle.by_levels.specs.Ends.{refused_of, Asked, Reads, Passable, Second};

use answers::{Dim, Level, Passage, Pyramid, Question, Refusal};

// A neighbour, and the number of base entries read on the way to it. A link of `reading` has one fact more, and stands in a crate beside this one.
#[derive(Clone, Copy)]
pub struct Neighbour {
    pub dart: u16,
    pub count: u32,
}

// A row of a dart, and the number of base entries read so far: the row to read next, or the row read last where the dart was met.
#[derive(Clone, Copy)]
struct Place {
    row: Dim,
    dart: u16,
    count: u32,
}

// What stops a walk: 15, 5, 8 or 14.
#[derive(Clone, Copy)]
enum Stop {
    TooLong,
    Strays,
    Marks,
    NoPass,
}

// Why a reading was stopped, and where.
#[derive(Clone, Copy)]
struct Stopped(Stop, Place);

// One base entry: 15, 5, and 8 of the dart met.
fn read_base(pyramid: &Pyramid<'_>, at: Place) -> Result<Place, Stopped>
    requires { Asked (folded pyramid.now) 0 at }
    ensures { Reads (folded pyramid.now) 0 at result }
{
    let sizes = pyramid.sizes;
    if 1 + 2 * sizes.darts as u32 <= at.count {
        return Err(Stopped(Stop::TooLong, at));
    }
    let row = at.row;
    let dart = answers::at(sizes.darts, pyramid.rows, row, at.dart);
    if sizes.darts <= dart {
        return Err(Stopped(Stop::Strays, at));
    }
    let met = Place {
        row,
        dart,
        count: at.count + 1,
    };
    let own = answers::lambda_at(pyramid.lambda, dart as usize);
    let mark = answers::delta_at(pyramid.delta, dart as usize);
    if answers::marks_refused(sizes.n, sizes.h, own, mark) {
        return Err(Stopped(Stop::Marks, met));
    }
    Ok(met)
}

// A row of a dart on level l: the base entry, or a walk over the level below.
#[cycle(reading_walk)]
fn reading(pyramid: &Pyramid<'_>, l: Level, at: Place) -> Result<Place, Stopped>
    requires { Asked (folded pyramid.now) l.0 at }
    ensures { Reads (folded pyramid.now) l.0 at result }
{
    if l.0 == 0 {
        return read_base(pyramid, at);
    }
    walk(pyramid, l, at)
}

// By which row a dart met on level l that is not on the level above is passed: by its mark's second, where it is in kernel l and was met by its mark's first.
fn second_row(pyramid: &Pyramid<'_>, l: Level, met: Place) -> Option<Dim>
    requires { Passable pyramid.now.lambda.now pyramid.now.delta.now l.0 met.dart }
    ensures { Second (each pyramid.now.lambda.now) (each pyramid.now.delta.now) l.0 met.row.0 met.dart result }
{
    let at = met.dart as usize;
    if !answers::in_kernel(answers::lambda_at(pyramid.lambda, at), l) {
        return None;
    }
    let Passage(first, second) = answers::between(answers::delta_at(pyramid.delta, at));
    if first != met.row {
        return None;
    }
    Some(second)
}

// Is the dart that a pass has reached in kernel l, with the mark of the dart passed?
fn same_kernel(pyramid: &Pyramid<'_>, l: Level, passed: u16, reached: u16) -> bool
    requires { (reached < length pyramid.now.lambda.now) × (reached < length pyramid.now.delta.now) × (passed < length pyramid.now.delta.now) }
    ensures { result ≡ (eqb (each pyramid.now.lambda.now reached) l.0 && eqb (each pyramid.now.delta.now reached) (each pyramid.now.delta.now passed)) }
{
    let own = answers::lambda_at(pyramid.lambda, reached as usize);
    let mark = answers::delta_at(pyramid.delta, reached as usize);
    let other = answers::delta_at(pyramid.delta, passed as usize);
    answers::in_kernel(own, l) && mark == other
}

// The walk over the level below l, whose every step is a reading there: it ends at the first dart that is on level l. A dart met that is not is passed by two steps: it must be in the kernel below, met by its mark's first row, and the dart that the second row leads to must be there with the same mark, else 14.
#[cycle(reading_walk)]
fn walk(pyramid: &Pyramid<'_>, l: Level, from: Place) -> Result<Place, Stopped>
    requires { Asked (folded pyramid.now) l.0 from × (0 < l.0) }
    ensures { Reads (folded pyramid.now) l.0 from result }
{
    let below = Level(l.0 - 1);
    let mut met = reading(pyramid, below, from)?;
    loop {
        let own = answers::lambda_at(pyramid.lambda, met.dart as usize);
        if !answers::is_gone(own, l) {
            return Ok(met);
        }
        let Some(across) = second_row(pyramid, below, met) else {
            return Err(Stopped(Stop::NoPass, met));
        };
        let second = Place { row: across, ..met };
        let next = reading(pyramid, below, second)?;
        if !same_kernel(pyramid, below, met.dart, next.dart) {
            return Err(Stopped(Stop::NoPass, next));
        }
        let at = Place {
            row: from.row,
            ..next
        };
        met = reading(pyramid, below, at)?;
    }
}

// The refusal of what was asked, where its reading was stopped.
fn refusal(asked: Question, stopped: Stopped) -> Refusal
    ensures { refusal_of result ≡ refused_of asked.level.0 asked.involution.0 asked.dart stopped }
{
    let level = asked.level;
    let involution = asked.involution;
    let at = stopped.1;
    let row = at.row;
    match stopped.0 {
        Stop::TooLong => Refusal::TooLong(level, involution, asked.dart),
        Stop::Strays => Refusal::Strays(level, row, at.dart),
        Stop::Marks => Refusal::Marks(level, row, at.dart),
        Stop::NoPass => Refusal::NoPass(level, row, at.dart),
    }
}

// The neighbour of a dart at a level, on any tables, by readings one level lower each.
pub fn read_by_levels(pyramid: &Pyramid<'_>, asked: Question) -> Result<Neighbour, Refusal>
    ensures { value_of result ≡ read_lent_by_levels (folded pyramid.now) asked.level.0 asked.involution.0 asked.dart }
{
    questions::question(pyramid, asked)?;
    let level = asked.level;
    let involution = asked.involution;
    let start = Place {
        row: involution,
        dart: asked.dart,
        count: 0,
    };
    match reading(pyramid, level, start) {
        Ok(met) => Ok(Neighbour {
            dart: met.dart,
            count: met.count,
        }),
        Err(stopped) => Err(refusal(asked, stopped)),
    }
}
