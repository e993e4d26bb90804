// What the C interface answers: a struct for each kind of answer, made of the job's own. Assumes nothing.
#![tactic(auto)]

ghost use Rattle.std.specs.Prelude.{◌≡◌, ◌*◌, ◌≤◌, Ok};
ghost use Rattle.maps.specs.Verdict.{accepted};
ghost use Rattle.answers.specs.Numbers.{refusal_of, verdict_of};
ghost use Rattle.checking.specs.Answers.{height_of};
ghost use Rattle.by_levels.specs.Answers.{value_of};
ghost use Rattle.reading.specs.Answers.{value_of as link_of, stands_since};
ghost use Rattle.one_level.specs.Answers.{total_of, latest_of};
ghost use Rattle.survivor_words.specs.Answers.{count_of_survivors};
ghost use Rattle.taking.specs.Answers.{taken_of};
ghost use Rattle.writing.specs.Answers.{written_of};
ghost use Rattle.decimation.specs.Answers.{factor_of};
ghost use Rattle.starting_again.specs.Answers.{rebased_of};
ghost use Rattle.interface.specs.Flat.{refusal_for, said_by, reading_for, link_for, count_for, unfolding_for, height_for, part_for, record_for, written_for, factor_for, base_for, version_for};

use answers::{Dim, Level, Numbers, Refusal, Sizes};
use by_levels::Neighbour;
use decimation::Factor;
use one_level::Unfolding;
use reading::Link;

// The document's number and values; all 0 where accepted.
#[repr(C)]
#[derive(Clone, Copy, Default)]
pub struct ZgRefusal {
    pub number: u16,
    pub level: u16,
    pub involution: u16,
    pub dart: u16,
}

// A neighbour with the count of base entries read.
#[repr(C)]
#[derive(Clone, Copy, Default)]
pub struct ZgReading {
    pub refusal: ZgRefusal,
    pub count: u32,
    pub neighbour: u16,
}

// A neighbour with the count of base entries read, and since which level the link stands.
#[repr(C)]
#[derive(Clone, Copy, Default)]
pub struct ZgLink {
    pub refusal: ZgRefusal,
    pub count: u32,
    pub neighbour: u16,
    pub since: u8,
}

// The total count of an unfolding, and since which level all its links stand.
#[repr(C)]
#[derive(Clone, Copy, Default)]
pub struct ZgUnfolding {
    pub refusal: ZgRefusal,
    pub count: u32,
    pub since: u8,
}

// The survivor count.
#[repr(C)]
#[derive(Clone, Copy, Default)]
pub struct ZgCount {
    pub refusal: ZgRefusal,
    pub count: u32,
}

// The height after a level is added or two kernels are joined; as given in a refusal.
#[repr(C)]
#[derive(Clone, Copy, Default)]
pub struct ZgHeight {
    pub refusal: ZgRefusal,
    pub height: u8,
}

// Where a row lies: a part of the base rows (unfolded 0) or of the unfolded level (unfolded 1).
#[repr(C)]
#[derive(Clone, Copy, Default)]
pub struct ZgPart {
    pub refusal: ZgRefusal,
    pub unfolded: u8,
    pub start: u16,
    pub length: u16,
}

// n, h and N of a record that is taken.
#[repr(C)]
#[derive(Clone, Copy, Default)]
pub struct ZgRecord {
    pub refusal: ZgRefusal,
    pub n: u8,
    pub h: u8,
    pub darts: u16,
}

// The length in bytes of a record that is written.
#[repr(C)]
#[derive(Clone, Copy, Default)]
pub struct ZgWritten {
    pub refusal: ZgRefusal,
    pub length: u32,
}

// By which factor the survivors become fewer, or that the next level has no dart (empty 1, factor 0).
#[repr(C)]
#[derive(Clone, Copy, Default)]
pub struct ZgFactor {
    pub refusal: ZgRefusal,
    pub empty: u8,
    pub factor: f64,
}

// The darts and the height of a new base; as given in a refusal.
#[repr(C)]
#[derive(Clone, Copy, Default)]
pub struct ZgBase {
    pub refusal: ZgRefusal,
    pub darts: u16,
    pub h: u8,
}

// A refusal.
impl From<Refusal> for ZgRefusal {
    ghost from_gives = { λ refusal said. said_by said ≡ refusal_of refusal };

    fn from(refusal: Refusal) -> ZgRefusal {
        let said = Numbers::from(refusal);
        ZgRefusal {
            number: said.number,
            level: said.level,
            involution: said.involution,
            dart: said.dart,
        }
    }
}

// The answer of a check.
impl From<Result<(), Refusal>> for ZgRefusal {
    ghost from_gives = { λ answer said. said ≡ refusal_for (verdict_of answer) };

    fn from(answer: Result<(), Refusal>) -> ZgRefusal {
        match answer {
            Ok(()) => ZgRefusal::default(),
            Err(why) => ZgRefusal::from(why),
        }
    }
}

// The answer of a reading by levels.
impl From<Result<Neighbour, Refusal>> for ZgReading {
    ghost from_gives = { λ answer said. said ≡ reading_for (value_of answer) };

    fn from(answer: Result<Neighbour, Refusal>) -> ZgReading {
        match answer {
            Ok(found) => ZgReading {
                refusal: ZgRefusal::default(),
                count: found.count,
                neighbour: found.dart,
            },
            Err(why) => ZgReading {
                refusal: ZgRefusal::from(why),
                ..ZgReading::default()
            },
        }
    }
}

// The answer of a direct reading.
impl From<Result<Link, Refusal>> for ZgLink {
    ghost from_gives = { λ answer said. said ≡ link_for (link_of answer) (stands_since answer) };

    fn from(answer: Result<Link, Refusal>) -> ZgLink {
        match answer {
            Ok(link) => ZgLink {
                refusal: ZgRefusal::default(),
                count: link.count,
                neighbour: link.dart,
                since: link.since.0,
            },
            Err(why) => ZgLink {
                refusal: ZgRefusal::from(why),
                ..ZgLink::default()
            },
        }
    }
}

// The answer of an unfolding.
impl From<Result<Unfolding, Refusal>> for ZgUnfolding {
    ghost from_gives = { λ answer said. said ≡ unfolding_for (verdict_of answer) (total_of answer) (latest_of answer) };

    fn from(answer: Result<Unfolding, Refusal>) -> ZgUnfolding {
        match answer {
            Ok(all) => ZgUnfolding {
                refusal: ZgRefusal::default(),
                count: all.count,
                since: all.since.0,
            },
            Err(why) => ZgUnfolding {
                refusal: ZgRefusal::from(why),
                ..ZgUnfolding::default()
            },
        }
    }
}

// The answer of the survivor words.
impl From<Result<u32, Refusal>> for ZgCount {
    ghost from_gives = { λ answer said. said ≡ count_for (verdict_of answer) (count_of_survivors answer) };

    fn from(answer: Result<u32, Refusal>) -> ZgCount {
        match answer {
            Ok(count) => ZgCount {
                refusal: ZgRefusal::default(),
                count,
            },
            Err(why) => ZgCount {
                refusal: ZgRefusal::from(why),
                ..ZgCount::default()
            },
        }
    }
}

// The answer of an add or a join, where h was the height: no `From`, since a refusal repeats it.
pub fn height_as(h: Level, answer: Result<Level, Refusal>) -> ZgHeight
    ensures { result ≡ height_for (verdict_of answer) (height_of h.0 answer) }
{
    match answer {
        Ok(new) => ZgHeight {
            refusal: ZgRefusal::default(),
            height: new.0,
        },
        Err(why) => ZgHeight {
            refusal: ZgRefusal::from(why),
            height: h.0,
        },
    }
}

// The place of a row, or why it is refused: no `From`, since the answer of the test has no place.
pub fn part_as(darts: u16, level: Level, involution: Dim, answer: Result<(), Refusal>) -> ZgPart
    requires { verdict_of answer ≡ accepted → involution.0 * darts ≤ 16384 }
    ensures { result ≡ part_for (verdict_of answer) darts level.0 involution.0 }
{
    match answer {
        Ok(()) => ZgPart {
            refusal: ZgRefusal::default(),
            unfolded: u8::from(level.0 != 0),
            start: u16::from(involution.0) * darts,
            length: darts,
        },
        Err(why) => ZgPart {
            refusal: ZgRefusal::from(why),
            ..ZgPart::default()
        },
    }
}

// The answer of taking a record.
impl From<Result<Sizes, Refusal>> for ZgRecord {
    ghost from_gives = { λ answer said. said ≡ record_for (taken_of answer) };

    fn from(answer: Result<Sizes, Refusal>) -> ZgRecord {
        match answer {
            Ok(taken) => ZgRecord {
                refusal: ZgRefusal::default(),
                n: taken.n.0,
                h: taken.h.0,
                darts: taken.darts,
            },
            Err(why) => ZgRecord {
                refusal: ZgRefusal::from(why),
                ..ZgRecord::default()
            },
        }
    }
}

// The answer of writing a record.
impl From<Result<u32, Refusal>> for ZgWritten {
    ghost from_gives = { λ answer said. said ≡ written_for (written_of answer) };

    fn from(answer: Result<u32, Refusal>) -> ZgWritten {
        match answer {
            Ok(length) => ZgWritten {
                refusal: ZgRefusal::default(),
                length,
            },
            Err(why) => ZgWritten {
                refusal: ZgRefusal::from(why),
                ..ZgWritten::default()
            },
        }
    }
}

// A factor, or that the next level has no dart.
impl From<Factor> for ZgFactor {
    ghost from_gives = { λ factor said. said ≡ factor_for (factor_of (Ok factor)) };

    fn from(factor: Factor) -> ZgFactor {
        match factor {
            Factor::By(factor) => ZgFactor {
                refusal: ZgRefusal::default(),
                empty: 0,
                factor,
            },
            Factor::Empty => ZgFactor {
                refusal: ZgRefusal::default(),
                empty: 1,
                factor: 0.0,
            },
        }
    }
}

// The answer of a decimation.
impl From<Result<Factor, Refusal>> for ZgFactor {
    ghost from_gives = { λ answer said. said ≡ factor_for (factor_of answer) };

    fn from(answer: Result<Factor, Refusal>) -> ZgFactor {
        match answer {
            Ok(factor) => ZgFactor::from(factor),
            Err(why) => ZgFactor {
                refusal: ZgRefusal::from(why),
                empty: 0,
                factor: 0.0,
            },
        }
    }
}

// The answer of starting again, where these were the sizes: no `From`, since a refusal repeats them.
pub fn base_as(sizes: Sizes, answer: Result<Sizes, Refusal>) -> ZgBase
    ensures { result ≡ base_for (rebased_of sizes answer) }
{
    match answer {
        Ok(new) => ZgBase {
            refusal: ZgRefusal::default(),
            darts: new.darts,
            h: new.h.0,
        },
        Err(why) => ZgBase {
            refusal: ZgRefusal::from(why),
            darts: sizes.darts,
            h: sizes.h.0,
        },
    }
}

// The version of this interface.
const MAJOR: u32 = 6;

const MINOR: u32 = 3;

const PATCH: u32 = 0;

// Its three numbers as one.
pub fn version() -> u32
    ensures { result ≡ version_for 6 3 0 }
{
    MAJOR * 65536 + MINOR * 256 + PATCH
}
