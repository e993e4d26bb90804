// The C interface of the second library: region names. Assumes nothing of a caller beyond pointers that are good for the lengths given.
#![tactic(auto)]

ghost use Rattle.std.specs.Prelude.{◌≡◌};
ghost use Rattle.maps.specs.Regions.{regions_lent, regions_table};
ghost use Rattle.answers.specs.Pyramid.{given};
ghost use Rattle.answers.specs.Numbers.{verdict_of};
ghost use Rattle.regions.specs.Searches.{NamingLeaves};
ghost use Rattle.zompelgors_regions.specs.Flat.{refusal_for};

use answers::{Dim, Level, Numbers, Pyramid, Refusal, Sizes};

// The document's number and values; all 0 where accepted. The first library's struct of that name in C.
#[repr(C)]
#[derive(Clone, Copy, Default)]
pub struct ZgRefusal {
    pub number: u16,
    pub level: u16,
    pub involution: u16,
    pub dart: u16,
}

// The answer of a check.
impl From<Result<(), Refusal>> for ZgRefusal {
    ghost from_gives = { λ answer said. said ≡ refusal_for (verdict_of answer) };

    fn from(answer: Result<(), Refusal>) -> ZgRefusal {
        match answer {
            Ok(()) => ZgRefusal::default(),
            Err(why) => {
                let said = Numbers::from(why);
                ZgRefusal {
                    number: said.number,
                    level: said.level,
                    involution: said.involution,
                    dart: said.dart,
                }
            },
        }
    }
}

// Names the regions of a level.
pub fn zg_regions(
    n: u8,
    darts: u16,
    h: u8,
    rows: &[u16],
    lambda: &[u8],
    delta: &[u8],
    table: &mut [u16],
    level: u8,
    names: &mut [u16],
) -> ZgRefusal
    ensures answer { result ≡ refusal_for (regions_lent (given n darts h rows.now lambda.now delta.now) table.old level names.old) }
    ensures table_left { table.new ≡ regions_table (given n darts h rows.now lambda.now delta.now) table.old level names.old }
    ensures names_left { NamingLeaves (given n darts h rows.now lambda.now delta.now) table.old level names.old names.new }
{
    let sizes = Sizes {
        n: Dim(n),
        h: Level(h),
        darts,
    };
    let pyramid = Pyramid {
        sizes,
        rows,
        lambda,
        delta,
    };
    regions::name_regions(&pyramid, Level(level), table, names).into()
}
