// The C interface of the second library as an exported symbol: the library's function of that name, with its clauses. Assumes nothing of a caller beyond pointers that are good for the lengths given.
#![tactic(auto)]

ghost use Rattle.std.specs.Prelude.{◌≡◌};
ghost use Rattle.maps.specs.Regions.{regions_lent, regions_table};
ghost use Rattle.answers.specs.Pyramid.{given};
ghost use Rattle.regions.specs.Searches.{NamingLeaves};
ghost use Rattle.zompelgors_regions.specs.Flat.{refusal_for};

use zompelgors_regions::ZgRefusal;

// Names the regions of a level.
#[unsafe(no_mangle)]
pub extern "C" fn zg_regions(
    n: u8,
    darts: u16,
    h: u8,
    rows: &[u16],
    lambda: &[u8],
    delta: &[u8],
    table: &mut [u16],
    level: u8,
    names: &mut [u16],
) -> ZgRefusal
    ensures answer { result ≡ refusal_for (regions_lent (given n darts h rows.now lambda.now delta.now) table.old level names.old) }
    ensures table_left { table.new ≡ regions_table (given n darts h rows.now lambda.now delta.now) table.old level names.old }
    ensures names_left { NamingLeaves (given n darts h rows.now lambda.now delta.now) table.old level names.old names.new }
{
    zompelgors_regions::zg_regions(n, darts, h, rows, lambda, delta, table, level, names)
}
