// The C interface of the jobs: pointers with lengths, structs by value. Assumes nothing of a caller beyond pointers that are good for the lengths given.
#![tactic(auto)]

ghost use Rattle.std.specs.Prelude.{◌≡◌};
ghost use Rattle.maps.specs.CheckBase.{check_base};
ghost use Rattle.maps.specs.CheckPyramid.{check_lent, check_leaves};
ghost use Rattle.maps.specs.AddLevel.{add_lambda, add_delta, add_leaves};
ghost use Rattle.maps.specs.MarksBack.{marks_lent, marks_leaves};
ghost use Rattle.maps.specs.Read.{read_lent_by_levels};
ghost use Rattle.maps.specs.Unfold.{unfold_leaves};
ghost use Rattle.maps.specs.UnfoldAll.{unfold_all_lent, unfold_all_tables, unfold_all_counts, unfold_all_since};
ghost use Rattle.maps.specs.Row.{row_lent};
ghost use Rattle.maps.specs.Survivors.{survivors_lent, survivor_count, survivor_words};
ghost use Rattle.maps.specs.MarkCells.{mark_lent, MarkLeaves};
ghost use Rattle.maps.specs.Record.{wide, take_rows, take_lambda, take_delta, take_table};
ghost use Rattle.maps.specs.Write.{write_table, write_leaves};
ghost use Rattle.maps.specs.Decimation.{decimation_table};
ghost use Rattle.maps.specs.Census.{census_lent, census_table};
ghost use Rattle.maps.specs.Partner.{import_lent};
ghost use Rattle.maps.specs.Join.{join_lambda, join_leaves};
ghost use Rattle.maps.specs.Rebase.{rebase_rows, rebase_lambda, rebase_delta, rebase_old, rebase_table};
ghost use Rattle.answers.specs.Pyramid.{given};
ghost use Rattle.taking.specs.Answers.{taken};
ghost use Rattle.writing.specs.Answers.{writing};
ghost use Rattle.decimation.specs.Answers.{decimating};
ghost use Rattle.counting.specs.Left.{CensusPutLeft};
ghost use Rattle.combinatorial.specs.Left.{ImportLeft};
ghost use Rattle.starting_again.specs.Answers.{rebasing};
ghost use Rattle.interface.specs.Flat.{refusal_for, reading_for, count_for, part_for, record_for, written_for, factor_for, base_for, version_for};
ghost use Rattle.zompelgors.specs.Answers.{add_for, join_for, read_for, unfold_for, ExportFor};

use answers::{AtLevel, Dim, Level, Pyramid, Question, Sizes};
use interface::{
    ZgBase, ZgCount, ZgFactor, ZgHeight, ZgLink, ZgPart, ZgReading, ZgRecord, ZgRefusal,
    ZgUnfolding, ZgWritten, base_as, height_as, part_as,
};
use unfolding::unfold_all;

// The version of this interface: its three numbers as one.
pub fn zg_version() -> u32
    ensures { result ≡ version_for 6 3 0 }
{
    interface::version()
}

// Checks a base.
pub fn zg_check_base(n: u8, darts: u16, rows: &[u16]) -> ZgRefusal
    ensures { result ≡ refusal_for (check_base n darts rows.now) }
{
    bases::check_base(Dim(n), darts, rows).into()
}

// Checks a whole pyramid.
pub fn zg_check(
    n: u8,
    darts: u16,
    h: u8,
    rows: &[u16],
    lambda: &[u8],
    delta: &[u8],
    table: &mut [u16],
) -> ZgRefusal
    ensures answer { result ≡ refusal_for (check_lent (given n darts h rows.now lambda.now delta.now) table.old) }
    ensures table_left { table.new ≡ check_leaves (given n darts h rows.now lambda.now delta.now) table.old }
{
    let sizes = Sizes {
        n: Dim(n),
        h: Level(h),
        darts,
    };
    let pyramid = Pyramid {
        sizes,
        rows,
        lambda,
        delta,
    };
    checking::check(&pyramid, table).into()
}

// Adds a level on top.
pub fn zg_add(
    n: u8,
    darts: u16,
    h: u8,
    rows: &[u16],
    lambda: &mut [u8],
    delta: &mut [u8],
    marks: &[u8],
    table: &mut [u16],
) -> ZgHeight
    ensures answer { result ≡ add_for (given n darts h rows.now lambda.old delta.old) marks.now table.old }
    ensures lambda_left { lambda.new ≡ add_lambda (given n darts h rows.now lambda.old delta.old) marks.now table.old }
    ensures delta_left { delta.new ≡ add_delta (given n darts h rows.now lambda.old delta.old) marks.now table.old }
    ensures table_left { table.new ≡ add_leaves (given n darts h rows.now lambda.old delta.old) marks.now table.old }
{
    let sizes = Sizes {
        n: Dim(n),
        h: Level(h),
        darts,
    };
    height_as(
        Level(h),
        checking::add(sizes, rows, lambda, delta, marks, table),
    )
}

// Reads the mark row of a level back.
pub fn zg_marks_of(
    n: u8,
    darts: u16,
    h: u8,
    lambda: &[u8],
    delta: &[u8],
    level: u8,
    marks: &mut [u8],
) -> ZgRefusal
    ensures answer { result ≡ refusal_for (marks_lent n darts h lambda.now delta.now level marks.old) }
    ensures marks_left { marks.new ≡ marks_leaves n darts h lambda.now delta.now level marks.old }
{
    let sizes = Sizes {
        n: Dim(n),
        h: Level(h),
        darts,
    };
    marks_back::marks_of(sizes, lambda, delta, Level(level), marks).into()
}

// Reads one neighbour on a level by the direct walk, and since which level the link stands.
pub fn zg_read(
    n: u8,
    darts: u16,
    h: u8,
    rows: &[u16],
    lambda: &[u8],
    delta: &[u8],
    level: u8,
    involution: u8,
    dart: u16,
) -> ZgLink
    ensures { result ≡ read_for (given n darts h rows.now lambda.now delta.now) level involution dart }
{
    let sizes = Sizes {
        n: Dim(n),
        h: Level(h),
        darts,
    };
    let pyramid = Pyramid {
        sizes,
        rows,
        lambda,
        delta,
    };
    reading::read(
        &pyramid,
        Question {
            level: Level(level),
            involution: Dim(involution),
            dart,
        },
    )
    .into()
}

// Reads one neighbour on a level by readings one level lower each.
pub fn zg_read_by_levels(
    n: u8,
    darts: u16,
    h: u8,
    rows: &[u16],
    lambda: &[u8],
    delta: &[u8],
    level: u8,
    involution: u8,
    dart: u16,
) -> ZgReading
    ensures { result ≡ reading_for (read_lent_by_levels (given n darts h rows.now lambda.now delta.now) level involution dart) }
{
    let sizes = Sizes {
        n: Dim(n),
        h: Level(h),
        darts,
    };
    let pyramid = Pyramid {
        sizes,
        rows,
        lambda,
        delta,
    };
    by_levels::read_by_levels(
        &pyramid,
        Question {
            level: Level(level),
            involution: Dim(involution),
            dart,
        },
    )
    .into()
}

// Unfolds a whole level.
pub fn zg_unfold(
    n: u8,
    darts: u16,
    h: u8,
    rows: &[u16],
    lambda: &[u8],
    delta: &[u8],
    level: u8,
    table: &mut [u16],
) -> ZgUnfolding
    ensures answer { result ≡ unfold_for (given n darts h rows.now lambda.now delta.now) level table.old }
    ensures table_left { table.new ≡ unfold_leaves (given n darts h rows.now lambda.now delta.now) level table.old }
{
    let sizes = Sizes {
        n: Dim(n),
        h: Level(h),
        darts,
    };
    let pyramid = Pyramid {
        sizes,
        rows,
        lambda,
        delta,
    };
    one_level::unfold(&pyramid, Level(level), table).into()
}

// Checks a whole pyramid and unfolds all its levels, each in a block of its own, with the counts and the levels since which.
pub fn zg_unfold_all(
    n: u8,
    darts: u16,
    h: u8,
    rows: &[u16],
    lambda: &[u8],
    delta: &[u8],
    tables: &mut [u16],
    counts: &mut [u32],
    since: &mut [u8],
) -> ZgRefusal
    ensures answer { result ≡ refusal_for (unfold_all_lent (given n darts h rows.now lambda.now delta.now) tables.old counts.old since.old) }
    ensures tables_left { tables.new ≡ unfold_all_tables (given n darts h rows.now lambda.now delta.now) tables.old counts.old since.old }
    ensures counts_left { counts.new ≡ unfold_all_counts (given n darts h rows.now lambda.now delta.now) tables.old counts.old since.old }
    ensures since_left { since.new ≡ unfold_all_since (given n darts h rows.now lambda.now delta.now) tables.old counts.old since.old }
{
    let sizes = Sizes {
        n: Dim(n),
        h: Level(h),
        darts,
    };
    let pyramid = Pyramid {
        sizes,
        rows,
        lambda,
        delta,
    };
    unfold_all(&pyramid, tables, counts, since).into()
}

// Says where a row of a level lies.
pub fn zg_row(
    n: u8,
    darts: u16,
    h: u8,
    base: &[u16],
    unfolded: &[u16],
    level: u8,
    involution: u8,
) -> ZgPart
    ensures { result ≡ part_for (row_lent n darts h base.now unfolded.now level involution) darts level involution }
{
    let sizes = Sizes {
        n: Dim(n),
        h: Level(h),
        darts,
    };
    part_as(
        darts,
        Level(level),
        Dim(involution),
        rows::row_refusal(sizes, base, unfolded, Level(level), Dim(involution)),
    )
}

// The survivor words of a level.
pub fn zg_survivors(darts: u16, h: u8, lambda: &[u8], level: u8, words: &mut [u64]) -> ZgCount
    ensures answer { result ≡ count_for (survivors_lent darts h lambda.now level words.old) (survivor_count darts h lambda.now level words.old) }
    ensures words_left { words.new ≡ survivor_words darts h lambda.now level words.old }
{
    survivor_words::survivors(darts, Level(h), lambda, Level(level), words).into()
}

// Marks cells of one dimension on an explicit level: those that are removable and fall into two parts, but for one of each piece that would vanish.
pub fn zg_mark_cells(n: u8, darts: u16, table: &[u16], dimension: u8, marks: &mut [u8]) -> ZgRefusal
    ensures answer { result ≡ refusal_for (mark_lent n darts table.now dimension marks.old) }
    ensures marks_left { MarkLeaves n darts table.now dimension marks.old (mark_lent n darts table.now dimension marks.old) marks.new }
{
    cells::mark_cells(Dim(n), darts, table, Dim(dimension), marks).into()
}

// Takes a record into lent memory and checks its pyramid; after 5 to 10 rows and marks hold what the record said.
pub fn zg_take(
    bytes: &[u8],
    rows: &mut [u16],
    lambda: &mut [u8],
    delta: &mut [u8],
    table: &mut [u16],
) -> ZgRecord
    ensures answer { result ≡ record_for (taken bytes.now wide rows.old lambda.old delta.old table.old) }
    ensures rows_left { rows.new ≡ take_rows bytes.now wide rows.old lambda.old delta.old table.old }
    ensures lambda_left { lambda.new ≡ take_lambda bytes.now wide rows.old lambda.old delta.old table.old }
    ensures delta_left { delta.new ≡ take_delta bytes.now wide rows.old lambda.old delta.old table.old }
    ensures table_left { table.new ≡ take_table bytes.now wide rows.old lambda.old delta.old table.old }
{
    taking::take(bytes, rows, lambda, delta, table).into()
}

// Writes the record of an accepted pyramid into a lent buffer; the table is left as the check leaves it.
pub fn zg_write(
    n: u8,
    darts: u16,
    h: u8,
    rows: &[u16],
    lambda: &[u8],
    delta: &[u8],
    table: &mut [u16],
    bytes: &mut [u8],
) -> ZgWritten
    ensures answer { result ≡ written_for (writing (given n darts h rows.now lambda.now delta.now) table.old bytes.old) }
    ensures table_left { table.new ≡ write_table (given n darts h rows.now lambda.now delta.now) table.old bytes.old }
    ensures bytes_left { bytes.new ≡ write_leaves (given n darts h rows.now lambda.now delta.now) table.old bytes.old }
{
    let sizes = Sizes {
        n: Dim(n),
        h: Level(h),
        darts,
    };
    let pyramid = Pyramid {
        sizes,
        rows,
        lambda,
        delta,
    };
    writing::write(&pyramid, table, bytes).into()
}

// By which factor an accepted pyramid shrinks from a level to the next; the table is left as the check leaves it.
pub fn zg_decimation(
    n: u8,
    darts: u16,
    h: u8,
    rows: &[u16],
    lambda: &[u8],
    delta: &[u8],
    table: &mut [u16],
    level: u8,
) -> ZgFactor
    ensures answer { result ≡ factor_for (decimating (given n darts h rows.now lambda.now delta.now) table.old level) }
    ensures table_left { table.new ≡ decimation_table (given n darts h rows.now lambda.now delta.now) table.old level }
{
    let sizes = Sizes {
        n: Dim(n),
        h: Level(h),
        darts,
    };
    let pyramid = Pyramid {
        sizes,
        rows,
        lambda,
        delta,
    };
    decimation::decimation(&pyramid, table, Level(level)).into()
}

// A census of an accepted pyramid, into 33 rows of five counts and 33 sums; the table is left as the check leaves it.
pub fn zg_census(
    n: u8,
    darts: u16,
    h: u8,
    rows: &[u16],
    lambda: &[u8],
    delta: &[u8],
    table: &mut [u16],
    cells: &mut [u16],
    sums: &mut [i32],
) -> ZgRefusal
    ensures answer { result ≡ refusal_for (census_lent (given n darts h rows.now lambda.now delta.now) table.old cells.old sums.old) }
    ensures table_left { table.new ≡ census_table (given n darts h rows.now lambda.now delta.now) table.old cells.old sums.old }
    ensures counts_left { CensusPutLeft (given n darts h rows.now lambda.now delta.now) table.old cells.old sums.old cells.new sums.new }
{
    let sizes = Sizes {
        n: Dim(n),
        h: Level(h),
        darts,
    };
    let pyramid = Pyramid {
        sizes,
        rows,
        lambda,
        delta,
    };
    counting::census_into(&pyramid, table, cells, sums).into()
}

// Brings in a 2D combinatorial map of m darts as the rows of a base of 2m darts.
pub fn zg_import(m: u16, edges: &[u16], vertices: &[u16], rows: &mut [u16]) -> ZgRefusal
    ensures answer { result ≡ refusal_for (import_lent m edges.now vertices.now rows.old) }
    ensures rows_left { ImportLeft m edges.now vertices.now rows.old rows.new }
{
    combinatorial::import(m, edges, vertices, rows).into()
}

// Takes a base back to the two rows that yield it.
pub fn zg_export(
    n: u8,
    darts: u16,
    rows: &[u16],
    edges: &mut [u16],
    vertices: &mut [u16],
) -> ZgRefusal
    ensures { ExportFor n darts rows.now edges.old vertices.old result edges.new vertices.new }
{
    combinatorial::export(Dim(n), darts, rows, edges, vertices).into()
}

// Joins the kernels of a level and the next of an accepted pyramid; Λ and the height fall.
pub fn zg_join(
    n: u8,
    darts: u16,
    h: u8,
    rows: &[u16],
    lambda: &mut [u8],
    delta: &[u8],
    table: &mut [u16],
    level: u8,
) -> ZgHeight
    ensures answer { result ≡ join_for (given n darts h rows.now lambda.old delta.now) table.old level }
    ensures lambda_left { lambda.new ≡ join_lambda (given n darts h rows.now lambda.old delta.now) table.old level }
    ensures table_left { table.new ≡ join_leaves (given n darts h rows.now lambda.old delta.now) table.old level }
{
    let sizes = Sizes {
        n: Dim(n),
        h: Level(h),
        darts,
    };
    height_as(
        Level(h),
        joining::join(sizes, rows, lambda, delta, table, Level(level)),
    )
}

// Starts again from a level of an accepted pyramid; the table is left as the check leaves it.
pub fn zg_rebase(
    n: u8,
    darts: u16,
    h: u8,
    rows: &mut [u16],
    lambda: &mut [u8],
    delta: &mut [u8],
    table: &mut [u16],
    level: u8,
    old: &mut [u16],
) -> ZgBase
    ensures answer { result ≡ base_for (rebasing (given n darts h rows.old lambda.old delta.old) table.old level old.old) }
    ensures rows_left { rows.new ≡ rebase_rows (given n darts h rows.old lambda.old delta.old) table.old level old.old }
    ensures lambda_left { lambda.new ≡ rebase_lambda (given n darts h rows.old lambda.old delta.old) table.old level old.old }
    ensures delta_left { delta.new ≡ rebase_delta (given n darts h rows.old lambda.old delta.old) table.old level old.old }
    ensures table_left { table.new ≡ rebase_table (given n darts h rows.old lambda.old delta.old) table.old level old.old }
    ensures old_left { old.new ≡ rebase_old (given n darts h rows.old lambda.old delta.old) table.old level old.old }
{
    let sizes = Sizes {
        n: Dim(n),
        h: Level(h),
        darts,
    };
    let at = AtLevel {
        sizes,
        level: Level(level),
    };
    base_as(
        sizes,
        starting_again::rebase(at, rows, lambda, delta, table, old),
    )
}
