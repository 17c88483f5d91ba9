// Number 11: whether a record and its areas are a full factor, for any record and any contents.
#![tactic(auto)]

ghost use Rattle.std.specs.Prelude.{◌≡◌, true, ◌&&◌, suc, ◌-◌, ◌≤◌, ◌<◌, length};
ghost use Rattle.statement.specs.Lists.{every};
ghost use Rattle.statement.specs.Shape.{offset};
ghost use Rattle.statement.specs.Solve.{shape_in, rising_columns, good_supernode, rising_rows, sized, viewable, solvable};
ghost use Rattle.laws.specs.Lent.{Fitted, Framed};
ghost use Rattle.views.specs.Shown.{shape_of, areas_of};
ghost use Rattle.checks.specs.Shown.{walk_of};

pub mod walked;

use factor_lists::{full_record, good_supernode, permutes, rising_columns};
use panel::column_start;
use statement::Record;
use views::{Factor, Structure};
pub use walked::Walked;

// (d): each supernode's rows.
fn good_supernodes(structure: &Structure<'_>) -> bool
    requires { Framed (shape_of structure.now) }
    ensures { result ≡ every (good_supernode (shape_of structure.now)) (length structure.now.firsts.now - 1) }
{
    for k in 0..structure.firsts.len() - 1 {
        let f = structure.firsts[k];
        let w = structure.firsts[k + 1] - f;
        let s = structure.starts[k];
        let e = structure.starts[k + 1];
        if !good_supernode(&structure.rows[s..e], f, w, structure.n) {
            return false;
        }
    }
    true
}

// (d): row starts rise from 0 to the row count, and each supernode's rows are as they should be.
pub fn rising_rows(record: Record, structure: &Structure<'_>) -> bool
    requires fitted { Fitted «record» (shape_of structure.now) }
    requires rows_value { rising_columns «record» (shape_of structure.now) ≡ true }
    ensures { result ≡ rising_rows «record» (shape_of structure.now) }
{
    if structure.starts[0] != 0 {
        return false;
    }
    let last = record.supernodes;
    if structure.starts[last] != record.rows {
        return false;
    }
    if !structure.starts.is_sorted() {
        return false;
    }
    good_supernodes(structure)
}

// Where supernode k's stretch starts in the values: the sum of the trapezoids before it.
pub fn offset(walked: &Walked<'_>, k: usize) -> usize
    requires { (walked.now.n ≤ 32768) × (k < length walked.now.firsts.now) }
    ensures { result ≡ offset (walk_of walked.now) k }
{
    let mut sum: usize = 0;
    for j in 0..k {
        let w = walked.firsts[j + 1] - walked.firsts[j];
        let m = walked.starts[j + 1] - walked.starts[j];
        sum += column_start(m, w);
    }
    sum
}

// (e): entries equal the trapezoids' sum.
pub fn sized(record: Record, walked: &Walked<'_>) -> bool
    requires { (walked.now.n ≤ 32768) × (length walked.now.firsts.now ≡ suc «record».supernodes) }
    ensures { result ≡ sized «record» (walk_of walked.now) }
{
    record.entries == offset(walked, record.supernodes)
}

// (c), (d) and (e).
fn shaped(record: Record, structure: &Structure<'_>) -> bool
    requires fitted { Fitted «record» (shape_of structure.now) }
    requires record_bound { «record».n ≤ 32768 }
    ensures { result ≡ rising_columns «record» (shape_of structure.now) && (rising_rows «record» (shape_of structure.now) && sized «record» (shape_of structure.now)) }
{
    if !rising_columns(record, structure.firsts) {
        return false;
    }
    if !rising_rows(record, structure) {
        return false;
    }
    let walked = Walked {
        n: structure.n,
        firsts: structure.firsts,
        starts: structure.starts,
        rows: structure.rows,
    };
    sized(record, &walked)
}

// The structure that the areas hold by the record's counts.
pub fn cut<'a>(record: Record, factor: &Factor<'a>) -> Structure<'a>
    requires columns { («record».supernodes < length factor.now.firsts.now) × («record».supernodes < length factor.now.starts.now) }
    requires rows { «record».rows ≤ length factor.now.rows.now }
    ensures n { result.n ≡ «record».n }
    ensures shape { shape_of result ≡ shape_in «record» (areas_of factor.now) }
{
    let many = record.supernodes + 1;
    Structure {
        n: record.n,
        firsts: &factor.firsts[..many],
        starts: &factor.starts[..many],
        rows: &factor.rows[..record.rows],
    }
}

// All but (b), which the view asks.
pub fn viewable(record: Record, factor: &Factor<'_>) -> bool
    ensures { result ≡ viewable «record» (areas_of factor.now) }
{
    if !full_record(record, factor) {
        return false;
    }
    if record.supernodes > record.n {
        return false;
    }
    shaped(record, &cut(record, factor))
}

// (a) to (e), which solve asks.
pub fn solvable(record: Record, factor: &Factor<'_>, words: &mut [usize]) -> bool
    ensures { result ≡ solvable «record» (areas_of factor.now) }
{
    if !viewable(record, factor) {
        return false;
    }
    permutes(record.n, factor.permutation, words)
}
