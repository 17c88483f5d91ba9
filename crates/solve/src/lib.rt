// Solving with a full factor, and a view of one of its columns: for any record and any areas.
#![tactic(auto)]

ghost use Rattle.std.specs.Prelude.{◌≡◌, ℕ, suc, ◌-◌, ◌≤◌, ◌<◌, length, get_or};
ghost use Rattle.statement.specs.Shape.{offset};
ghost use Rattle.statement.specs.Solve.{values_in, solve_fault, solve, Solves, Views};
ghost use Rattle.laws.specs.Answered.{passed};
ghost use Rattle.views.specs.Shown.{areas_of};
ghost use Rattle.checks.specs.Shown.{walk_of};
ghost use Rattle.solve.specs.Found.{Owned};

use checks::{Walked, cut, offset, solvable, viewable};
use panel::Panel;
use sides::{sides_answer, solve_sides};
use statement::{Answer, Factored, Record};
use views::Factor;

// The first fault, or b solved. Words and floats are left as they fall.
fn attempt(
    record: Record,
    factor: &Factor<'_>,
    words: &mut [usize],
    floats: &mut [f64],
    sides: usize,
    b: &mut [f64],
) -> Result<(), Answer>
    ensures value { result ≡ passed (solve_fault «record» (areas_of factor.now) sides b.old (length words.old) (length floats.old)) }
    ensures b_after { b.new ≡ (solve «record» (areas_of factor.now) sides b.old (length words.old) (length floats.old)).b }
{
    if !solvable(record, factor, words) {
        return Err(Answer::NoFactor);
    }
    sides_answer(record.n, sides, b.len(), words.len(), floats.len())?;
    solve_sides(record, factor, floats, sides, b);
    Ok(())
}

// Solve for so many right sides, one after another in b, in place.
pub fn solve(
    record: Record,
    permutation: &[usize],
    firsts: &[usize],
    starts: &[usize],
    rows: &[usize],
    values: &[f64],
    words: &mut [usize],
    floats: &mut [f64],
    sides: usize,
    b: &mut [f64],
) -> Answer
    ensures { Solves «record» (record { permutation = permutation.entry.now; firsts = firsts.now; starts = starts.now; rows = rows.now; values = values.now }) sides b.old (length words.old) (length floats.old) (record { answer = result; b = b.new; words = words.new; floats = floats.new }) }
{
    let factor = Factor {
        permutation,
        firsts,
        starts,
        rows,
        values,
    };
    let done = attempt(record, &factor, words, floats, sides, b);
    words.fill(0);
    floats.fill(0.0);
    match done {
        Ok(()) => Answer::Accepted,
        Err(a) => a,
    }
}

// The supernode that owns column q.
fn owner(firsts: &[usize], q: usize) -> usize
    requires by_index { (K : ℕ) → K < length firsts.now - 1 → get_or firsts.now K 0 < get_or firsts.now (suc K) 0 }
    requires firsts_bound { (get_or firsts.now 0 0 ≤ q) × (q < get_or firsts.now (length firsts.now - 1) 0) }
    ensures { Owned firsts.now q result }
{
    firsts.partition_point(|f| *f <= q) - 1
}

// Column q of the structure, diagonal first.
fn column_part<'a>(walked: &Walked<'_>, values: &'a [f64], q: usize) -> &'a [f64]
    requires firsts_in_bounds { offset (walk_of walked.now) (length walked.now.firsts.now - 1) ≤ length values.now }
    requires n_bound { (walked.now.n ≤ 32768) × (q < walked.now.n) }
    ensures { result.now ≡ values_in (walk_of walked.now) values.now q }
{
    let k = owner(walked.firsts, q);
    let c = q - walked.firsts[k];
    let m = walked.starts[k + 1] - walked.starts[k];
    let off = offset(walked, k);
    Panel {
        m,
        values: &values[off..],
    }
    .column(c)
}

// The part of the values that is one column, diagonal first; empty on failure or for a column not below n.
pub fn column<'a>(
    record: Record,
    permutation: &[usize],
    firsts: &[usize],
    starts: &[usize],
    rows: &[usize],
    values: &'a [f64],
    q: Factored,
) -> &'a [f64]
    ensures { Views «record» (record { permutation = permutation.entry.now; firsts = firsts.now; starts = starts.now; rows = rows.now; values = values.now }) q result.now }
{
    let factor = Factor {
        permutation,
        firsts,
        starts,
        rows,
        values,
    };
    if !viewable(record, &factor) {
        return &values[0..0];
    }
    let at = q.0;
    if at >= record.n {
        return &values[0..0];
    }
    let own = cut(record, &factor);
    let walked = Walked {
        n: own.n,
        firsts: own.firsts,
        starts: own.starts,
        rows: own.rows,
    };
    column_part(&walked, values, at)
}
