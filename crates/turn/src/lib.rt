// One turn of the run: the step of a supernode, or the word to its parent that it was skipped or has failed. And what the run reads and
// keeps among the words (crates/updates/specs/Layout.antt).
#![tactic(auto)]

ghost use Rattle.std.specs.Prelude.{◌≡◌, ℕ, suc, ◌+◌, ◌-◌, ◌≤◌, ◌<◌, length, get_or, set, take, drop, IfErr, IfSome};
ghost use Rattle.statement.specs.Run.{lesser};
ghost use Rattle.views.specs.Shown.{shape_of};
ghost use Rattle.answers.specs.Least.{least_of};
ghost use Rattle.laws.specs.Lower.{lower_value};
ghost use Rattle.updates.specs.Layout.{owners_at, parents_at, names_at, starts_at, rows_at};
ghost use Rattle.step.specs.Answer.{Stepped};
ghost use Rattle.turn.specs.Turn.{DueAt, Fetched, kept_at, under, Due, Turned};

use answers::lesser;
use statement::{Factored, Update};
use views::{Lower, Structure};

// The supernode at position p of the run.
pub fn name(n: usize, p: usize, words: &[usize]) -> usize
    requires { names_at n + p < length words.now }
    ensures { result ≡ get_or words.now (names_at n + p) 0 }
{
    words[8 * n + 1 + p]
}

// Where the updates of the supernode j begin.
pub fn group(j: usize, groups: &[usize]) -> usize
    requires { suc j < length groups.now }
    ensures { result ≡ get_or groups.now j 0 }
{
    groups[j]
}

// And where they end.
pub fn group_end(j: usize, groups: &[usize]) -> usize
    requires { suc j < length groups.now }
    ensures { result ≡ get_or groups.now (suc j) 0 }
{
    groups[j + 1]
}

// The update i, of those from lo on, is kept in its three words.
pub fn keep(u: Update, i: usize, lo: usize, n: usize, words: &mut [usize])
    requires { (lo ≤ i) × (i - lo < n) × (owners_at n ≤ length words.old) }
    ensures { words.new ≡ kept_at n (i - lo) u words.old }
{
    let p = 2 * n + 1 + 3 * (i - lo);
    words[p] = u.supernode;
    words[p + 1] = u.p1;
    words[p + 2] = u.p2;
}

// The step of the supernode j, whose updates are at hand.
fn one(
    j: usize,
    structure: &Structure<'_>,
    groups: &[usize],
    words: &mut [usize],
    matrix: &[f64],
    work: &mut [f64],
    values: &mut [f64],
) -> Result<(), Factored>
    requires due_at { DueAt (shape_of structure.now) j groups.now words.old matrix.now (length values.old) (length work.old) }
    requires fetched { Fetched (shape_of structure.now) j groups.now words.old }
    ensures stepped { Stepped (shape_of structure.now) (lower_value (drop (starts_at structure.now.n) words.old) (drop (rows_at structure.now.n) words.old) matrix.now) j values.old values.new result }
    ensures words_unchanged { (take (structure.now.n + 1) words.new ≡ take (structure.now.n + 1) words.old) × (drop (owners_at structure.now.n) words.new ≡ drop (owners_at structure.now.n) words.old) }
    ensures below { IfErr result (λ c. c.0 < structure.now.n) }
{
    let n = structure.n;
    let start = structure.starts[j];
    let m = structure.starts[j + 1] - start;
    let count = groups[j + 1] - groups[j];
    assembly::set_places(&mut words[n + 1..2 * n + 1], structure.rows, start, m);
    let lower = Lower {
        n,
        starts: &words[9 * n + 1..],
        rows: &words[10 * n + 2..],
        values: matrix,
    };
    step::step(
        j,
        structure,
        &words[6 * n + 1..],
        &words[2 * n + 1..],
        count,
        &lower,
        values,
        work,
        &words[n + 1..],
    )
}

// The supernode whose parent is p failed at the column c: its parent is flagged, and the least failing column kept.
fn failed(words: &mut [usize], p: usize, c: Factored, least: Option<Factored>) -> Factored
    requires { p < length words.old }
    ensures least { (n : ℕ) → c.0 < n → result ≡ lesser c (least_of n least) }
    ensures words { words.new ≡ set words.old p 1 }
{
    words[p] = 1;
    match least {
        Some(b) => lesser(c, b),
        None => c,
    }
}

// One turn: a supernode with a halted child is skipped, and it or a failing one flags its parent. A's values are those of the matrix, the
// stretches are the first entries of the values. The least failing column, if any.
pub fn turn(
    j: usize,
    least: Option<Factored>,
    ns: usize,
    entries: usize,
    structure: &Structure<'_>,
    groups: &[usize],
    words: &mut [usize],
    matrix: &[f64],
    work: &mut [f64],
    values: &mut [f64],
) -> Option<Factored>
    requires due { (Due structure.now.n structure.now.firsts.now structure.now.starts.now structure.now.rows.now ns groups.now words.old matrix.now entries (length work.old)) × (j < ns) × (Fetched (shape_of structure.now) j groups.now words.old) × (entries ≤ length values.old) }
    ensures turned { (Turned (under structure.now.n structure.now.firsts.now structure.now.starts.now structure.now.rows.now (drop (parents_at structure.now.n) words.old)) (lower_value (drop (starts_at structure.now.n) words.old) (drop (rows_at structure.now.n) words.old) matrix.now) ns j (least_of structure.now.n least) (least_of structure.now.n result) words.old words.new (take entries values.old) (take entries values.new)) × (drop entries values.new ≡ drop entries values.old) }
    ensures below { IfSome least (λ c. c.0 < structure.now.n) → IfSome result (λ c. c.0 < structure.now.n) }
{
    let p = words[7 * structure.n + 1 + j];
    if words[j] != 0 {
        words[p] = 1;
        return least;
    }
    match one(
        j,
        structure,
        groups,
        words,
        matrix,
        work,
        &mut values[..entries],
    ) {
        Ok(()) => least,
        Err(c) => Some(failed(words, p, c, least)),
    }
}
