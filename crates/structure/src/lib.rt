// Where the rows of each supernode start, its parent, and its rows, all in factor numbering.
#![tactic(auto)]

ghost use Rattle.std.specs.Prelude.{◌≡◌, false, cond, not, ◌++◌, ℕ, suc, ◌+◌, ◌≤◌, ◌<◌, T, eqb, ltb, length, get_or, set, take, drop};
ghost use Rattle.statement.specs.Lists.{least};
ghost use Rattle.statement.specs.Fill.{parent, count};
ghost use Rattle.areas.specs.Buckets.{Holds, Beyond};
ghost use Rattle.structure.specs.Node.{nodes, owner_of, above, in_row, row_start};
ghost use Rattle.structure.specs.Line.{pattern, shape_of, Known, Given, Marked, Kept, Lines, Line};

use parts::copy;
use views::Columns;

// The supernodes of a matrix in factor numbering: how many, and their first columns.
#[derive(Clone, Copy)]
pub struct Supernodes<'a> {
    pub matrix: Columns<'a>,
    pub number: usize,
    pub firsts: &'a [usize],
    ghost known: { Known matrix.n number matrix.starts.now matrix.rows.now firsts.now },
}

// How a matrix is numbered for its factor: the column at each place, the place of each column, the supernode of each
// factor column, the parent of each supernode.
#[derive(Clone, Copy)]
pub struct Numbering<'a> {
    pub matrix: Columns<'a>,
    pub permutation: &'a [usize],
    pub places: &'a [usize],
    pub owners: &'a [usize],
    pub parents: &'a [usize],
    ghost given: { Given matrix.n matrix.starts.now matrix.rows.now permutation.now places.now owners.now parents.now },
}

// The row starts: a supernode has as many rows as its first column has entries. The input names the pattern only.
pub fn row_starts(supernodes: &Supernodes<'_>, counts: &[usize], to: &mut [usize])
    requires counted { Holds (count (pattern supernodes.now.matrix) supernodes.now.matrix.n) supernodes.now.matrix.n counts.now }
    requires room { supernodes.now.number < length to.old }
    ensures { to.new ≡ (shape_of supernodes.now.matrix).starts ++ drop (suc supernodes.now.number) to.old }
{
    to[0] = 0;
    for k in 0..supernodes.number {
        to[k + 1] = to[k] + counts[supernodes.firsts[k]];
    }
}

// The supernode of column p; past the columns, the number of supernodes.
// postorder's `moved` is this with n for ns; neither crate stands on the other, and a shared one would be no shorter
fn owner_or(n: usize, ns: usize, owners: &[usize], p: usize) -> usize
    requires { (p ≤ n) × (n ≤ length owners.now) }
    ensures { result ≡ cond (eqb p n) ns (get_or owners.now p 0) }
{
    if p == n { ns } else { owners[p] }
}

// The parent of each supernode: the owner of its last column's parent.
pub fn supernode_parents(
    supernodes: &Supernodes<'_>,
    parents: &[usize],
    owners: &[usize],
    to: &mut [usize],
)
    requires parented { Holds (parent (pattern supernodes.now.matrix) supernodes.now.matrix.n) supernodes.now.matrix.n parents.now }
    requires owned { Holds (owner_of (pattern supernodes.now.matrix) supernodes.now.matrix.n) supernodes.now.matrix.n owners.now }
    requires room { supernodes.now.number ≤ length to.old }
    ensures { to.new ≡ (shape_of supernodes.now.matrix).parents ++ drop supernodes.now.number to.old }
{
    for k in 0..supernodes.number {
        let last = supernodes.firsts[k + 1] - 1;
        to[k] = owner_or(
            supernodes.matrix.n,
            supernodes.number,
            owners,
            parents[last],
        );
    }
}

// Supernode k gains row r.
fn append(r: usize, k: usize, marks: &mut [usize], next: &mut [usize], to: &mut [usize])
    requires k_in_bounds { (k < length marks.old) × (k < length next.old) }
    requires k_in_bounds_2 { get_or next.old k 0 < length to.old }
    ensures marks_after { marks.new ≡ set marks.old k r }
    ensures next_after { next.new ≡ set next.old k (get_or next.old k 0 + 1) }
    ensures to_after { to.new ≡ set to.old (get_or next.old k 0) r }
{
    let at = next[k];
    marks[k] = r;
    next[k] = at + 1;
    to[at] = r;
}

// From supernode k up the parents, to one that has row r already.
fn climb(
    numbering: &Numbering<'_>,
    r: usize,
    k: usize,
    marks: &mut [usize],
    next: &mut [usize],
    to: &mut [usize],
)
    requires in_row { (r < numbering.now.matrix.n) × (k < nodes (pattern numbering.now.matrix) numbering.now.matrix.n) × T (in_row (pattern numbering.now.matrix) numbering.now.matrix.n k r) }
    requires line { Line (pattern numbering.now.matrix) numbering.now.matrix.n r 0 marks.old next.old to.old }
    ensures line_after { Line (pattern numbering.now.matrix) numbering.now.matrix.n r 0 marks.new next.new to.new }
    ensures kept { Kept r marks.old marks.new }
    ensures marked { Marked r marks.new k }
    ensures beyond { Beyond (row_start (pattern numbering.now.matrix) numbering.now.matrix.n (nodes (pattern numbering.now.matrix) numbering.now.matrix.n)) to.old to.new }
{
    let mut at = k;
    // a climb, and no count: each step goes to the parent
    while marks[at] != r {
        append(r, at, marks, next, to);
        at = numbering.parents[at];
    }
}

// Row r: its own supernode, and a walk from each entry stored in it.
fn line(
    numbering: &Numbering<'_>,
    r: usize,
    marks: &mut [usize],
    next: &mut [usize],
    to: &mut [usize],
)
    requires r_lt_n { r < numbering.now.matrix.n }
    requires lines { Lines (pattern numbering.now.matrix) numbering.now.matrix.n r marks.old next.old to.old }
    ensures lines_after { Lines (pattern numbering.now.matrix) numbering.now.matrix.n (suc r) marks.new next.new to.new }
    ensures beyond { Beyond (row_start (pattern numbering.now.matrix) numbering.now.matrix.n (nodes (pattern numbering.now.matrix) numbering.now.matrix.n)) to.old to.new }
{
    append(r, numbering.owners[r], marks, next, to);
    let k = numbering.permutation[r];
    for p in numbering.matrix.starts[k]..numbering.matrix.starts[k + 1] {
        let i = numbering.matrix.rows[p];
        let c = numbering.places[i];
        climb(numbering, r, numbering.owners[c], marks, next, to);
    }
}

// The rows of all ns supernodes, row by row, so that each one's come out sorted; next ends where the next one's start.
pub fn rows(
    numbering: &Numbering<'_>,
    ns: usize,
    starts: &[usize],
    marks: &mut [usize],
    next: &mut [usize],
    to: &mut [usize],
)
    requires started { (ns ≡ nodes (pattern numbering.now.matrix) numbering.now.matrix.n) × Holds (row_start (pattern numbering.now.matrix) numbering.now.matrix.n) (suc ns) starts.now }
    requires room { (ns ≤ length marks.old) × (ns ≤ length next.old) × (length (shape_of numbering.now.matrix).rows ≤ length to.old) }
    ensures to_after { to.new ≡ (shape_of numbering.now.matrix).rows ++ drop (length (shape_of numbering.now.matrix).rows) to.old }
    ensures ended { Holds (λ k. row_start (pattern numbering.now.matrix) numbering.now.matrix.n (suc k)) ns next.new }
{
    marks[..ns].fill(numbering.matrix.n);
    copy(&mut next[..ns], &starts[..ns]);
    for r in 0..numbering.matrix.n {
        line(numbering, r, marks, next, to);
    }
}

// Some supernode's rows do not end where the next one's start: number 12.
pub fn differs(ns: usize, starts: &[usize], next: &[usize]) -> bool
    requires { (ns < length starts.now) × (ns ≤ length next.now) }
    ensures { result ≡ ltb (least (λ K. not (eqb (get_or next.now K 0) (get_or starts.now (suc K) 0))) 0 ns) ns }
{
    next[..ns] != starts[1..=ns]
}

// The row starts and, past the n places in tasks, the supernodal parents; the number of structure rows.
pub fn node_starts(
    supernodes: &Supernodes<'_>,
    counts: &[usize],
    parents: &[usize],
    owners: &[usize],
    starts: &mut [usize],
    tasks: &mut [usize],
) -> usize
    requires counted { Holds (count (pattern supernodes.now.matrix) supernodes.now.matrix.n) supernodes.now.matrix.n counts.now }
    requires parented { Holds (parent (pattern supernodes.now.matrix) supernodes.now.matrix.n) supernodes.now.matrix.n parents.now }
    requires owned { Holds (owner_of (pattern supernodes.now.matrix) supernodes.now.matrix.n) supernodes.now.matrix.n owners.now }
    requires room { (supernodes.now.number < length starts.old) × (supernodes.now.matrix.n + supernodes.now.number ≤ length tasks.old) }
    ensures value { result ≡ length (shape_of supernodes.now.matrix).rows }
    ensures starts_after { starts.new ≡ (shape_of supernodes.now.matrix).starts ++ drop (suc supernodes.now.number) starts.old }
    ensures tasks_after { tasks.new ≡ take supernodes.now.matrix.n tasks.old ++ ((shape_of supernodes.now.matrix).parents ++ drop supernodes.now.number (drop supernodes.now.matrix.n tasks.old)) }
{
    row_starts(supernodes, counts, starts);
    supernode_parents(
        supernodes,
        parents,
        owners,
        &mut tasks[supernodes.matrix.n..],
    );
    starts[supernodes.number]
}

// The rows of the supernodes, where starts has the row starts. Whether a row structure differs from the counts, which it never does.
pub fn structure(
    numbering: &Numbering<'_>,
    ns: usize,
    starts: &[usize],
    marks: &mut [usize],
    next: &mut [usize],
    to: &mut [usize],
) -> bool
    requires started { (ns ≡ nodes (pattern numbering.now.matrix) numbering.now.matrix.n) × Holds (row_start (pattern numbering.now.matrix) numbering.now.matrix.n) (suc ns) starts.now }
    requires room { (ns ≤ length marks.old) × (ns ≤ length next.old) × (length (shape_of numbering.now.matrix).rows ≤ length to.old) }
    ensures value { result ≡ false }
    ensures to_after { to.new ≡ (shape_of numbering.now.matrix).rows ++ drop (length (shape_of numbering.now.matrix).rows) to.old }
{
    rows(numbering, ns, starts, marks, next, to);
    differs(ns, starts, next)
}
