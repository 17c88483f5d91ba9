// The updates: for each supernode, the lower ones that have rows among its columns. The matrix names the structure only.
#![tactic(auto)]

ghost use Rattle.std.specs.Prelude.{◌≡◌, ◌++◌, suc, ◌+◌, ◌-◌, ◌^◌, ◌≤◌, ◌<◌, length, get_or, drop};
ghost use Rattle.statement.specs.Supernodes.{updates_of, updates, update_starts};
ghost use Rattle.areas.specs.Buckets.{Holds};
ghost use Rattle.updates.specs.Scan.{shaped, shape_in, Laid, Past, RunEnd, Counted};
ghost use Rattle.updates.specs.Layout.{places_at, offsets_at};
ghost use Rattle.updates.specs.Laying.{spotted, ToScan, Scanned};

use areas::sums::sums;
use views::{Columns, Matrix, Structure};

// The first position from p, below e, whose row is not below bound; or e.
fn run_end(list: &[usize], p: usize, e: usize, bound: usize) -> usize
    requires { (p ≤ e) × (e ≤ length list.now) }
    ensures { RunEnd list.now p e bound result }
{
    // With `position` it stays open that the rows before the answer are below bound.
    for q in p..e {
        if list[q] >= bound {
            return q;
        }
    }
    e
}

// Where supernode k's rows past its own columns begin.
fn past(structure: &Structure<'_>, k: usize) -> usize
    requires { Past structure.now.firsts.now structure.now.starts.now structure.now.rows.now k }
    ensures { result ≡ get_or structure.now.starts.now k 0 + (get_or structure.now.firsts.now (k + 1) 0 - get_or structure.now.firsts.now k 0) }
{
    structure.starts[k] + (structure.firsts[k + 1] - structure.firsts[k])
}

// The supernodes of a matrix: how many, their first columns and rows, and the supernode that owns each column.
#[derive(Clone, Copy)]
pub struct Supernodes<'a> {
    pub matrix: Columns<'a>,
    pub ns: usize,
    pub structure: Structure<'a>,
    pub owners: &'a [usize],
    ghost laid: { Laid matrix.n ns matrix.starts.now matrix.rows.now structure.firsts.now owners.now structure.starts.now structure.rows.now },
}

impl Supernodes<'_> {
    // Supernode k's updates, counted.
    fn count_one(&self, k: usize, counts: &mut [usize])
        requires k_lt_ns { k < self.now.ns }
        requires counted { Counted (shape_in self.now.matrix) k counts.old }
        ensures { Counted (shape_in self.now.matrix) (suc k) counts.new }
    {
        let s = &self.structure;
        let mut p = past(s, k);
        let e = s.starts[k + 1];
        while p < e {
            let j = self.owners[s.rows[p]];
            counts[j] += 1;
            p = run_end(s.rows, p, e, s.firsts[j + 1]);
        }
    }

    // How many updates each has.
    fn count_all(&self, counts: &mut [usize])
        requires { self.now.ns ≤ length counts.old }
        ensures { Holds (λ J. length (updates_of (shape_in self.now.matrix) J)) self.now.ns counts.new }
    {
        counts[..self.ns].fill(0);
        for k in 0..self.ns {
            self.count_one(k, counts);
        }
    }

    // Where the updates of each target start; how many there are.
    pub fn update_starts(&self, counts: &mut [usize], to: &mut [usize]) -> usize
        requires { (self.now.ns ≤ length counts.old) × (self.now.ns < length to.old) }
        ensures value { result ≡ length (updates (shape_in self.now.matrix)) }
        ensures to_after { to.new ≡ update_starts (shape_in self.now.matrix) ++ drop (suc self.now.ns) to.old }
    {
        self.count_all(counts);
        sums(self.ns, counts, to);
        to[self.ns]
    }
}

// Run i of a source, of target j: its place in area 10, which is j's next, and its positions.
fn spot(j: usize, i: usize, a: usize, b: usize, n: usize, words: &mut [usize])
    requires { (j < n) × (i < n) × (offsets_at n ≤ length words.old) × (get_or words.old (places_at n + j) 0 + 1 < 2 ^ 64) }
    ensures { words.new ≡ spotted n j i a b words.old }
{
    let place = words[n + 1 + j];
    let at = 2 * n + 1 + 3 * i;
    words[n + 1 + j] = place + 1;
    words[at] = place;
    words[at + 1] = a;
    words[at + 2] = b;
}

// Supernode k's updates, each spotted: how many there are.
pub fn scan_one(
    matrix: &Matrix<'_>,
    ns: usize,
    structure: &Structure<'_>,
    k: usize,
    words: &mut [usize],
) -> usize
    requires { ToScan matrix.now.n ns matrix.now.starts.now matrix.now.rows.now structure.now.firsts.now structure.now.starts.now structure.now.rows.now k words.old }
    ensures { Scanned (shaped matrix.now.n matrix.now.starts.now matrix.now.rows.now) matrix.now.n k words.old words.new result }
{
    let n = matrix.n;
    let owners = 5 * n + 1;
    let base = structure.starts[k];
    let mut p = past(structure, k);
    let e = structure.starts[k + 1];
    let mut i = 0;
    while p < e {
        let j = words[owners + structure.rows[p]];
        let q = run_end(structure.rows, p, e, structure.firsts[j + 1]);
        spot(j, i, p - base, q - base, n, words);
        i += 1;
        p = q;
    }
    i
}
