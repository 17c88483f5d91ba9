// Tasks and top: subtrees of at most a share of the work, and the supernodes above them.
#![tactic(auto)]

ghost use Rattle.std.specs.Prelude.{◌≡◌, ◌++◌, ◌∷◌, ℕ, suc, ◌+◌, ◌-◌, ◌*◌, ◌≤◌, ◌<◌, ◌/◌, ◌^◌, max, length, get_or, drop, IfSome};
ghost use Rattle.statement.specs.Lists.{sum, list};
ghost use Rattle.statement.specs.Shape.{Shape, supernodes};
ghost use Rattle.statement.specs.Tasks.{subtree_start, climbed, split, split_of};
ghost use Rattle.areas.specs.Buckets.{Holds};
ghost use Rattle.tasks.specs.Given.{Above, Sized, Parented, Given, Tabled, Loaded, Weighed, Spread, Cut, Parts, weight_in, fits_in, ended};

use parts::copy;

// The supernodes whose work is split: their first columns, where their rows start, and their parents.
#[derive(Clone, Copy)]
struct Supernodes<'a> {
    number: usize,
    firsts: &'a [usize],
    starts: &'a [usize],
    parents: &'a [usize],
    ghost sized: { Sized number firsts.now starts.now },
    ghost above: { Above number parents.now },
}

// What the cut reads: the parents, the first supernode of each subtree, the load of each, and the most that a task may have.
#[derive(Clone, Copy)]
struct Tables<'a> {
    number: usize,
    parents: &'a [usize],
    begins: &'a [usize],
    loads: &'a [usize],
    most: usize,
    ghost above: { Above number parents.now },
    ghost long: { (number ≤ length begins.now) × (number ≤ length loads.now) },
}

// The sum of the squares of m - c over w columns.
fn weight(m: usize, w: usize) -> usize
    requires { (w ≤ m) × (m ≤ 32768) }
    ensures { result ≡ sum (λ c. (m - c) * (m - c)) w }
{
    let mut total = 0;
    for c in 0..w {
        let d = m - c;
        total += d * d;
    }
    total
}

// The weight of each supernode, and 0 for what is above the roots.
fn weights(supernodes: &Supernodes<'_>, to: &mut [usize])
    requires room { supernodes.now.number < length to.old }
    ensures { to.new ≡ list (weight_in supernodes.now.firsts.now supernodes.now.starts.now) supernodes.now.number ++ 0 ∷ drop (suc supernodes.now.number) to.old }
{
    for k in 0..supernodes.number {
        let m = supernodes.starts[k + 1] - supernodes.starts[k];
        let w = supernodes.firsts[k + 1] - supernodes.firsts[k];
        to[k] = weight(m, w);
    }
    to[supernodes.number] = 0;
}

// Each weight is added up the tree; slot ns, the parent of the roots, gets the total.
fn raise_loads(supernodes: &Supernodes<'_>, to: &mut [usize])
    requires room { supernodes.now.number < length to.old }
    requires fits { sum (λ j. get_or to.old j 0) (suc supernodes.now.number) < 2 ^ 64 }
    ensures { Loaded supernodes.now.number supernodes.now.parents.now to.old to.new }
{
    for k in 0..supernodes.number {
        let p = supernodes.parents[k];
        to[p] += to[k];
    }
}

// Each supernode by itself.
fn own_begins(ns: usize, to: &mut [usize])
    requires { ns < length to.old }
    ensures { to.new ≡ list (λ k. k) (suc ns) ++ drop (suc ns) to.old }
{
    for k in 0..ns + 1 {
        to[k] = k;
    }
}

// The first supernode of each subtree, from each by itself.
fn raise_begins(supernodes: &Supernodes<'_>, to: &mut [usize])
    requires room { supernodes.now.number < length to.old }
    requires own { Holds (λ k. k) supernodes.now.number to.old }
    ensures { (S : Shape) → Parented S supernodes.now.number supernodes.now.parents.now → Holds (subtree_start S) supernodes.now.number to.new }
{
    for k in 0..supernodes.number {
        let p = supernodes.parents[k];
        to[p] = to[p].min(to[k]);
    }
}

// The larger of total / 256 and 2^21.
fn share(total: usize) -> usize
    ensures { result ≡ max (total / 256) (2 ^ 21) }
{
    (total / 256).max(1 << 21)
}

// The subtree of r starts at s and fits.
fn fits(tables: &Tables<'_>, s: usize, r: usize) -> bool
    ensures { result ≡ fits_in tables.now.number tables.now.begins.now tables.now.loads.now tables.now.most s r }
{
    r < tables.number && tables.begins[r] == s && tables.loads[r] <= tables.most
}

// One past the highest root from s up whose subtree starts at s and fits, if there is one.
fn climb(tables: &Tables<'_>, s: usize) -> Option<usize>
    requires s_lt_ns { s < tables.now.number }
    ensures range { IfSome result (λ e. (s < e) × (e ≤ tables.now.number)) }
    ensures value { (S : Shape) → Tabled S tables.now.number tables.now.parents.now tables.now.begins.now tables.now.loads.now → ended s result ≡ climbed S tables.now.most s tables.now.number s s }
{
    let mut end = None;
    let mut r = s;
    // a climb, and no count: each step goes to the parent
    while fits(tables, s, r) {
        end = Some(r + 1);
        r = tables.parents[r];
    }
    end
}

// How many tasks and how many top entries there are.
#[derive(Clone, Copy)]
pub struct Cuts {
    pub tasks: usize,
    pub top: usize,
}

// The tasks and the top by the loads and the first supernodes of the subtrees.
fn cut(tables: &Tables<'_>, tasks: &mut [usize], top: &mut [usize]) -> Cuts
    requires room { (2 * tables.now.number ≤ length tasks.old) × (tables.now.number ≤ length top.old) }
    ensures { (S : Shape) → Tabled S tables.now.number tables.now.parents.now tables.now.begins.now tables.now.loads.now → Cut (split S tables.now.most tables.now.number 0) tasks.old top.old tasks.new top.new result.tasks result.top }
{
    let mut t = 0;
    let mut o = 0;
    let mut s = 0;
    // no count: a step takes a whole subtree
    while s < tables.number {
        match climb(tables, s) {
            Some(end) => {
                tasks[2 * t] = s;
                tasks[2 * t + 1] = end;
                t += 1;
                s = end;
            }
            None => {
                top[o] = s;
                o += 1;
                s += 1;
            }
        }
    }
    Cuts { tasks: t, top: o }
}

// The loads, by first columns, row starts and parents; slot ns has the total.
fn loads(supernodes: &Supernodes<'_>, to: &mut [usize])
    requires room { supernodes.now.number < length to.old }
    ensures { (S : Shape) → Given S supernodes.now.number supernodes.now.firsts.now supernodes.now.starts.now supernodes.now.parents.now → Weighed S supernodes.now.number to.new }
{
    weights(supernodes, to);
    raise_loads(supernodes, to);
}

// The first supernodes of the subtrees.
fn begins(supernodes: &Supernodes<'_>, to: &mut [usize])
    requires room { supernodes.now.number < length to.old }
    ensures { (S : Shape) → Parented S supernodes.now.number supernodes.now.parents.now → Holds (subtree_start S) supernodes.now.number to.new }
{
    own_begins(supernodes.number, to);
    raise_begins(supernodes, to);
}

// What the split reads, in the words: the loads, from ns + 1 the first supernodes of the subtrees, from 2 ns + 2 the parents.
fn table(supernodes: &Supernodes<'_>, words: &mut [usize])
    requires room { (supernodes.now.number ≤ 32768) × (3 * supernodes.now.number + 3 ≤ length words.old) }
    ensures spread { (S : Shape) → Given S supernodes.now.number supernodes.now.firsts.now supernodes.now.starts.now supernodes.now.parents.now → Spread S supernodes.now.number words.new }
    ensures above { Above supernodes.now.number (drop (2 * supernodes.now.number + 2) words.new) }
{
    let ns = supernodes.number;
    loads(supernodes, words);
    begins(supernodes, &mut words[ns + 1..]);
    copy(
        &mut words[2 * ns + 2..3 * ns + 2],
        &supernodes.parents[..ns],
    );
}

// The tasks and the top by those tables.
fn cut_by(ns: usize, words: &[usize], tasks: &mut [usize], top: &mut [usize]) -> Cuts
    requires ns_bound { (ns ≤ 32768) × (3 * ns + 3 ≤ length words.now) × Above ns (drop (2 * ns + 2) words.now) }
    requires ns_in_bounds { (2 * ns ≤ length tasks.old) × (ns ≤ length top.old) }
    ensures { (S : Shape) → supernodes S ≡ ns → Spread S ns words.now → Cut (split_of S) tasks.old top.old tasks.new top.new result.tasks result.top }
{
    let tables = Tables {
        number: ns,
        parents: &words[2 * ns + 2..],
        begins: &words[ns + 1..],
        loads: &words[..ns + 1],
        most: share(words[ns]),
    };
    cut(&tables, tasks, top)
}

// The tasks and the top of ns supernodes, whose parents stand in tasks from n on; the words are scratch.
pub fn split(
    n: usize,
    ns: usize,
    firsts: &[usize],
    starts: &[usize],
    tasks: &mut [usize],
    top: &mut [usize],
    words: &mut [usize],
) -> Cuts
    requires n_in_bounds { (n ≤ length tasks.old) × Sized ns firsts.now starts.now × Above ns (drop n tasks.old) }
    requires ns_bound { (ns ≤ 32768) × (3 * ns + 3 ≤ length words.old) }
    requires ns_in_bounds { (2 * ns ≤ length tasks.old) × (ns ≤ length top.old) }
    ensures { (S : Shape) → Given S ns firsts.now starts.now (drop n tasks.old) → Parts (split_of S) tasks.old top.old tasks.new top.new result.tasks result.top }
{
    let supernodes = Supernodes {
        number: ns,
        firsts,
        starts,
        parents: &tasks[n..],
    };
    table(&supernodes, words);
    tasks.fill(0);
    top.fill(0);
    cut_by(ns, words, tasks, top)
}
