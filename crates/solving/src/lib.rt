// One right side solved with a full factor: gather, forward, backward, scatter. Values may be any bits.
#![tactic(auto)]

ghost use Rattle.std.specs.Prelude.{◌≡◌, true, List, ℕ, suc, ◌+◌, ◌-◌, ◌≤◌, ◌<◌, length, get_or, drop, Float};
ghost use Rattle.statement.specs.Lists.{place, list, rising};
ghost use Rattle.statement.specs.Input.{+0};
ghost use Rattle.statement.specs.Shape.{Shape, offset};
ghost use Rattle.statement.specs.Solve.{permutes, rows_in, values_in, less_below, less_above, forward_at, forward, backward_at, backward, solution};
ghost use Rattle.solving.specs.Walk.{Rising, is_run, Column, Block, Supernode};
ghost use Rattle.solving.specs.Shown.{shape_of};

pub mod full;

use forward_four::forward4;
pub use full::Full;
use panel::{Panel, column_start};

// x, less the value times y at each row.
fn subtract(rows: &[usize], values: &[f64], y: f64, x: &mut [f64])
    requires rows_len { length rows.now ≡ length values.now }
    requires by_index { (i : ℕ) → i < length rows.now → get_or rows.now i 0 < length x.old }
    ensures { x.new ≡ less_below x.old y rows.now values.now }
{
    for i in 0..rows.len() {
        let r = rows[i];
        x[r] = x[r] - values[i] * y;
    }
}

// z, less the value times x at each row, rows rising.
fn reduce(rows: &[usize], values: &[f64], z: f64, x: &[f64]) -> f64
    requires rows_len { length rows.now ≡ length values.now }
    requires by_index { (i : ℕ) → i < length rows.now → get_or rows.now i 0 < length x.now }
    ensures { result ≡ less_above z x.now rows.now values.now }
{
    let mut t = z;
    for i in 0..rows.len() {
        let row = rows[i];
        t = t - values[i] * x[row];
    }
    t
}

// Not one function with `subtract` (nor `reduce_run` with `reduce`) over a closure for the row: a run reads no rows, and the closure with its clauses is longer than this loop.
// x, less the value times y at each of the places from `at`.
fn subtract_run(at: usize, values: &[f64], y: f64, x: &mut [f64])
    requires { at + length values.now ≤ length x.old }
    ensures { x.new ≡ less_below x.old y (rising at (length values.now)) values.now }
{
    for i in 0..values.len() {
        x[at + i] = x[at + i] - values[i] * y;
    }
}

// z, less the value times x at each of the places from `at`.
fn reduce_run(at: usize, values: &[f64], z: f64, x: &[f64]) -> f64
    requires { at + length values.now ≤ length x.now }
    ensures { result ≡ less_above z x.now (rising at (length values.now)) values.now }
{
    let mut t = z;
    for i in 0..values.len() {
        t = t - values[i] * x[at + i];
    }
    t
}

// Whether the rows follow each other from q: since they rise, the last of them tells.
fn is_run(rows: &[usize], q: usize) -> bool
    requires { Rising rows.now q }
    ensures { result ≡ is_run rows.now q }
{
    let last = rows.len() - 1;
    rows[last] - q == last
}

// Column q, rising: divide, then subtract from each row below.
fn forward_column(rows: &[usize], values: &[f64], q: usize, x: &mut [f64])
    requires { Column rows.now values.now q (length x.old) }
    ensures { (S : Shape) (v : List Float) → rows.now ≡ rows_in S q → values.now ≡ values_in S v q → x.new ≡ forward_at S v x.old q }
{
    let y = x[q] / values[0];
    x[q] = y;
    if is_run(rows, q) {
        subtract_run(q + 1, &values[1..], y, x);
    } else {
        subtract(&rows[1..], &values[1..], y, x);
    }
}

// t, less the value times x at each row of column q below the first.
fn reduce_column(rows: &[usize], values: &[f64], q: usize, t: f64, x: &[f64]) -> f64
    requires { Column rows.now values.now q (length x.now) }
    ensures { result ≡ less_above t x.now (drop 1 rows.now) (drop 1 values.now) }
{
    if is_run(rows, q) {
        reduce_run(q + 1, &values[1..], t, x)
    } else {
        reduce(&rows[1..], &values[1..], t, x)
    }
}

// Column q, falling: subtract for each row below, then divide. Beside forward_column: what that writes this reads, so that one function of both would
// be two behind a flag.
fn backward_column(rows: &[usize], values: &[f64], q: usize, x: &mut [f64])
    requires { Column rows.now values.now q (length x.old) }
    ensures { (S : Shape) (v : List Float) → rows.now ≡ rows_in S q → values.now ≡ values_in S v q → x.new ≡ backward_at S v x.old q }
{
    let d = values[0];
    let t = x[q];
    let z = reduce_column(rows, values, q, t, &x[..]);
    x[q] = z / d;
}

// The parameters of a block stay single: Block speaks of the length of x too, so a struct of them would carry n beside them, and each call would say that x is n long.
// A supernode's first columns from f, by fours, where all its rows follow each other. How many they are.
fn forward_fours(rows: &[usize], values: &[f64], f: usize, w: usize, x: &mut [f64]) -> usize
    requires { Block rows.now values.now f w (length x.old) }
    ensures upper_bound { result ≤ w }
    ensures x_after { (S : Shape) (K : ℕ) (v x₀ : List Float) → Supernode S K v rows.now values.now f w → x.old ≡ forward S v x₀ f → x.new ≡ forward S v x₀ (f + result) }
{
    if !is_run(rows, f) {
        return 0;
    }
    let m = rows.len();
    // c counts by four and is what is returned: a range of the fours would have to be taken times four at each use
    let mut c: usize = 0;
    while c + 4 <= w {
        forward4(
            Panel { m, values }.column(c),
            Panel { m, values }.column(c + 1),
            Panel { m, values }.column(c + 2),
            Panel { m, values }.column(c + 3),
            f + c,
            x,
        );
        c += 4;
    }
    c
}

// A supernode's w columns from f, rising: each is a column of the panel of its rows.
fn forward_columns(rows: &[usize], values: &[f64], f: usize, w: usize, x: &mut [f64])
    requires { Block rows.now values.now f w (length x.old) }
    ensures { (S : Shape) (K : ℕ) (v x₀ : List Float) → Supernode S K v rows.now values.now f w → x.old ≡ forward S v x₀ f → x.new ≡ forward S v x₀ (f + w) }
{
    let m = rows.len();
    let done = forward_fours(rows, values, f, w, x);
    for c in done..w {
        forward_column(&rows[c..], Panel { m, values }.column(c), f + c, x);
    }
}

// The same columns, falling.
fn backward_columns(rows: &[usize], values: &[f64], f: usize, w: usize, x: &mut [f64])
    requires { Block rows.now values.now f w (length x.old) }
    ensures { (S : Shape) (K : ℕ) (v : List Float) → Supernode S K v rows.now values.now f w → backward S v x.old (f + w) ≡ backward S v x.new f }
{
    let m = rows.len();
    for c in (0..w).rev() {
        backward_column(&rows[c..], Panel { m, values }.column(c), f + c, x);
    }
}

// Supernode k, rising. Returns where the next one's values start.
fn forward_supernode(factor: &Full<'_>, k: usize, off: usize, x: &mut [f64]) -> usize
    requires k_in_bounds { k < length factor.now.firsts.now - 1 }
    requires off_value { off ≡ offset (shape_of factor.now) k }
    requires x_len { length x.old ≡ factor.now.n }
    ensures value { result ≡ offset (shape_of factor.now) (suc k) }
    ensures x_after { (x₀ : List Float) → x.old ≡ forward (shape_of factor.now) factor.now.values.now x₀ (get_or factor.now.firsts.now k 0) → x.new ≡ forward (shape_of factor.now) factor.now.values.now x₀ (get_or factor.now.firsts.now (suc k) 0) }
{
    let f = factor.firsts[k];
    let w = factor.firsts[k + 1] - f;
    let s = factor.starts[k];
    let e = factor.starts[k + 1];
    forward_columns(&factor.rows[s..e], &factor.values[off..], f, w, x);
    off + column_start(e - s, w)
}

// Not one function with the rising one: each has its own end of the stretch given and asks for the other, and each promises its own pass.
// Supernode k, falling. Returns where its values start.
fn backward_supernode(factor: &Full<'_>, k: usize, end: usize, x: &mut [f64]) -> usize
    requires k_in_bounds { k < length factor.now.firsts.now - 1 }
    requires end_value { end ≡ offset (shape_of factor.now) (suc k) }
    requires x_len { length x.old ≡ factor.now.n }
    ensures value { result ≡ offset (shape_of factor.now) k }
    ensures k_value { backward (shape_of factor.now) factor.now.values.now x.old (get_or factor.now.firsts.now (suc k) 0) ≡ backward (shape_of factor.now) factor.now.values.now x.new (get_or factor.now.firsts.now k 0) }
{
    let f = factor.firsts[k];
    let w = factor.firsts[k + 1] - f;
    let s = factor.starts[k];
    let e = factor.starts[k + 1];
    let off = end - column_start(e - s, w);
    backward_columns(&factor.rows[s..e], &factor.values[off..], f, w, x);
    off
}

// All columns, rising.
fn forward(factor: &Full<'_>, x: &mut [f64])
    requires { length x.old ≡ factor.now.n }
    ensures { x.new ≡ forward (shape_of factor.now) factor.now.values.now x.old factor.now.n }
{
    let mut off: usize = 0;
    for k in 0..factor.firsts.len() - 1 {
        off = forward_supernode(factor, k, off, x);
    }
}

// All columns, falling: their values end at `entries`.
fn backward(factor: &Full<'_>, x: &mut [f64])
    requires { length x.old ≡ factor.now.n }
    ensures { x.new ≡ backward (shape_of factor.now) factor.now.values.now x.old factor.now.n }
{
    let mut end = factor.entries;
    for k in (0..factor.firsts.len() - 1).rev() {
        end = backward_supernode(factor, k, end, x);
    }
}

// x takes b in factor order.
fn gather(permutation: &[usize], b: &[f64], x: &mut [f64])
    requires x_in_bounds { length x.old ≤ length permutation.now }
    requires by_index { (a : ℕ) → a < length x.old → get_or permutation.now a 0 < length b.now }
    ensures { x.new ≡ list (λ a. get_or b.now (get_or permutation.now a 0) +0) (length x.old) }
{
    for a in 0..x.len() {
        let k = permutation[a];
        x[a] = b[k];
    }
}

// b takes x back, in original order.
fn scatter(permutation: &[usize], x: &[f64], b: &mut [f64])
    requires x_in_bounds { (length x.now ≤ length permutation.now) × (length b.old ≡ length x.now) }
    requires permutation_value { permutes (length x.now) permutation.now ≡ true }
    ensures { b.new ≡ list (λ k. get_or x.now (place k permutation.now) +0) (length x.now) }
{
    for q in 0..x.len() {
        let k = permutation[q];
        b[k] = x[q];
    }
}

// b becomes the solution, with x as the room for the unknowns.
pub fn solve_one(factor: &Full<'_>, x: &mut [f64], b: &mut [f64])
    requires x_len { length x.old ≡ factor.now.n }
    requires b_len { length b.old ≡ factor.now.n }
    ensures { b.new ≡ solution factor.now.n factor.now.permutation.now (shape_of factor.now) factor.now.values.now b.old }
{
    gather(factor.permutation, &b[..], x);
    forward(factor, x);
    backward(factor, x);
    scatter(factor.permutation, &x[..], b);
}
