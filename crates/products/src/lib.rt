// The sums and products of 'Order of the arithmetic', a column's run of consecutive floats at a time: no operation is fused with another, a sum begins
// at 0.0 and takes the columns from the lowest up.
#![tactic(auto)]

ghost use Rattle.std.specs.Prelude.{◌≡◌, ℕ, ◌+◌, ◌-◌, ◌<◌, ◌≤◌, get_or, length};
ghost use Rattle.std.specs.Float.{nan, binary64};
ghost use Rattle.std.specs.Float.Ieee.{sub, div};
ghost use Rattle.statement.specs.Input.{+0};
ghost use Rattle.statement.specs.Shape.{trapezoid};
ghost use Rattle.statement.specs.Rules.{dot};
ghost use Rattle.areas.specs.Touch.{Touched};
ghost use Rattle.panel.specs.View.{cell};
ghost use Rattle.products.specs.Products.{plus, plus4, pluses, lesses, Begun};

use panel::column_start;

// The first n places are 0.0.
pub fn clear(w: &mut [f64], n: usize)
    requires { n ≤ length w.old }
    ensures { Touched nan w.old w.new n (λ i. i) (λ i. +0) }
{
    w[..n].fill(0.0);
}

// w is the products of the n places from s0 with the first of them, each as a sum of one. Not one with set4, as `add` on a cleared w: tried and proved,
// it took 4 to 5 % more instructions on dissected grids and cubes.
fn set1(w: &mut [f64], v: &[f64], s0: usize, n: usize)
    requires { (0 < n) × (s0 + n ≤ length v.now) × (n ≤ length w.old) }
    ensures { Touched nan w.old w.new n (λ i. i) (λ i. plus v.now s0 i +0) }
{
    let a0 = v[s0];
    for i in 0..n {
        w[i] = 0.0 + v[s0 + i] * a0;
    }
}

// w is the sums of such products of four columns, one after the other.
fn set4(w: &mut [f64], v: &[f64], s0: usize, s1: usize, s2: usize, s3: usize, n: usize)
    requires { (0 < n) × (s0 + n ≤ length v.now) × (s1 + n ≤ length v.now) × (s2 + n ≤ length v.now) × (s3 + n ≤ length v.now) × (n ≤ length w.old) }
    ensures { Touched nan w.old w.new n (λ i. i) (λ i. plus4 v.now s0 s1 s2 s3 i +0) }
{
    let a0 = v[s0];
    let a1 = v[s1];
    let a2 = v[s2];
    let a3 = v[s3];
    for i in 0..n {
        w[i] = (((0.0 + v[s0 + i] * a0) + v[s1 + i] * a1) + v[s2 + i] * a2) + v[s3 + i] * a3;
    }
}

// To each of the n places of w, the products of N columns' places with the first of them are added, one column after the other; w is read and written
// once for them all.
fn add<const N: usize>(w: &mut [f64], v: &[f64], at: [usize; N], n: usize)
    requires { (0 < n) × ((k : ℕ) → k < N → get_or at k 0 + n ≤ length v.now) × (n ≤ length w.old) }
    ensures { Touched nan w.old w.new n (λ i. i) (λ i. pluses v.now at.entry i (get_or w.old i nan) N) }
{
    let mut first = [0.0; N];
    for k in 0..N {
        first[k] = v[at[k]];
    }
    for i in 0..n {
        let mut x = w[i];
        for k in 0..N {
            x += v[at[k] + i] * first[k];
        }
        w[i] = x;
    }
}

// The sums over the first columns, those below `from`, go on to the column that is the result: N at a time, while there are N below kw. A `while`:
// `step_by(N)` would begin the last, shorter group too.
fn by<const N: usize>(
    work: &mut [f64],
    v: &[f64],
    m: usize,
    q: usize,
    kw: usize,
    from: usize,
) -> usize
    requires some { 0 < N }
    requires begun { Begun m q kw from v.now work.old }
    ensures upto { (result ≤ kw) × (kw < result + N) }
    ensures sums { Touched nan work.old work.new (m - q) (λ i. i) (λ i. dot (cell m v.now (q + i)) (cell m v.now q) result) }
{
    let mut k = from;
    let mut src = column_start(m, from) + q - from;
    while kw - k >= N {
        let mut at = [0; N];
        for j in 0..N {
            at[j] = src;
            src = src + m - (k + j) - 1;
        }
        add(work, v, at, m - q);
        k += N;
    }
    k
}

// One sum for each row from q of an m-row trapezoid: over its first kw columns, each row times row q.
pub fn sums(work: &mut [f64], v: &[f64], m: usize, q: usize, kw: usize)
    requires { (kw ≤ q) × (q < m) × (m ≤ 32768) × (trapezoid m kw ≤ length v.now) × (m - q ≤ length work.old) }
    ensures { Touched nan work.old work.new (m - q) (λ i. i) (λ i. dot (cell m v.now (q + i)) (cell m v.now q) kw) }
{
    let n = m - q;
    if kw == 0 {
        clear(work, n);
        return;
    }
    if kw < 4 {
        set1(work, v, q, n);
        by::<1>(work, v, m, q, kw, 1);
        return;
    }
    let s1 = q + m - 1;
    let s2 = s1 + m - 2;
    let s3 = s2 + m - 3;
    set4(work, v, q, s1, s2, s3, n);
    let k8 = by::<8>(work, v, m, q, kw, 4);
    let k4 = by::<4>(work, v, m, q, kw, k8);
    by::<1>(work, v, m, q, kw, k4);
}

// work is subtracted from the n places from `at`.
pub fn subtract_run(own: &mut [f64], at: usize, work: &[f64], n: usize)
    requires { (n ≤ length work.now) × (at + n ≤ length own.old) }
    ensures { Touched nan own.old own.new n (λ i. at + i) (λ i. sub binary64 (get_or own.old (at + i) nan) (get_or work.now i nan)) }
{
    for i in 0..n {
        own[at + i] = own[at + i] - work[i];
    }
}

// From the n places from dst, the products of N columns' places with the first of them, one column after the other.
pub fn sub<const N: usize>(own: &mut [f64], dst: usize, at: [usize; N], n: usize)
    requires { (0 < n) × ((k : ℕ) → k < N → get_or at k 0 + n ≤ dst) × (dst + n ≤ length own.old) }
    ensures { Touched nan own.old own.new n (λ i. dst + i) (λ i. lesses own.old at.entry i (get_or own.old (dst + i) nan) N) }
{
    let mut first = [0.0; N];
    for k in 0..N {
        first[k] = own[at[k]];
    }
    for i in 0..n {
        let mut x = own[dst + i];
        for k in 0..N {
            x -= own[at[k] + i] * first[k];
        }
        own[dst + i] = x;
    }
}

// From the n places from dst, the products of the n places from src with the first of them, each as a sum of one.
pub fn subtract_product(own: &mut [f64], dst: usize, src: usize, n: usize)
    requires { (0 < n) × (src + n ≤ dst) × (dst + n ≤ length own.old) }
    ensures { Touched nan own.old own.new n (λ i. dst + i) (λ i. sub binary64 (get_or own.old (dst + i) nan) (plus own.old src i +0)) }
{
    let a = own[src];
    for i in 0..n {
        own[dst + i] = own[dst + i] - (0.0 + own[src + i] * a);
    }
}

// The n places from `at` are divided by r.
pub fn divide(own: &mut [f64], at: usize, n: usize, r: f64)
    requires { at + n ≤ length own.old }
    ensures { Touched nan own.old own.new n (λ i. at + i) (λ i. div binary64 (get_or own.old (at + i) nan) r) }
{
    for i in 0..n {
        own[at + i] = own[at + i] / r;
    }
}
