// The dense factor of one trapezoid in place, column by column.
#![tactic(auto)]

ghost use Rattle.std.specs.Prelude.{◌≡◌, cond, ◌+◌, ◌-◌, ◌<◌, ◌≤◌, ltb, get_or, length, is_ok, IfErr};
ghost use Rattle.std.specs.Float.{nan, binary64};
ghost use Rattle.std.specs.Float.Ieee.{sub};
ghost use Rattle.statement.specs.Shape.{trapezoid};
ghost use Rattle.statement.specs.Rules.{dot, singly, panel};
ghost use Rattle.laws.specs.Lower.{among, lower_value};
ghost use Rattle.areas.specs.Touch.{Touched};
ghost use Rattle.panel.specs.View.{cell};
ghost use Rattle.panels.specs.Dense.{inner, Column, Dense, passed};

use panel::{Panel, column_start, panel_start};
use views::Lower;

// From column c, the products of the columns from `from` below the result, singly: N columns at a time, while there are N before c. A `while`:
// `step_by(N)` would begin the last, shorter group too.
fn singles_by<const N: usize>(own: &mut [f64], m: usize, c: usize, from: usize) -> usize
    requires some { 0 < N }
    requires stored { (from ≤ c) × (c < m) × (m ≤ 32768) × (trapezoid m c + (m - c) ≤ length own.old) }
    ensures upto { (from ≤ result) × (result ≤ c) × (c < result + N) }
    ensures singles { Touched nan own.old own.new (m - c) (λ i. trapezoid m c + i) (λ i. singly (get_or own.old (trapezoid m c + i) nan) (cell m own.old (c + i)) (cell m own.old c) from (result - from)) }
{
    let dst = column_start(m, c);
    let mut k = from;
    let mut src = column_start(m, from) + c - from;
    while c - k >= N {
        let mut at = [0; N];
        for j in 0..N {
            at[j] = src;
            src = src + m - (k + j) - 1;
        }
        products::sub(own, dst, at, m - c);
        k += N;
    }
    k
}

// From column c, the products of the columns from c0 before it, singly.
fn singles(own: &mut [f64], m: usize, c0: usize, c: usize)
    requires { (c0 ≤ c) × (c < m) × (m ≤ 32768) × (trapezoid m c + (m - c) ≤ length own.old) }
    ensures { Touched nan own.old own.new (m - c) (λ i. trapezoid m c + i) (λ i. singly (get_or own.old (trapezoid m c + i) nan) (cell m own.old (c + i)) (cell m own.old c) c0 (c - c0)) }
{
    let k = singles_by::<4>(own, m, c, c0);
    singles_by::<1>(own, m, c, k);
}

// From column c, the sum over the c0 columns before its panel, if there are any.
fn before_panel(own: &mut [f64], work: &mut [f64], m: usize, c0: usize, c: usize)
    requires { (c0 ≡ panel c) × (c < m) × (m ≤ 32768) × (trapezoid m c + (m - c) ≤ length own.old) × (m ≤ length work.old) }
    ensures { Touched nan own.old own.new (m - c) (λ i. trapezoid m c + i) (λ i. cond (ltb c 64) (get_or own.old (trapezoid m c + i) nan) (sub binary64 (get_or own.old (trapezoid m c + i) nan) (dot (cell m own.old (c + i)) (cell m own.old c) (panel c)))) }
{
    if c0 == 0 {
        return;
    }
    products::sums(work, own, m, c, c0);
    let at = column_start(m, c);
    products::subtract_run(own, at, work, m - c);
}

// Column c, less the products of the columns before it.
fn reduce(own: &mut [f64], work: &mut [f64], m: usize, c: usize)
    requires { (c < m) × (m ≤ 32768) × (trapezoid m c + (m - c) ≤ length own.old) × (m ≤ length work.old) }
    ensures { Touched nan own.old own.new (m - c) (λ i. trapezoid m c + i) (λ i. inner m own.old (c + i) c (get_or own.old (trapezoid m c + i) nan)) }
{
    let c0 = panel_start(c);
    before_panel(own, work, m, c0, c);
    singles(own, m, c0, c);
}

// Column c of a trapezoid: reduced, tested, and divided by the root of its pivot. `Err(c)` where the pivot breaks the rule.
fn column(own: &mut [f64], work: &mut [f64], m: usize, c: usize, a: f64) -> Result<(), usize>
    requires { (c < m) × (m ≤ 32768) × (trapezoid m c + (m - c) ≤ length own.old) × (m ≤ length work.old) }
    ensures column { Column m c a own.old own.new (is_ok result) }
    ensures here { IfErr result (λ e. e ≡ c) }
{
    reduce(own, work, m, c);
    let d = Panel { m, values: own }.at(c, c);
    if !root::good_pivot(a, d) {
        return Err(c);
    }
    let at = column_start(m, c);
    let r = root::root(d);
    own[at] = r;
    products::divide(own, at + 1, m - c - 1, r);
    Ok(())
}

// The value at row i among the places from t0 below t1, 0.0 if there is none.
fn find(rows: &[usize], vals: &[f64], t0: usize, t1: usize, i: usize) -> f64
    requires { (t0 ≤ t1) × (t1 ≤ length rows.now) × (t1 ≤ length vals.now) }
    ensures { result ≡ among rows.now vals.now t0 t1 i }
{
    for t in t0..t1 {
        if rows[t] == i {
            return vals[t];
        }
    }
    0.0
}

// A(j,j).
fn diagonal(lower: &Lower<'_>, j: usize) -> f64
    requires j_lt_n { j < lower.now.n }
    ensures { result ≡ lower_value lower.now.starts.now lower.now.rows.now lower.now.values.now j j }
{
    find(
        lower.rows,
        lower.values,
        lower.starts[j],
        lower.starts[j + 1],
        j,
    )
}

// The dense factor of w columns of an m-row trapezoid in place; f is the first of them. `Err(c)`: the pivot of column c is the first that breaks
// the rule.
pub fn dense(
    own: &mut [f64],
    work: &mut [f64],
    m: usize,
    w: usize,
    f: usize,
    lower: &Lower<'_>,
) -> Result<(), usize>
    requires { (w ≤ m) × (m ≤ 32768) × (trapezoid m w ≤ length own.old) × (m ≤ length work.old) × (f + w ≤ lower.now.n) }
    ensures dense { Dense m w (λ c. lower_value lower.now.starts.now lower.now.rows.now lower.now.values.now (f + c) (f + c)) own.old own.new (passed w result) }
    ensures breaks { IfErr result (λ c. c < w) }
{
    for c in 0..w {
        let d = diagonal(lower, f + c);
        column(own, work, m, c, d)?;
    }
    Ok(())
}
