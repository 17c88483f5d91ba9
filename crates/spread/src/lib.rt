// What goes to the places of rows: values stored there, sums and products subtracted there, through the rows' positions or, where these follow each
// other, as a run.
#![tactic(auto)]

ghost use Rattle.std.specs.Prelude.{◌≡◌, true, ◌+◌, ◌<◌, ◌≤◌, get_or, length};
ghost use Rattle.std.specs.Float.{nan, binary64};
ghost use Rattle.std.specs.Float.Ieee.{sub};
ghost use Rattle.statement.specs.Input.{+0};
ghost use Rattle.areas.specs.Touch.{Touched};
ghost use Rattle.products.specs.Products.{plus};
ghost use Rattle.spread.specs.Spread.{through, Spread, Rises, Rising, Run};

use products::{subtract_product, subtract_run};

// Whether the positions of the n rows from `at`, which rise, are a run: the last is n - 1 after the first.
fn is_run(place: &[usize], rows: &[usize], at: usize, n: usize) -> bool
    requires { Rises place.now rows.now at n }
    ensures { (result ≡ true → Run place.now rows.now at n) × (Run place.now rows.now at n → result ≡ true) }
{
    let r = rows[at];
    let first = place[r];
    let s = rows[at + (n - 1)];
    let last = place[s];
    last - first == n - 1
}

// The n values from `at` are stored at the places of their rows.
pub fn store_through(
    own: &mut [f64],
    base: usize,
    place: &[usize],
    rows: &[usize],
    at: usize,
    vals: &[f64],
    n: usize,
)
    requires spread { Spread place.now rows.now base at n (length own.old) }
    requires n_in_bounds { at + n ≤ length vals.now }
    ensures { Touched nan own.old own.new n (through place.now rows.now base at) (λ i. get_or vals.now (at + i) nan) }
{
    for i in 0..n {
        let r = rows[at + i];
        let p = base + place[r];
        own[p] = vals[at + i];
    }
}

// work is subtracted at the places of the n rows from `at`. Tried as one with product_through, over an `impl Fn(usize) -> f64` and `own` split at the
// base: the loop's goal over `F.post` and the way of `Touched` back over the split stayed open.
fn subtract_through(
    own: &mut [f64],
    base: usize,
    place: &[usize],
    rows: &[usize],
    at: usize,
    work: &[f64],
    n: usize,
)
    requires spread { Spread place.now rows.now base at n (length own.old) }
    requires n_in_bounds { n ≤ length work.now }
    ensures { Touched nan own.old own.new n (through place.now rows.now base at) (λ i. sub binary64 (get_or own.old (through place.now rows.now base at i) nan) (get_or work.now i nan)) }
{
    for i in 0..n {
        let r = rows[at + i];
        let p = base + place[r];
        own[p] = own[p] - work[i];
    }
}

// The same where the positions rise: at once where they are a run.
pub fn subtract_rising(
    own: &mut [f64],
    base: usize,
    place: &[usize],
    rows: &[usize],
    at: usize,
    work: &[f64],
    n: usize,
)
    requires rising { Rising place.now rows.now base at n (length own.old) }
    requires n_in_bounds { n ≤ length work.now }
    ensures { Touched nan own.old own.new n (through place.now rows.now base at) (λ i. sub binary64 (get_or own.old (through place.now rows.now base at i) nan) (get_or work.now i nan)) }
{
    if is_run(place, rows, at, n) {
        let r = rows[at];
        let first = place[r];
        subtract_run(own, base + first, work, n);
    } else {
        subtract_through(own, base, place, rows, at, work, n);
    }
}

// The products of the n values from src with the first of them, each as a sum of one, are subtracted at the places of the n rows from `at`.
fn product_through(
    own: &mut [f64],
    base: usize,
    place: &[usize],
    rows: &[usize],
    at: usize,
    src: usize,
    n: usize,
)
    requires spread { Spread place.now rows.now base at n (length own.old) }
    requires n_nonzero { (0 < n) × (src + n ≤ base) }
    ensures { Touched nan own.old own.new n (through place.now rows.now base at) (λ i. sub binary64 (get_or own.old (through place.now rows.now base at i) nan) (plus own.old src i +0)) }
{
    let a = own[src];
    for i in 0..n {
        let r = rows[at + i];
        let p = base + place[r];
        own[p] = own[p] - (0.0 + own[src + i] * a);
    }
}

// The same where the positions rise: at once where they are a run.
pub fn product_rising(
    own: &mut [f64],
    base: usize,
    place: &[usize],
    rows: &[usize],
    at: usize,
    src: usize,
    n: usize,
)
    requires rising { Rising place.now rows.now base at n (length own.old) }
    requires n_bound { src + n ≤ base }
    ensures { Touched nan own.old own.new n (through place.now rows.now base at) (λ i. sub binary64 (get_or own.old (through place.now rows.now base at i) nan) (plus own.old src i +0)) }
{
    if is_run(place, rows, at, n) {
        let r = rows[at];
        let first = place[r];
        subtract_product(own, base + first, src, n);
    } else {
        product_through(own, base, place, rows, at, src, n);
    }
}
