// Four columns of the forward pass at a time, where their rows follow each other: bit for bit what one after the other gives.
#![tactic(auto)]

ghost use Rattle.std.specs.Prelude.{◌≡◌, ◌+◌, ◌≤◌, length, get_or};
ghost use Rattle.std.specs.Float.{nan};
ghost use Rattle.areas.specs.Touch.{Touched};
ghost use Rattle.forward_four.specs.Four.{less, column, Four};

// The columns and quotients go by name, not as arrays: each product has its own column, quotient and place, so an index would be added to each and nothing folded.
// x, less four products at each of the n places from `at`, one after the other: the rows below the first four, of each column.
fn subtract4(
    v0: &[f64],
    v1: &[f64],
    v2: &[f64],
    v3: &[f64],
    y0: f64,
    y1: f64,
    y2: f64,
    y3: f64,
    at: usize,
    n: usize,
    x: &mut [f64],
)
    requires { (at + n ≤ length x.old) × (4 + n ≤ length v0.now) × (3 + n ≤ length v1.now) × (2 + n ≤ length v2.now) × (1 + n ≤ length v3.now) }
    ensures { Touched nan x.old x.new n (λ i. at + i) (λ i. less v3.now y3 (1 + i) (less v2.now y2 (2 + i) (less v1.now y1 (3 + i) (less v0.now y0 (4 + i) (get_or x.old (at + i) nan))))) }
{
    for i in 0..n {
        x[at + i] = (((x[at + i] - v0[4 + i] * y0) - v1[3 + i] * y1) - v2[2 + i] * y2)
            - v3[1 + i] * y3;
    }
}

// Columns q to q + 3, rising: the four quotients first, then all that is below them.
pub fn forward4(v0: &[f64], v1: &[f64], v2: &[f64], v3: &[f64], q: usize, x: &mut [f64])
    requires { Four v0.now v1.now v2.now v3.now q (length x.old) }
    ensures { x.new ≡ column (column (column (column x.old q v0.now) (q + 1) v1.now) (q + 2) v2.now) (q + 3) v3.now }
{
    let y0 = x[q] / v0[0];
    let y1 = (x[q + 1] - v0[1] * y0) / v1[0];
    let y2 = ((x[q + 2] - v0[2] * y0) - v1[1] * y1) / v2[0];
    let y3 = (((x[q + 3] - v0[3] * y0) - v1[2] * y1) - v2[1] * y2) / v3[0];
    x[q] = y0;
    x[q + 1] = y1;
    x[q + 2] = y2;
    x[q + 3] = y3;
    subtract4(v0, v1, v2, v3, y0, y1, y2, y3, q + 4, v3.len() - 1, x);
}
