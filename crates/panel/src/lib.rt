// One supernode's trapezoid, column by column, and `Panel`, a view of it. The work stands in functions on the slice and the numbers, and Panel's thin
// methods hand on to them: the form that document 01 prescribes.
#![tactic(auto)]

ghost use Rattle.std.specs.Prelude.{◌≡◌, ◌≤◌, ◌<◌};
ghost use Rattle.statement.specs.Shape.{trapezoid};
ghost use Rattle.statement.specs.Rules.{panel};
ghost use Rattle.panel.specs.View.{column_of, cell, Within};

// Where column c of an m-row trapezoid starts.
pub fn column_start(m: usize, c: usize) -> usize
    requires { (c ≤ m) × (m ≤ 32768) }
    ensures { result ≡ trapezoid m c }
{
    if c == 0 {
        return 0;
    }
    c * m - c * (c - 1) / 2
}

// The first column of the panel of 64 that column c stands in: what is before it is one sum, what follows it is subtracted singly.
pub fn panel_start(c: usize) -> usize
    ensures { result ≡ panel c }
{
    c / 64 * 64
}

// Column c, diagonal first.
pub fn column_at<'a>(values: &'a [f64], m: usize, c: usize) -> &'a [f64]
    requires { Within m values.now c }
    ensures { result.now ≡ column_of m values.now c }
{
    let at = column_start(m, c);
    let end = at + (m - c);
    &values[at..end]
}

// Row r of column c.
pub fn entry_at(values: &[f64], m: usize, r: usize, c: usize) -> f64
    requires { (Within m values.now c) × (c ≤ r) × (r < m) }
    ensures { result ≡ cell m values.now r c }
{
    let at = column_start(m, c) + (r - c);
    values[at]
}

// The trapezoid of m rows at the start of the values.
#[derive(Clone, Copy)]
pub struct Panel<'a> {
    pub m: usize,
    pub values: &'a [f64],
}

impl<'a> Panel<'a> {
    // L(r, c) for r from c on.
    pub fn at(self, r: usize, c: usize) -> f64
        requires { (Within self.m self.values.now c) × (c ≤ r) × (r < self.m) }
        ensures { result ≡ cell self.entry.m self.entry.values.now r c }
    {
        entry_at(self.values, self.m, r, c)
    }

    // Column c, diagonal first.
    pub fn column(self, c: usize) -> &'a [f64]
        requires { Within self.m self.values.now c }
        ensures { result.now ≡ column_of self.entry.m self.entry.values.now c }
    {
        column_at(self.values, self.m, c)
    }
}
