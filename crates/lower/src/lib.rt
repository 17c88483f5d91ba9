// The matrix by lower columns in factor numbering: factor columns are taken rising, so each lower column's rows rise.
#![tactic(auto)]

ghost use Rattle.std.specs.Prelude.{◌≡◌, ℕ, suc, ◌+◌, ◌≤◌, ◌<◌, length, get_or, set, drop};
ghost use Rattle.areas.specs.Buckets.{Holds, Beyond};
ghost use Rattle.lower.specs.Entries.{Sited, Line, Counted, Put, Lowered, lower_rows, lower_start};

use areas::sums::sums;
use parts::copy;
use std::ops::Range;
use views::Matrix;

// An entry at the end of lower column c.
fn append(
    c: usize,
    r: usize,
    x: f64,
    next: &mut [usize],
    to_rows: &mut [usize],
    to_values: &mut [f64],
)
    requires { (c < length next.old) × (get_or next.old c 0 < length to_rows.old) × (get_or next.old c 0 < length to_values.old) }
    ensures next_after { next.new ≡ set next.old c (get_or next.old c 0 + 1) }
    ensures to_rows_after { to_rows.new ≡ set to_rows.old (get_or next.old c 0) r }
    ensures to_values_after { to_values.new ≡ set to_values.old (get_or next.old c 0) x }
{
    let at = next[c];
    next[c] = at + 1;
    to_rows[at] = r;
    to_values[at] = x;
}

// A matrix by upper columns, the column at each place of the postorder, and the place of each column.
#[derive(Clone, Copy)]
pub struct Upper<'a> {
    pub matrix: Matrix<'a>,
    pub permutation: &'a [usize],
    pub places: &'a [usize],
    ghost sited: { Sited matrix.n matrix.starts.now matrix.rows.now permutation.now places.now },
    ghost beside: { length matrix.values.now ≡ length matrix.rows.now },
}

impl Upper<'_> {
    // Factor column r in the matrix's own numbering.
    fn column(&self, r: usize) -> usize
        requires { r < self.now.matrix.n }
        ensures { (result ≡ get_or self.now.permutation.now r 0) × (result < self.now.matrix.n) }
    {
        self.permutation[r]
    }

    // Where the entries of factor column r stand.
    fn line(&self, r: usize) -> Range<usize>
        requires { r < self.now.matrix.n }
        ensures { Line self.now.matrix.starts.now self.now.matrix.rows.now (get_or self.now.permutation.now r 0) result.start result.end }
    {
        let k = self.column(r);
        self.matrix.starts[k]..self.matrix.starts[k + 1]
    }

    // The entries of factor column r, each counted to its lower column. This loop and that of `put_line` share `line`, and what is left of
    // each is one line: one walk with a closure would be longer.
    fn count_line(&self, r: usize, counts: &mut [usize])
        requires r_lt_n { r < self.now.matrix.n }
        requires counted { Counted self.now.matrix.n self.now.matrix.starts.now self.now.matrix.rows.now r counts.old }
        ensures { Counted self.now.matrix.n self.now.matrix.starts.now self.now.matrix.rows.now (suc r) counts.new }
    {
        let entries = self.line(r);
        for p in entries.start..entries.end {
            counts[self.places[self.matrix.rows[p]]] += 1;
        }
    }

    // How many entries each lower column has.
    fn count_lines(&self, counts: &mut [usize])
        requires { self.now.matrix.n ≤ length counts.old }
        ensures { Holds (λ c. length (lower_rows self.now.matrix.n self.now.matrix.starts.now self.now.matrix.rows.now c)) self.now.matrix.n counts.new }
    {
        counts[..self.matrix.n].fill(0);
        for r in 0..self.matrix.n {
            self.count_line(r, counts);
        }
    }

    // The entries of factor column r, each put to its lower column.
    fn put_line(&self, r: usize, next: &mut [usize], to_rows: &mut [usize], to_values: &mut [f64])
        requires r_lt_n { r < self.now.matrix.n }
        requires put { Put self.now.matrix.n self.now.matrix.starts.now self.now.matrix.rows.now self.now.matrix.values.now r next.old to_rows.old to_values.old }
        ensures put_2 { Put self.now.matrix.n self.now.matrix.starts.now self.now.matrix.rows.now self.now.matrix.values.now (suc r) next.new to_rows.new to_values.new }
        ensures beyond { Beyond (lower_start self.now.matrix.n self.now.matrix.starts.now self.now.matrix.rows.now self.now.matrix.n) to_rows.old to_rows.new }
        ensures beyond_2 { Beyond (lower_start self.now.matrix.n self.now.matrix.starts.now self.now.matrix.rows.now self.now.matrix.n) to_values.old to_values.new }
    {
        let entries = self.line(r);
        for p in entries.start..entries.end {
            append(
                self.places[self.matrix.rows[p]],
                r,
                self.matrix.values[p],
                next,
                to_rows,
                to_values,
            );
        }
    }

    // All entries, from the starts in next on.
    fn put_lines(&self, next: &mut [usize], to_rows: &mut [usize], to_values: &mut [f64])
        requires holds { Holds (lower_start self.now.matrix.n self.now.matrix.starts.now self.now.matrix.rows.now) self.now.matrix.n next.old }
        requires rows_in_bounds { (length self.now.matrix.rows.now ≤ length to_rows.old) × (length self.now.matrix.rows.now ≤ length to_values.old) }
        ensures { Put self.now.matrix.n self.now.matrix.starts.now self.now.matrix.rows.now self.now.matrix.values.now self.now.matrix.n next.new to_rows.new to_values.new }
    {
        for r in 0..self.matrix.n {
            self.put_line(r, next, to_rows, to_values);
        }
    }

    // The starts of the lower columns, in words, and again in next.
    fn begin_lines(&self, next: &mut [usize], words: &mut [usize])
        requires { (self.now.matrix.n ≤ length next.old) × (self.now.matrix.n < length words.old) }
        ensures holds { Holds (lower_start self.now.matrix.n self.now.matrix.starts.now self.now.matrix.rows.now) (suc self.now.matrix.n) words.new }
        ensures holds_2 { Holds (lower_start self.now.matrix.n self.now.matrix.starts.now self.now.matrix.rows.now) self.now.matrix.n next.new }
    {
        let n = self.matrix.n;
        self.count_lines(next);
        sums(n, next, words);
        copy(&mut next[..n], &words[..n]);
    }

    // The lower columns: in words the n + 1 starts and then the rows. next is scratch.
    pub fn lower(&self, next: &mut [usize], words: &mut [usize], to_values: &mut [f64])
        requires { (self.now.matrix.n ≤ length next.old) × (self.now.matrix.n + 1 + length self.now.matrix.rows.now ≤ length words.old) × (length self.now.matrix.rows.now ≤ length to_values.old) }
        ensures { Lowered self.now.matrix.n self.now.matrix.starts.now self.now.matrix.rows.now self.now.matrix.values.now words.new (drop (self.now.matrix.n + 1) words.new) to_values.new }
    {
        self.begin_lines(next, words);
        let m = self.matrix.n + 1;
        self.put_lines(next, &mut words[m..], to_values);
    }
}
