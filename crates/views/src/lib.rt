// What a call is lent to read, by what belongs together: a matrix, its columns once they are known to be well formed, the structure of a
// factor, and the factor. Nothing is copied: each holds the lent slices.
#![tactic(auto)]

ghost use Rattle.statement.specs.Input.{Columns};
ghost use Rattle.laws.specs.Lower.{Lower};

// A matrix as it is lent: n, where each column's rows and values start, the rows, the values.
#[derive(Clone, Copy)]
pub struct Matrix<'a> {
    pub n: usize,
    pub starts: &'a [usize],
    pub rows: &'a [usize],
    pub values: &'a [f64],
}

// The columns of a matrix that passed the input check.
#[derive(Clone, Copy)]
pub struct Columns<'a> {
    pub n: usize,
    pub starts: &'a [usize],
    pub rows: &'a [usize],
    ghost valid: { Columns n starts.now rows.now },
}

// A matrix by lower columns in factor numbering: where each column's entries start, their rows and their values.
#[derive(Clone, Copy)]
pub struct Lower<'a> {
    pub n: usize,
    pub starts: &'a [usize],
    pub rows: &'a [usize],
    pub values: &'a [f64],
    ghost valid: { Lower starts.now rows.now values.now n },
}

// The supernodes of a factor of n columns: their first columns, where each one's rows start, and the rows.
#[derive(Clone, Copy)]
pub struct Structure<'a> {
    pub n: usize,
    pub firsts: &'a [usize],
    pub starts: &'a [usize],
    pub rows: &'a [usize],
}

// The areas of a factor that solve and the view read.
#[derive(Clone, Copy)]
pub struct Factor<'a> {
    pub permutation: &'a [usize],
    pub firsts: &'a [usize],
    pub starts: &'a [usize],
    pub rows: &'a [usize],
    pub values: &'a [f64],
}
