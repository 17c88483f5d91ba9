// The matrices that the lines of a list say, for the program `widths`.
#![tactic(auto)]

use frames::to_float;
use statement::Order;
use std::num::nearest_usize_to_f64;

// How many columns a matrix has, and how many stored rows.
#[derive(Clone, Copy)]
pub struct Size {
    pub n: usize,
    pub a: usize,
}

// The two dense matrices.
#[derive(Clone, Copy)]
pub enum Dense {
    Ones,
    Fractions,
}

// What a line says: a matrix, or a run of the last one.
#[derive(Clone, Copy)]
pub enum Kind {
    Stored,
    Dense(Dense),
    Run(Order),
}

impl From<usize> for Kind {
    fn from(word: usize) -> Kind {
        match word {
            0 => Kind::Stored,
            1 => Kind::Dense(Dense::Ones),
            2 => Kind::Dense(Dense::Fractions),
            3 => Kind::Run(Order::Plain),
            _ => Kind::Run(Order::Listed),
        }
    }
}

// The value at (i, k) of a dense matrix.
fn dense_value(dense: Dense, i: usize, k: usize) -> f64 {
    match dense {
        Dense::Ones if i == k => 1024.0,
        Dense::Ones => 1.0,
        Dense::Fractions if i == k => 2.0 + nearest_usize_to_f64(k) / 8.0,
        Dense::Fractions => {
            1.0 / nearest_usize_to_f64(k.wrapping_mul(3).wrapping_add(i).wrapping_add(1))
        }
    }
}

// Puts column k of a dense matrix from a place on, and says where it ends.
fn put_column(dense: Dense, k: usize, at: usize, rows: &mut [usize], values: &mut [f64]) -> usize {
    let end = at
        .saturating_add(k.saturating_add(1))
        .min(rows.len())
        .min(values.len());
    for to in at..end {
        rows[to] = to - at;
        values[to] = dense_value(dense, to - at, k);
    }
    end.max(at)
}

fn put_dense(
    dense: Dense,
    n: usize,
    starts: &mut [usize],
    rows: &mut [usize],
    values: &mut [f64],
) -> Size {
    let n = n.min(starts.len());
    let mut a = 0;
    for k in 0..n {
        starts[k] = a;
        a = put_column(dense, k, a, rows, values);
    }
    if n < starts.len() {
        starts[n] = a;
    }
    Size { n, a }
}

// Puts a matrix as a line has it: 0, n, a, the starts, the rows, the bits of the values.
fn put_stored(
    line: &[usize],
    starts: &mut [usize],
    rows: &mut [usize],
    values: &mut [f64],
) -> Option<Size> {
    let n = *line.get(1)?;
    let a = *line.get(2)?;
    if n >= starts.len() || a > rows.len() {
        return None;
    }
    let r = n + 4;
    let v = r + a;
    if line.len() != v + a {
        return None;
    }
    starts[..n + 1].copy_from_slice(&line[3..r]);
    rows[..a].copy_from_slice(&line[r..v]);
    for (x, bits) in values.iter_mut().zip(&line[v..]) {
        *x = to_float(*bits as u64);
    }
    Some(Size { n, a })
}

// Puts the matrix that a line says, where it says one.
fn put_matrix(
    line: &[usize],
    starts: &mut [usize],
    rows: &mut [usize],
    values: &mut [f64],
) -> Option<Size> {
    match Kind::from(*line.first()?) {
        Kind::Stored => put_stored(line, starts, rows, values),
        Kind::Dense(dense) => {
            let n = *line.get(1)?;
            Some(put_dense(dense, n, starts, rows, values))
        }
        Kind::Run(_) => None,
    }
}

// The matrix that a line says, put in the place of the old one; a line that says none leaves it.
pub fn matrix(
    line: &[usize],
    old: Size,
    starts: &mut [usize],
    rows: &mut [usize],
    values: &mut [f64],
) -> Size {
    put_matrix(line, starts, rows, values).unwrap_or(old)
}
