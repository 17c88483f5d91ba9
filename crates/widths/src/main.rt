// Holds factor and solve to the Rust by bits: a line of standard input is a matrix, or a run of the last one, and a line of
// nine numbers answers each run. tests/widths/list.rs says what the lines are, and makes the two lists. A line
// that is no list of numbers, or has more than 4,096, ends the program.
#![tactic(auto)]

mod line;

use areas::Zero;
use factor::factor;
use line::{print, sum};
use lists::{line_at, read_full};
use matrices::{Kind, Size, matrix};
use solve::solve;
use statement::{Order, Outcome, Stop, Update};
use std::io;
use std::num::nearest_usize_to_f64;

// The right sides: b(i) = i + 1 over all of them, so that no two are the same.
fn put_sides(b: &mut [f64]) {
    for i in 0..b.len() {
        b[i] = nearest_usize_to_f64(i + 1);
    }
}

// Solves three right sides with what factor left, and prints the line.
fn solve_and_print(
    rt: &impl Print,
    x: Outcome,
    permutation: &[usize],
    firsts: &[usize],
    starts: &[usize],
    rows: &[usize],
    values: &[f64],
    words: &mut [usize],
    floats: &mut [f64],
    b: &mut [f64],
) -> io::Result<()> {
    let record = x.record;
    put_sides(b);
    let a = solve(
        record,
        permutation,
        firsts,
        starts,
        rows,
        values,
        words,
        floats,
        3,
        b,
    );
    print(rt, x, sum(values, record.entries), a, sum(b, b.len()))
}

// One run, in lent areas and as many updates as every matrix of the list needs.
fn run_in(
    rt: &impl Print,
    n: usize,
    input_starts: &[usize],
    input_rows: &[usize],
    input_values: &[f64],
    order: Order,
    list: &[usize],
    stop: Stop,
    permutation: &mut [usize],
    firsts: &mut [usize],
    starts: &mut [usize],
    groups: &mut [usize],
    tasks: &mut [usize],
    top: &mut [usize],
    words: &mut [usize],
    floats: &mut [f64],
    rows: &mut [usize],
    values: &mut [f64],
    b: &mut [f64],
) -> io::Result<()> {
    let mut updates = [Update::zero(); 16384];
    let x = factor(
        n,
        input_starts,
        input_rows,
        input_values,
        usize::MAX,
        order,
        list,
        stop,
        permutation,
        firsts,
        starts,
        groups,
        tasks,
        top,
        words,
        floats,
        rows,
        &mut updates,
        values,
    );
    solve_and_print(
        rt,
        x,
        permutation,
        firsts,
        starts,
        rows,
        values,
        words,
        floats,
        b,
    )
}

// One run, in areas that are long enough for every matrix of the list.
fn run(
    rt: &impl Print,
    n: usize,
    input_starts: &[usize],
    input_rows: &[usize],
    input_values: &[f64],
    order: Order,
    list: &[usize],
    stop: Stop,
    b: &mut [f64],
) -> io::Result<()> {
    let mut permutation = [0; 512];
    let mut firsts = [0; 512];
    let mut starts = [0; 512];
    let mut groups = [0; 512];
    let mut tasks = [0; 1024];
    let mut top = [0; 512];
    let mut words = [0; 16384];
    let mut floats = [0.0; 16384];
    let mut rows = [0; 16384];
    let mut values = [0.0; 16384];
    run_in(
        rt,
        n,
        input_starts,
        input_rows,
        input_values,
        order,
        list,
        stop,
        &mut permutation,
        &mut firsts,
        &mut starts,
        &mut groups,
        &mut tasks,
        &mut top,
        &mut words,
        &mut floats,
        &mut rows,
        &mut values,
        b,
    )
}

// 0 is the end, and t + 1 a stop after t.
fn stop_of(x: usize) -> Stop {
    match x {
        0 => Stop::End,
        x => Stop::After(x - 1),
    }
}

// Runs the matrix as a line says: the kind, where to stop, the list.
fn run_line(
    rt: &impl Print,
    order: Order,
    line: &[usize],
    size: Size,
    starts: &[usize],
    rows: &[usize],
    values: &[f64],
) -> io::Result<()> {
    let mut b = [0.0; 1536];
    let Size { n, a } = size;
    if n >= starts.len() || n > 512 || a > rows.len() || a > values.len() || line.len() < 2 {
        return Ok(());
    }
    run(
        rt,
        n,
        &starts[..n + 1],
        &rows[..a],
        &values[..a],
        order,
        &line[2..],
        stop_of(line[1]),
        &mut b[..3 * n],
    )
}

// Takes each line in its turn.
fn answer_all(rt: &impl Print, text: &[u8]) -> io::Result<()> {
    let mut list = [0; 4096];
    let mut starts = [0; 512];
    let mut rows = [0; 16384];
    let mut values = [0.0; 16384];
    let mut size = Size { n: 0, a: 0 };
    let mut at = 0;
    while let Some(l) = line_at(text, at, &mut list) {
        let line = &list[..l.count];
        if let Some(Kind::Run(order)) = line.first().map(|word| Kind::from(*word)) {
            run_line(rt, order, line, size, &starts, &rows, &values)?;
        } else {
            size = matrix(line, size, &mut starts, &mut rows, &mut values);
        }
        at = l.end;
    }
    Ok(())
}

fn main(rt: HostRuntime) -> io::Result<()> {
    let mut text = [0u8; 393216];
    let n = read_full(&mut rt.stdin(), &mut text)?;
    answer_all(&rt, &text[..n])
}
