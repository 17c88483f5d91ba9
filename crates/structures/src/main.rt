// Compares the structure with the Rust's: each line of standard input is a matrix (n, a, its n + 1 starts, its a rows),
// and a line of sixteen numbers answers it. The two lists come from tests/structures. A line that is no such matrix, or
// has more than 8,192 numbers, ends the program.
#![tactic(auto)]

mod sums;

use analyse::analyse;
use answers::number;
use areas::Zero;
use lines::put_hex;
use lists::{line_at, read_full, say};
use statement::{Outcome, Update};
use std::io;
use sums::{sum, sum_updates};

// Each number in 16 digits, one space apart.
fn print_line(rt: &impl Print, words: &[u64; 16]) -> io::Result<()> {
    let mut out = [b' '; 272];
    for k in 0..words.len() {
        put_hex(&mut out, 17 * k, 16, words[k]);
    }
    out[271] = b'\n';
    say(rt, &out)
}

// The number and the counts, and then the sum of each list; that of the updates is given.
fn print(
    rt: &impl Print,
    x: Outcome,
    permutation: &[usize],
    firsts: &[usize],
    starts: &[usize],
    groups: &[usize],
    tasks: &[usize],
    top: &[usize],
    rows: &[usize],
    updates: u64,
) -> io::Result<()> {
    let a = x.answer;
    let r = x.record;
    let ends = r.supernodes.wrapping_add(1);
    let words = [
        number(a) as u64,
        r.supernodes as u64,
        r.rows as u64,
        r.updates as u64,
        r.tasks as u64,
        r.top as u64,
        r.entries as u64,
        r.work as u64,
        sum(permutation, r.n),
        sum(firsts, ends),
        sum(starts, ends),
        sum(rows, r.rows),
        sum(groups, ends),
        updates,
        sum(tasks, r.tasks.wrapping_mul(2)),
        sum(top, r.top),
    ];
    print_line(rt, &words)
}

// Analyses a matrix, in lent areas and as many updates as every matrix of the list needs.
fn answer_in(
    rt: &impl Print,
    n: usize,
    input_starts: &[usize],
    input_rows: &[usize],
    input_values: &[f64],
    permutation: &mut [usize],
    firsts: &mut [usize],
    starts: &mut [usize],
    groups: &mut [usize],
    tasks: &mut [usize],
    top: &mut [usize],
    words: &mut [usize],
    rows: &mut [usize],
) -> io::Result<()> {
    let mut updates = [Update::zero(); 65536];
    let x = analyse(
        n,
        input_starts,
        input_rows,
        input_values,
        usize::MAX,
        permutation,
        firsts,
        starts,
        groups,
        tasks,
        top,
        words,
        rows,
        &mut updates,
    );
    let s = sum_updates(&updates, x.record.updates);
    print(
        rt,
        x,
        permutation,
        firsts,
        starts,
        groups,
        tasks,
        top,
        rows,
        s,
    )
}

// The same in areas that are long enough for every matrix of the list.
fn answer(
    rt: &impl Print,
    n: usize,
    input_starts: &[usize],
    input_rows: &[usize],
    input_values: &[f64],
) -> io::Result<()> {
    let mut permutation = [0; 4096];
    let mut firsts = [0; 4096];
    let mut starts = [0; 4096];
    let mut groups = [0; 4096];
    let mut tasks = [0; 4096];
    let mut top = [0; 4096];
    let mut words = [0; 65536];
    let mut rows = [0; 65536];
    answer_in(
        rt,
        n,
        input_starts,
        input_rows,
        input_values,
        &mut permutation,
        &mut firsts,
        &mut starts,
        &mut groups,
        &mut tasks,
        &mut top,
        &mut words,
        &mut rows,
    )
}

// Whether the numbers of a line are a matrix with no more entries than the values; if so it is answered.
// A bool in a Result, since an Option<()> in it would say no more.
fn is_answered(rt: &impl Print, line: &[usize], values: &[f64]) -> io::Result<bool> {
    if line.len() < 2 {
        return Ok(false);
    }
    let n = line[0];
    let a = line[1];
    if n > line.len() || a > values.len() {
        return Ok(false);
    }
    let m = n + 3;
    if line.len() != m + a {
        return Ok(false);
    }
    answer(rt, n, &line[2..m], &line[m..], &values[0..a])?;
    Ok(true)
}

// Answers each line, up to the first that is no matrix.
fn answer_all(rt: &impl Print, text: &[u8]) -> io::Result<()> {
    let values = [0.0; 8192];
    let mut list = [0; 8192];
    let mut at = 0;
    while let Some(l) = line_at(text, at, &mut list) {
        if !is_answered(rt, &list[..l.count], &values)? {
            break;
        }
        at = l.end;
    }
    Ok(())
}

fn main(rt: HostRuntime) -> io::Result<()> {
    let mut text = [0u8; 131072];
    let n = read_full(&mut rt.stdin(), &mut text)?;
    answer_all(&rt, &text[..n])
}
