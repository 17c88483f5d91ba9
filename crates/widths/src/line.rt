// A run's line.
use answers::{first_detail, number, second_detail};
use lines::bits_of;
use lists::added;
use statement::{Answer, Outcome};
use std::io;

// The sum of the bits of the first m, or of all where there are fewer.
pub fn sum(list: &[f64], m: usize) -> u64 {
    list.iter().take(m).fold(0, |h, x| added(h, bits_of(*x)))
}

// Number, details, state, supernodes, entries, the values' sum; the number that solve answers, and the solution's sum.
pub fn print(rt: &impl Print, x: Outcome, l: u64, solved: Answer, b: u64) -> io::Result<()> {
    let a = x.answer;
    let r = x.record;
    println!(rt;
        "factor {} {} {} {} {} {} {l:016x} solve {} {b:016x}",
        number(a),
        first_detail(a),
        second_detail(a),
        r.state as usize,
        r.supernodes,
        r.entries,
        number(solved)
    )
}
