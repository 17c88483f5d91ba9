// Compares whole jobs with the Rust's: standard input is a list of jobs, and the list of their answers is written. The two
// are what the Rust's judge read and wrote (tests/replay). An item of a list is its length as eight digits, LF, its bytes,
// LF; one that cannot stand, or has more than 131,071 bytes, ends the program.
#![tactic(auto)]

use anyhow::{Context, Result};
use frame::value;
use jobs::run_job;
use lines::put_hex;
use lists::{read_full, say};
use std::io;
use std::io::Read;

// The length that an item's first line says, where it says one.
fn length(line: &[u8; 9]) -> Option<usize> {
    if line[8] != b'\n' {
        return None;
    }
    Some(value(&line[..8])? as usize)
}

fn cannot_stand(rt: &impl Eprint) -> Result<bool> {
    eprintln!(rt; "replay: an item cannot stand")?;
    Ok(false)
}

// Writes an answer as an item.
fn write_item(rt: &impl Print, answer: &[u8]) -> io::Result<()> {
    let mut line = [b'\n'; 9];
    put_hex(&mut line, 0, 8, answer.len() as u64);
    say(rt, &line)?;
    say(rt, answer)?;
    say(rt, b"\n")
}

fn answer(rt: &impl Print, job: &[u8]) -> Result<()> {
    let mut out = [0u8; 2959];
    let r = run_job(job, &mut out);
    write_item(rt, &out[..r]).context("replay: standard output")
}

// Reads the k bytes of an item and its LF into the text, and answers it.
fn answer_rest(
    rt: &(impl Print + Eprint),
    input: &mut impl Read,
    text: &mut [u8],
    k: usize,
) -> Result<bool> {
    if k >= text.len() {
        return cannot_stand(rt);
    }
    if read_full(input, &mut text[..k + 1]).context("replay: standard input")? <= k {
        return cannot_stand(rt);
    }
    if text[k] != b'\n' {
        return cannot_stand(rt);
    }
    answer(rt, &text[..k])?;
    Ok(true)
}

// Answers one item, and says whether to go on: a Result for what failed, and a bool, since an Option<()> in it would say no more.
fn answer_next(rt: &(impl Print + Eprint), input: &mut impl Read) -> Result<bool> {
    let mut line = [0u8; 9];
    if read_full(input, &mut line).context("replay: standard input")? == 0 {
        return Ok(false);
    }
    let mut text = [0u8; 131072];
    match length(&line) {
        Some(k) => answer_rest(rt, input, &mut text, k),
        None => cannot_stand(rt),
    }
}

// A proved loop has to end, and nothing says that the input does.
fn main(rt: HostRuntime) -> Result<()> {
    let mut input = rt.stdin();
    for _ in 0..u64::MAX {
        if !answer_next(&rt, &mut input)? {
            break;
        }
    }
    Ok(())
}
