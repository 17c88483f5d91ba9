// The job program (document 01, "Job frames"): reads standard input into a buffer, and writes what `answer_text` leaves.
#![tactic(auto)]

ghost use Rattle.std.specs.Prelude.{◌≡◌, List, ℕ, min, OnOk, IfSome};
ghost use Rattle.std.specs.Io.KnownBytes.{Appends};
ghost use Rattle.statement.specs.Job.{job, ReadIn, Works};

use anyhow::Context;
use jobs::run_job;
use lists::read_full;
use std::io::{Read, Write};

// As many bytes of a text as decide its answer: what follows them changes none.
const TEXT_LIMIT: usize = 113555;

// Answers a text of which the first k bytes were read into the buffer: all of them, or as many as it holds.
fn answer_text(buffer: &[u8; TEXT_LIMIT], k: usize, out: &mut [u8; 2959]) -> usize
    ensures { (text : List ℕ) → ReadIn text buffer.now k → Works text out.entry.now (record { out = out.exit.now; bytes = result }) }
{
    let bytes: &[u8] = buffer;
    run_job(&bytes[..k.min(bytes.len())], out)
}

// Reads a text and writes its answer.
fn answer<R: Read, W: Write>(input: &mut R, output: &mut W) -> anyhow::Result<()>
    ensures { OnOk result (IfSome (R.remaining input.old) (λ text. Appends (W.contents output.old) (W.contents output.new) (job text))) }
{
    let mut buffer = [0u8; TEXT_LIMIT];
    let mut out = [0u8; 2959];
    let k = read_full(input, &mut buffer).context("job: standard input")?;
    let r = answer_text(&buffer, k, &mut out);
    output.write_all(&out[..r]).context("job: standard output")?;
    Ok(())
}

fn main(rt: HostRuntime) -> anyhow::Result<()> {
    answer(&mut rt.stdin(), &mut rt.stdout())
}
