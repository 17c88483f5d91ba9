// A job, from its text to the text of its answer.
#![tactic(auto)]

ghost use Rattle.std.specs.Prelude.{◌≡◌, ◌≤◌, length};
ghost use Rattle.statement.specs.Input.{matrix};
ghost use Rattle.statement.specs.Job.{Frames, whole, matrix_of, job_room, written, answer_in, Works};
ghost use Rattle.factor.specs.Filled.{lent_all};

use areas::Zero;
use factor::factor;
use frames::read_job;
use lines::put_refusal;
use reply::answer;
use statement::{Answer, Order, Stop, Update};

// Factors a job's matrix in lent areas, and as many updates as 01 gives a job, and answers it.
fn work_in(
    n: usize,
    input_starts: &[usize],
    input_rows: &[usize],
    input_values: &[f64],
    cap: usize,
    permutation: &mut [usize],
    firsts: &mut [usize],
    starts: &mut [usize],
    groups: &mut [usize],
    tasks: &mut [usize],
    top: &mut [usize],
    words: &mut [usize],
    floats: &mut [f64],
    rows: &mut [usize],
    values: &mut [f64],
    b: &mut [f64],
    out: &mut [u8; 2959],
) -> usize
    requires { length b.old ≤ 128 }
    ensures { (j : Frames) → matrix n input_starts.now input_rows.now input_values.now ≡ matrix_of j → cap ≡ j.cap → lent_all (length permutation.old) (length firsts.old) (length starts.old) (length groups.old) (length tasks.old) (length top.old) (length words.old) (length floats.old) (length rows.old) job_room.updates (length values.old) ≡ job_room → b.old ≡ j.b → record { out = out.exit.now; bytes = result } ≡ answer_in (written (whole j)) out.entry.now }
{
    let mut updates = [Update::zero(); 8256];
    let x = factor(
        n,
        input_starts,
        input_rows,
        input_values,
        cap,
        Order::Plain,
        &[],
        Stop::End,
        permutation,
        firsts,
        starts,
        groups,
        tasks,
        top,
        words,
        floats,
        rows,
        &mut updates,
        values,
    );
    answer(
        x,
        permutation,
        firsts,
        starts,
        rows,
        values,
        words,
        floats,
        b,
        out,
    )
}

// The same in areas as long as 01 gives a job.
fn work(
    n: usize,
    input_starts: &[usize],
    input_rows: &[usize],
    input_values: &[f64],
    cap: usize,
    b: &mut [f64],
    out: &mut [u8; 2959],
) -> usize
    requires { length b.old ≤ 128 }
    ensures { (j : Frames) → matrix n input_starts.now input_rows.now input_values.now ≡ matrix_of j → cap ≡ j.cap → b.old ≡ j.b → record { out = out.exit.now; bytes = result } ≡ answer_in (written (whole j)) out.entry.now }
{
    let mut permutation = [0; 128];
    let mut firsts = [0; 129];
    let mut starts = [0; 129];
    let mut groups = [0; 129];
    let mut tasks = [0; 256];
    let mut top = [0; 128];
    let mut words = [0; 7192];
    let mut floats = [0.0; 4224];
    let mut rows = [0; 8256];
    let mut values = [0.0; 8192];
    work_in(
        n,
        input_starts,
        input_rows,
        input_values,
        cap,
        &mut permutation,
        &mut firsts,
        &mut starts,
        &mut groups,
        &mut tasks,
        &mut top,
        &mut words,
        &mut floats,
        &mut rows,
        &mut values,
        b,
        out,
    )
}

// Writes the answer to a job at the start of `out`, and says how many bytes it has: at most 15, and 23 for each of 128 unknowns.
pub fn run_job(text: &[u8], out: &mut [u8; 2959]) -> usize
    ensures { Works text.now out.entry.now (record { out = out.exit.now; bytes = result }) }
{
    let mut starts = [0; 129];
    let mut rows = [0; 4096];
    let mut values = [0.0; 4096];
    let mut right = [0.0; 128];
    match read_job(text, &mut starts, &mut rows, &mut values, &mut right) {
        Ok(job) => work(
            job.n,
            &starts[..job.n + 1],
            &rows[..job.entries],
            &values[..job.entries],
            job.cap,
            &mut right[..job.n],
            out,
        ),
        Err(fault) => put_refusal(out, Answer::WrongFrame { line: fault.line }),
    }
}
