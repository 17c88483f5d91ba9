// A job's factor to the text of its answer.
#![tactic(auto)]

ghost use Rattle.std.specs.Prelude.{◌≡◌, ◌≤◌, length};
ghost use Rattle.statement.specs.Job.{Frames, whole, written, answer_in};
ghost use Rattle.laws.specs.Lent.{lent};
ghost use Rattle.reply.specs.Made.{Made};

use lines::{put_refusal, put_success};
use solve::solve;
use statement::{Answer, Outcome};

// Solves with a job's factor where there is one, and writes the answer.
pub fn answer(
    x: Outcome,
    permutation: &[usize],
    firsts: &[usize],
    starts: &[usize],
    rows: &[usize],
    values: &[f64],
    words: &mut [usize],
    floats: &mut [f64],
    b: &mut [f64],
    out: &mut [u8; 2959],
) -> usize
    requires { length b.old ≤ 128 }
    ensures { (j : Frames) → Made j x (lent permutation.now firsts.now starts.now rows.now values.now) b.old (length words.old) (length floats.old) → record { out = out.exit.now; bytes = result } ≡ answer_in (written (whole j)) out.entry.now }
{
    let a = x.answer;
    let Answer::Accepted = a else {
        return put_refusal(out, a);
    };
    let record = x.record;
    solve(
        record,
        permutation,
        firsts,
        starts,
        rows,
        values,
        words,
        floats,
        1,
        b,
    );
    put_success(out, record.entries, record.supernodes, b)
}
