// The end of a call that passes: the split into tasks, the record, and the last clearing.
#![tactic(auto)]

ghost use Rattle.std.specs.Prelude.{◌≡◌, cond, ◌+◌, ◌*◌, ◌≤◌, ltb, length, replicate, drop};
ghost use Rattle.statement.specs.Input.{+0};
ghost use Rattle.statement.specs.Shape.{Shape, supernodes};
ghost use Rattle.statement.specs.Tasks.{split_of};
ghost use Rattle.statement.specs.Calls.{stop_of};
ghost use Rattle.tasks.specs.Given.{Sized, Above, Given, Parts};

use areas::clear;
use order::stage;
use statement::{Record, Stage, Stop};
use survey::Findings;
use tasks::split;

// The tasks and the top of what was found, the record that says so, and clear scratch.
pub fn close(
    found: Findings,
    n: usize,
    stop: Stop,
    firsts: &[usize],
    starts: &[usize],
    tasks: &mut [usize],
    top: &mut [usize],
    words: &mut [usize],
    floats: &mut [f64],
) -> Record
    requires n_in_bounds { (n ≤ length tasks.old) × Sized found.supernodes firsts.now starts.now × Above found.supernodes (drop n tasks.old) }
    requires ns_bound { (found.supernodes ≤ 32768) × (3 * found.supernodes + 3 ≤ length words.old) }
    requires ns_in_bounds { (2 * found.supernodes ≤ length tasks.old) × (found.supernodes ≤ length top.old) }
    ensures counted { result ≡ record { state = result.state; n = n; supernodes = found.supernodes; rows = found.rows; updates = found.updates; tasks = result.tasks; top = result.top; entries = found.entries; work = found.work } }
    ensures state { (S : Shape) → supernodes S ≡ found.supernodes → result.state ≡ cond (ltb (stop_of S stop) found.supernodes) Stage.Partial Stage.Full }
    ensures parts { (S : Shape) → Given S found.supernodes firsts.now starts.now (drop n tasks.old) → Parts (split_of S) tasks.old top.old tasks.new top.new result.tasks result.top }
    ensures cleared { (words.new ≡ replicate (length words.old) 0) × (floats.new ≡ replicate (length floats.old) +0) }
{
    let cuts = split(n, found.supernodes, firsts, starts, tasks, top, words);
    clear(words);
    clear(floats);
    Record {
        state: stage(found.supernodes, stop),
        n,
        supernodes: found.supernodes,
        rows: found.rows,
        updates: found.updates,
        tasks: cuts.tasks,
        top: cuts.top,
        entries: found.entries,
        work: found.work,
    }
}
