// The structure of a matrix, from the input to the areas: every test of the analysis, and then the lists.
#![tactic(auto)]

ghost use Rattle.std.specs.Prelude.{◌≡◌, ◌++◌, ◌≤◌, length, take, drop, IfOk, IfErr};
ghost use Rattle.std.proofs.Math.Option.{some};
ghost use Rattle.views.specs.Shown.{matrix_of};
ghost use Rattle.survey.specs.Laid.{structure_fault, Laid, Blank};

use analysis::build;
use clearing::clear_behind;
use measure::measure;
use parts::copy;
use statement::{Answer, Room};
use views::Matrix;

// What was counted.
#[derive(Clone, Copy)]
pub struct Findings {
    pub supernodes: usize,
    pub rows: usize,
    pub updates: usize,
    pub entries: usize,
    pub work: usize,
}

// Where the updates of the first ns targets start, to the front of a part of the words.
fn put_starts(ns: usize, groups: &[usize], to: &mut [usize])
    requires { (ns ≤ length groups.now) × (ns ≤ length to.old) }
    ensures { to.new ≡ take ns groups.now ++ drop ns to.old }
{
    copy(&mut to[..ns], &groups[..ns]);
}

// Areas 1 to 6 are zero before. Where it passes the areas hold the structure and zeros behind it, tasks the places of the columns and then the
// supernodal parents, words the supernode of each column and where each target's updates start; top is scratch.
pub fn survey(
    matrix: &Matrix<'_>,
    cap: usize,
    room: Room,
    permutation: &mut [usize],
    firsts: &mut [usize],
    starts: &mut [usize],
    groups: &mut [usize],
    tasks: &mut [usize],
    top: &mut [usize],
    words: &mut [usize],
    rows: &mut [usize],
) -> Result<Findings, Answer>
    requires { Blank room permutation.old firsts.old starts.old groups.old tasks.old top.old words.old rows.old }
    ensures passed { IfOk result (λ x. Laid (matrix_of matrix.now) cap room x permutation.new firsts.new starts.new groups.new tasks.new words.new rows.new) }
    ensures refused { IfErr result (λ a. structure_fault (matrix_of matrix.now) cap room ≡ some a) }
{
    let found = measure(matrix, cap, room, groups, tasks, top)?;
    let n = matrix.n;
    let owners = 5 * n + 1;
    let counts = build(
        &found.columns,
        found.entries,
        room,
        permutation,
        firsts,
        starts,
        groups,
        tasks,
        top,
        &mut words[owners..],
        rows,
    )?;
    put_starts(counts.supernodes, groups, &mut words[n + 1..]);
    clear_behind(counts.rows, rows);
    Ok(Findings {
        supernodes: counts.supernodes,
        rows: counts.rows,
        updates: counts.updates,
        entries: found.entries,
        work: found.work,
    })
}
