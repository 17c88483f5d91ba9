// The tests before the structure is built: numbers 1 to 4, the lengths of areas 1 to 8, and the cap, for which the tree
// and the counts are found.
#![tactic(auto)]

ghost use Rattle.std.specs.Prelude.{◌≡◌, length, IfOk, IfErr};
ghost use Rattle.std.proofs.Math.Option.{some};
ghost use Rattle.measure.specs.Sized.{measure_fault, Sized};
ghost use Rattle.views.specs.Shown.{matrix_of, ColumnsOf};

use input::check;
use room::scratch;
use statement::{Answer, Room};
use tree::{entries, tree_and_counts, work};
use views::{Columns, Matrix};

// A matrix that passes: its columns, the entries of L, and the work figure.
#[derive(Clone, Copy)]
pub struct Measured<'a> {
    pub columns: Columns<'a>,
    pub entries: usize,
    pub work: usize,
}

// Where it passes, top has the parents of the columns and groups their counts.
pub fn measure<'a>(
    matrix: &Matrix<'a>,
    cap: usize,
    room: Room,
    groups: &mut [usize],
    tasks: &mut [usize],
    top: &mut [usize],
) -> Result<Measured<'a>, Answer>
    requires { (room.groups ≡ length groups.old) × (room.tasks ≡ length tasks.old) × (room.top ≡ length top.old) }
    ensures passed { IfOk result (λ x. ColumnsOf matrix.now x.columns × Sized (matrix_of matrix.now) cap room x.entries x.work groups.old tasks.old top.old groups.new tasks.new top.new) }
    ensures refused { IfErr result (λ a. measure_fault (matrix_of matrix.now) cap room ≡ some a) }
{
    let columns = check(matrix)?;
    let n = matrix.n;
    scratch(n, matrix.rows.len(), room)?;
    tree_and_counts(&columns, top, groups, tasks);
    let entries = entries(n, groups);
    if cap < entries {
        return Err(Answer::OverCap { entries, cap });
    }
    Ok(Measured {
        columns,
        entries,
        work: work(n, groups),
    })
}
