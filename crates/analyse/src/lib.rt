// The first call: the structure of a matrix's factor, in lent areas. These stay single slices all the way down: C lends them so, and a struct of
// lent `&mut` slices needs, in each contract, a clause for each field that it is still the caller's.
#![tactic(auto)]

ghost use Rattle.std.specs.Prelude.{[], length, IfOk, IfErr, ◌≡◌};
ghost use Rattle.std.proofs.Math.Option.{some};
ghost use Rattle.statement.specs.Input.{matrix};
ghost use Rattle.statement.specs.Calls.{analyse, Analyses};
ghost use Rattle.views.specs.Shown.{matrix_of};
ghost use Rattle.survey.specs.Laid.{structure_fault};
ghost use Rattle.survey.specs.Settles.{Settles};
ghost use Rattle.analyse.specs.Lent.{lent_structure};

use answers::refused;
use areas::clear;
use clearing::{clear_lists, clear_structure};
use listing::lay;
use statement::{Answer, Outcome, Record, Room, Stage, Update};
use survey::survey;
use tasks::split;
use views::{Matrix, Structure};

// More room than any well-formed matrix needs: analyse has no areas 8 and 11, so that these are never short.
const AMPLE: usize = 1099511627776;

// The structure, in the areas, and what was counted, or the first fault: of what a refusal leaves in the areas nothing is said.
fn make(
    matrix: &Matrix<'_>,
    cap: usize,
    permutation: &mut [usize],
    firsts: &mut [usize],
    starts: &mut [usize],
    groups: &mut [usize],
    tasks: &mut [usize],
    top: &mut [usize],
    words: &mut [usize],
    rows: &mut [usize],
    updates: &mut [Update],
) -> Result<Record, Answer>
    ensures made { IfOk result (λ x. Settles (analyse (matrix_of matrix.now) cap (lent_structure (length permutation.old) (length firsts.old) (length starts.old) (length groups.old) (length tasks.old) (length top.old) (length words.old) (length rows.old) (length updates.old))) (record { answer = Answer.Accepted; «record» = x }) permutation.new firsts.new starts.new groups.new tasks.new top.new words.new rows.new updates.new) }
    ensures refused { IfErr result (λ a. structure_fault (matrix_of matrix.now) cap (lent_structure (length permutation.old) (length firsts.old) (length starts.old) (length groups.old) (length tasks.old) (length top.old) (length words.old) (length rows.old) (length updates.old)) ≡ some a) }
{
    let room = Room {
        permutation: permutation.len(),
        firsts: firsts.len(),
        starts: starts.len(),
        groups: groups.len(),
        tasks: tasks.len(),
        top: top.len(),
        words: words.len(),
        floats: AMPLE,
        rows: rows.len(),
        updates: updates.len(),
        values: AMPLE,
    };
    clear_lists(permutation, firsts, starts, groups, tasks, top);
    let found = survey(
        matrix,
        cap,
        room,
        permutation,
        firsts,
        starts,
        groups,
        tasks,
        top,
        words,
        rows,
    )?;
    let n = matrix.n;
    let structure = Structure {
        n,
        firsts,
        starts,
        rows,
    };
    lay(matrix, found.supernodes, &structure, words, updates);
    let cuts = split(n, found.supernodes, firsts, starts, tasks, top, words);
    words.fill(0);
    Ok(Record {
        state: Stage::Analysed,
        n,
        supernodes: found.supernodes,
        rows: found.rows,
        updates: found.updates,
        tasks: cuts.tasks,
        top: cuts.top,
        entries: found.entries,
        work: found.work,
    })
}

// The structure of the factor of a matrix with n columns, if it has at most cap entries. Refused: an empty record, and
// zeros in every area.
pub fn analyse(
    n: usize,
    input_starts: &[usize],
    input_rows: &[usize],
    input_values: &[f64],
    cap: usize,
    permutation: &mut [usize],
    firsts: &mut [usize],
    starts: &mut [usize],
    groups: &mut [usize],
    tasks: &mut [usize],
    top: &mut [usize],
    words: &mut [usize],
    rows: &mut [usize],
    updates: &mut [Update],
) -> Outcome
    ensures { Analyses (matrix n input_starts.now input_rows.now input_values.now) cap (record { permutation = length permutation.entry.now; firsts = length firsts.old; starts = length starts.old; groups = length groups.old; tasks = length tasks.old; top = length top.old; words = length words.old; floats = 0; rows = length rows.old; updates = length updates.old; values = 0 }) (record { returned = result; areas = record { permutation = permutation.exit.now; firsts = firsts.new; starts = starts.new; groups = groups.new; tasks = tasks.new; top = top.new; words = words.new; floats = []; rows = rows.new; updates = updates.new; values = [] } }) }
{
    let matrix = Matrix {
        n,
        starts: input_starts,
        rows: input_rows,
        values: input_values,
    };
    match make(
        &matrix,
        cap,
        permutation,
        firsts,
        starts,
        groups,
        tasks,
        top,
        words,
        rows,
        updates,
    ) {
        Ok(record) => Outcome {
            answer: Answer::Accepted,
            record,
        },
        Err(a) => {
            clear_structure(permutation, firsts, starts, groups, tasks, top, words, rows);
            clear(updates);
            refused(a)
        }
    }
}
