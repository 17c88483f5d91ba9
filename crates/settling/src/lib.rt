// From where the run can start to what factor leaves: the updates laid, the run, number 9, and the end; or, where something is refused, areas that
// are cleared.
#![tactic(auto)]

ghost use Rattle.std.specs.Prelude.{◌≡◌, length, replicate, IfOk, IfErr};
ghost use Rattle.std.proofs.Math.Option.{some};
ghost use Rattle.statement.specs.Calls.{factor};
ghost use Rattle.views.specs.Shown.{matrix_of};
ghost use Rattle.statement.specs.Areas.{no_update};
ghost use Rattle.statement.specs.Record.{empty_record};
ghost use Rattle.clearing.specs.Zeroed.{Zeroed};
ghost use Rattle.begin.specs.Begun.{lent_all, begin_fault, zero_floats, Prepared};
ghost use Rattle.finish.specs.Filled.{fault_of, FactorSettles};

use answers::{pivot_answer, refused};
use areas::clear;
use clearing::clear_all;
use finish::close;
use listing::lay;
use order::stop_at;
use run::run;
use statement::{Answer, Order, Outcome, Record, Stop, Update};
use survey::Findings;
use views::{Matrix, Structure};

// The values and the rest of the areas, and what was counted, or number 9: of what that leaves in the areas nothing is said. cap, the order and the
// list only name the call.
fn fill(
    found: Findings,
    matrix: &Matrix<'_>,
    cap: usize,
    order: Order,
    list: &[usize],
    stop: Stop,
    permutation: &[usize],
    firsts: &[usize],
    starts: &[usize],
    groups: &[usize],
    tasks: &mut [usize],
    top: &mut [usize],
    words: &mut [usize],
    floats: &mut [f64],
    rows: &[usize],
    updates: &mut [Update],
    values: &mut [f64],
) -> Result<Record, Answer>
    requires prepared { Prepared (matrix_of matrix.now) cap order list.now stop (lent_all (length permutation.now) (length firsts.now) (length starts.now) (length groups.now) (length tasks.old) (length top.old) (length words.old) (length floats.old) (length rows.now) (length updates.old) (length values.old)) found permutation.now firsts.now starts.now groups.now tasks.old words.old floats.old rows.now values.old }
    ensures filled { IfOk result (λ x. FactorSettles (factor (matrix_of matrix.now) cap order list.now stop (lent_all (length permutation.now) (length firsts.now) (length starts.now) (length groups.now) (length tasks.old) (length top.old) (length words.old) (length floats.old) (length rows.now) (length updates.old) (length values.old))) (record { answer = Answer.Accepted; «record» = x }) permutation.now firsts.now starts.now groups.now tasks.new top.new words.new floats.new rows.now updates.new values.new) }
    ensures refused { IfErr result (λ a. fault_of (matrix_of matrix.now) cap order list.now stop (lent_all (length permutation.now) (length firsts.now) (length starts.now) (length groups.now) (length tasks.old) (length top.old) (length words.old) (length floats.old) (length rows.now) (length updates.old) (length values.old)) ≡ some a) }
{
    let n = matrix.n;
    let structure = Structure {
        n,
        firsts,
        starts,
        rows,
    };
    lay(matrix, found.supernodes, &structure, words, updates);
    let least = run(
        stop_at(found.supernodes, stop),
        found.supernodes,
        matrix.rows.len(),
        found.entries,
        &structure,
        groups,
        updates,
        words,
        floats,
        values,
    );
    pivot_answer(least, permutation)?;
    Ok(close(found, n, stop, firsts, starts, tasks, top, words, floats))
}

// A refusal: an empty record, and zeros in every area.
fn cleared(
    a: Answer,
    permutation: &mut [usize],
    firsts: &mut [usize],
    starts: &mut [usize],
    groups: &mut [usize],
    tasks: &mut [usize],
    top: &mut [usize],
    words: &mut [usize],
    floats: &mut [f64],
    rows: &mut [usize],
    updates: &mut [Update],
    values: &mut [f64],
) -> Outcome
    ensures outcome { (result.answer ≡ a) × (result.«record» ≡ empty_record) }
    ensures zeroed { Zeroed permutation.old firsts.old starts.old groups.old tasks.old top.old words.old rows.old permutation.new firsts.new starts.new groups.new tasks.new top.new words.new rows.new }
    ensures floats_after { (floats.new ≡ zero_floats (length floats.old)) × (values.new ≡ zero_floats (length values.old)) }
    ensures updates_after { updates.new ≡ replicate (length updates.old) no_update }
{
    clear_all(
        permutation,
        firsts,
        starts,
        groups,
        tasks,
        top,
        words,
        floats,
        rows,
        values,
    );
    clear(updates);
    refused(a)
}

// Where the run can start it goes on; where something was refused, before it or by it, every area is cleared.
pub fn settle(
    begun: Result<Findings, Answer>,
    matrix: &Matrix<'_>,
    cap: usize,
    order: Order,
    list: &[usize],
    stop: Stop,
    permutation: &mut [usize],
    firsts: &mut [usize],
    starts: &mut [usize],
    groups: &mut [usize],
    tasks: &mut [usize],
    top: &mut [usize],
    words: &mut [usize],
    floats: &mut [f64],
    rows: &mut [usize],
    updates: &mut [Update],
    values: &mut [f64],
) -> Outcome
    requires begun { IfOk begun (λ x. Prepared (matrix_of matrix.now) cap order list.now stop (lent_all (length permutation.old) (length firsts.old) (length starts.old) (length groups.old) (length tasks.old) (length top.old) (length words.old) (length floats.old) (length rows.old) (length updates.old) (length values.old)) x permutation.old firsts.old starts.old groups.old tasks.old words.old floats.old rows.old values.old) }
    requires refused { IfErr begun (λ a. begin_fault (matrix_of matrix.now) cap order list.now stop (lent_all (length permutation.old) (length firsts.old) (length starts.old) (length groups.old) (length tasks.old) (length top.old) (length words.old) (length floats.old) (length rows.old) (length updates.old) (length values.old)) ≡ some a) }
    ensures { FactorSettles (factor (matrix_of matrix.now) cap order list.now stop (lent_all (length permutation.old) (length firsts.old) (length starts.old) (length groups.old) (length tasks.old) (length top.old) (length words.old) (length floats.old) (length rows.old) (length updates.old) (length values.old))) result permutation.new firsts.new starts.new groups.new tasks.new top.new words.new floats.new rows.new updates.new values.new }
{
    match begun {
        Ok(found) => match fill(
            found,
            matrix,
            cap,
            order,
            list,
            stop,
            permutation,
            firsts,
            starts,
            groups,
            tasks,
            top,
            words,
            floats,
            rows,
            updates,
            values,
        ) {
            Ok(record) => Outcome {
                answer: Answer::Accepted,
                record,
            },
            Err(a) => cleared(
                a,
                permutation,
                firsts,
                starts,
                groups,
                tasks,
                top,
                words,
                floats,
                rows,
                updates,
                values,
            ),
        },
        Err(a) => cleared(
            a,
            permutation,
            firsts,
            starts,
            groups,
            tasks,
            top,
            words,
            floats,
            rows,
            updates,
            values,
        ),
    }
}
