// The second call: structure and values of a matrix's factor, in lent areas. These stay single slices all the way down: C lends them so, and a struct of
// lent `&mut` slices needs, in each contract, a clause for each field that it is still the caller's.
#![tactic(auto)]

ghost use Rattle.std.specs.Prelude.{length};
ghost use Rattle.statement.specs.Input.{matrix};
ghost use Rattle.statement.specs.Calls.{Factors};

use begin::begin;
use settling::settle;
use statement::{Order, Outcome, Stop, Update};
use views::Matrix;

// The factor of a matrix with n columns, if it has at most cap entries, in the plain order or that of the list, stopped where it is
// said. Refused: an empty record, and zeros in every area.
pub fn factor(
    n: usize,
    input_starts: &[usize],
    input_rows: &[usize],
    input_values: &[f64],
    cap: usize,
    order: Order,
    list: &[usize],
    stop: Stop,
    permutation: &mut [usize],
    firsts: &mut [usize],
    starts: &mut [usize],
    groups: &mut [usize],
    tasks: &mut [usize],
    top: &mut [usize],
    words: &mut [usize],
    floats: &mut [f64],
    rows: &mut [usize],
    updates: &mut [Update],
    values: &mut [f64],
) -> Outcome
    ensures { Factors (matrix n input_starts.now input_rows.now input_values.now) cap order list.now stop (record { permutation = length permutation.entry.now; firsts = length firsts.old; starts = length starts.old; groups = length groups.old; tasks = length tasks.old; top = length top.old; words = length words.old; floats = length floats.old; rows = length rows.old; updates = length updates.old; values = length values.old }) (record { returned = result; areas = record { permutation = permutation.exit.now; firsts = firsts.new; starts = starts.new; groups = groups.new; tasks = tasks.new; top = top.new; words = words.new; floats = floats.new; rows = rows.new; updates = updates.new; values = values.new } }) }
{
    let matrix = Matrix {
        n,
        starts: input_starts,
        rows: input_rows,
        values: input_values,
    };
    let begun = begin(
        &matrix,
        cap,
        order,
        list,
        stop,
        updates.len(),
        permutation,
        firsts,
        starts,
        groups,
        tasks,
        top,
        words,
        floats,
        rows,
        values,
    );
    settle(
        begun,
        &matrix,
        cap,
        order,
        list,
        stop,
        permutation,
        firsts,
        starts,
        groups,
        tasks,
        top,
        words,
        floats,
        rows,
        updates,
        values,
    )
}
