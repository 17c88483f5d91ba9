// The four calls for programs in C and Rust: the static library. What crosses, and what each word means, is in `crossing`.
#![tactic(auto)]

ghost use Rattle.std.specs.Prelude.{[], length};
ghost use Rattle.statement.specs.Input.{matrix};
ghost use Rattle.statement.specs.Calls.{analyse, factor};
ghost use Rattle.statement.specs.Solve.{solve, view};
ghost use Rattle.crossing.specs.Words.{order_said, stop_said, record_said};
ghost use Rattle.exports.specs.Crossed.{Crossed, SolveCrossed, ColumnCrossed};

use analyse::analyse;
use answers::number;
use crossing::{answer_words, cross, hand, order_of, record_of, stop_of};
use factor::factor;
use solve::{column, solve};
use statement::{Factored, Update};

// analyse; the number is returned, and results has the words of the outcome.
#[unsafe(no_mangle)]
pub extern "C" fn nosebagged_analyse(
    n: usize,
    input_starts: &[usize],
    input_rows: &[usize],
    input_values: &[f64],
    cap: usize,
    permutation: &mut [usize],
    firsts: &mut [usize],
    starts: &mut [usize],
    groups: &mut [usize],
    tasks: &mut [usize],
    top: &mut [usize],
    words: &mut [usize],
    rows: &mut [usize],
    updates: &mut [Update],
    results: &mut [usize; 12],
) -> usize
    ensures { Crossed (analyse (matrix n input_starts.now input_rows.now input_values.now) cap (record { permutation = length permutation.entry.now; firsts = length firsts.old; starts = length starts.old; groups = length groups.old; tasks = length tasks.old; top = length top.old; words = length words.old; floats = 0; rows = length rows.old; updates = length updates.old; values = 0 })) result results.new (record { permutation = permutation.exit.now; firsts = firsts.new; starts = starts.new; groups = groups.new; tasks = tasks.new; top = top.new; words = words.new; floats = []; rows = rows.new; updates = updates.new; values = [] }) }
{
    let found = analyse(
        n,
        input_starts,
        input_rows,
        input_values,
        cap,
        permutation,
        firsts,
        starts,
        groups,
        tasks,
        top,
        words,
        rows,
        updates,
    );
    cross(found, results)
}

// factor, in the order and up to the stop that the words say.
#[unsafe(no_mangle)]
pub extern "C" fn nosebagged_factor(
    n: usize,
    input_starts: &[usize],
    input_rows: &[usize],
    input_values: &[f64],
    cap: usize,
    order: usize,
    list: &[usize],
    stop: usize,
    permutation: &mut [usize],
    firsts: &mut [usize],
    starts: &mut [usize],
    groups: &mut [usize],
    tasks: &mut [usize],
    top: &mut [usize],
    words: &mut [usize],
    floats: &mut [f64],
    rows: &mut [usize],
    updates: &mut [Update],
    values: &mut [f64],
    results: &mut [usize; 12],
) -> usize
    ensures { Crossed (factor (matrix n input_starts.now input_rows.now input_values.now) cap (order_said order) list.now (stop_said stop) (record { permutation = length permutation.entry.now; firsts = length firsts.old; starts = length starts.old; groups = length groups.old; tasks = length tasks.old; top = length top.old; words = length words.old; floats = length floats.old; rows = length rows.old; updates = length updates.old; values = length values.old })) result results.new (record { permutation = permutation.exit.now; firsts = firsts.new; starts = starts.new; groups = groups.new; tasks = tasks.new; top = top.new; words = words.new; floats = floats.new; rows = rows.new; updates = updates.new; values = values.new }) }
{
    let o = order_of(order);
    let e = stop_of(stop);
    let made = factor(
        n,
        input_starts,
        input_rows,
        input_values,
        cap,
        o,
        list,
        e,
        permutation,
        firsts,
        starts,
        groups,
        tasks,
        top,
        words,
        floats,
        rows,
        updates,
        values,
    );
    cross(made, results)
}

// solve with the record in its nine words, for so many right sides; the number is returned, and answer has it with its details.
#[unsafe(no_mangle)]
pub extern "C" fn nosebagged_solve(
    record: &[usize; 9],
    permutation: &[usize],
    firsts: &[usize],
    starts: &[usize],
    rows: &[usize],
    values: &[f64],
    words: &mut [usize],
    floats: &mut [f64],
    sides: usize,
    b: &mut [f64],
    answer: &mut [usize; 3],
) -> usize
    ensures { SolveCrossed (solve (record_said «record».now) (record { permutation = permutation.entry.now; firsts = firsts.now; starts = starts.now; rows = rows.now; values = values.now }) sides b.old (length words.old) (length floats.old)) result answer.new words.new floats.new b.new }
{
    let a = solve(
        record_of(record),
        permutation,
        firsts,
        starts,
        rows,
        values,
        words,
        floats,
        sides,
        b,
    );
    let w = answer_words(a);
    *answer = w;
    number(a)
}

// The view. A reference cannot be returned to C, and where the part begins is not in the view's contract, so the column is copied
// to lent floats; its length is returned, and a caller that lends none learns it.
#[unsafe(no_mangle)]
pub extern "C" fn nosebagged_column(
    record: &[usize; 9],
    permutation: &[usize],
    firsts: &[usize],
    starts: &[usize],
    rows: &[usize],
    values: &[f64],
    q: usize,
    to: &mut [f64],
) -> usize
    ensures { ColumnCrossed (view (record_said «record».now) (record { permutation = permutation.entry.now; firsts = firsts.now; starts = starts.now; rows = rows.now; values = values.now }) (record { 0 = q })) (length to.old) result to.new }
{
    let part = column(
        record_of(record),
        permutation,
        firsts,
        starts,
        rows,
        values,
        Factored(q),
    );
    hand(part, to);
    part.len()
}
