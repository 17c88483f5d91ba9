// From the input to where the run can start: the structure, number 8, and the run's scratch.
#![tactic(auto)]

ghost use Rattle.std.specs.Prelude.{◌≡◌, ◌+◌, ◌*◌, ◌≤◌, length, OnOk, IfOk, IfErr};
ghost use Rattle.std.proofs.Math.Option.{some};
ghost use Rattle.views.specs.Shown.{matrix_of};
ghost use Rattle.ready.specs.Known.{Known, Kept};
ghost use Rattle.begin.specs.Begun.{lent_all, begin_fault, Prepared};
ghost use Rattle.begin.specs.Ordered.{order_test, Ordered};

use areas::clear;
use clearing::clear_lists;
use order::{names, order_fault, stop_at};
use ready::Analysed;
use statement::{Answer, Order, Room, Stop};
use survey::{Findings, survey};
use views::Matrix;

// Number 8, and where it passes what the run reads: the scratch, and from 8n + 1 on the supernodes in the order of the run.
fn prepare(
    found: &Analysed<'_>,
    order: Order,
    list: &[usize],
    stop: Stop,
    top: &mut [usize],
    words: &mut [usize],
    floats: &mut [f64],
) -> Result<(), Answer>
    requires known { Known (matrix_of found.now.matrix) found.now.ns found.now.permutation.now found.now.firsts.now found.now.starts.now found.now.tasks.now }
    requires n_in_bounds { (found.now.matrix.n ≤ length top.old) × (24 * found.now.matrix.n + length found.now.matrix.rows.now + 24 ≤ length words.old) × (length found.now.matrix.rows.now + found.now.matrix.n ≤ length floats.old) }
    ensures ordered { OnOk result (Ordered (matrix_of found.now.matrix) order list.now stop found.now.ns words.new floats.new × Kept found.now.matrix.n words.old words.new) }
    ensures refused { IfErr result (λ a. order_test (matrix_of found.now.matrix) order list.now stop ≡ some a) }
{
    let n = found.matrix.n;
    let m = n + 1;
    order_fault(
        found.ns,
        order,
        list,
        stop,
        &found.tasks[n..],
        &mut words[..m],
    )?;
    found.ready(top, words, floats);
    let at = 8 * n + 1;
    names(order, list, stop_at(found.ns, stop), &mut words[at..]);
    Ok(())
}

// The structure, number 8, and what the run reads, or the first fault. Areas 1 to 6 and the values are cleared before; area 9 is written whole,
// and of the scratch nothing is read that was not written here. long is area 10's length. Where it is refused, what it leaves in the areas is not
// said.
pub fn begin(
    matrix: &Matrix<'_>,
    cap: usize,
    order: Order,
    list: &[usize],
    stop: Stop,
    long: usize,
    permutation: &mut [usize],
    firsts: &mut [usize],
    starts: &mut [usize],
    groups: &mut [usize],
    tasks: &mut [usize],
    top: &mut [usize],
    words: &mut [usize],
    floats: &mut [f64],
    rows: &mut [usize],
    values: &mut [f64],
) -> Result<Findings, Answer>
    ensures begun { IfOk result (λ x. Prepared (matrix_of matrix.now) cap order list.now stop (lent_all (length permutation.old) (length firsts.old) (length starts.old) (length groups.old) (length tasks.old) (length top.old) (length words.old) (length floats.old) (length rows.old) long (length values.old)) x permutation.new firsts.new starts.new groups.new tasks.new words.new floats.new rows.new values.new) }
    ensures refused { IfErr result (λ a. begin_fault (matrix_of matrix.now) cap order list.now stop (lent_all (length permutation.old) (length firsts.old) (length starts.old) (length groups.old) (length tasks.old) (length top.old) (length words.old) (length floats.old) (length rows.old) long (length values.old)) ≡ some a) }
{
    let room = Room {
        permutation: permutation.len(),
        firsts: firsts.len(),
        starts: starts.len(),
        groups: groups.len(),
        tasks: tasks.len(),
        top: top.len(),
        words: words.len(),
        floats: floats.len(),
        rows: rows.len(),
        updates: long,
        values: values.len(),
    };
    clear_lists(permutation, firsts, starts, groups, tasks, top);
    clear(values);
    let x = survey(
        matrix,
        cap,
        room,
        permutation,
        firsts,
        starts,
        groups,
        tasks,
        top,
        words,
        rows,
    )?;
    let found = Analysed {
        matrix: *matrix,
        ns: x.supernodes,
        permutation,
        firsts,
        starts,
        tasks,
    };
    prepare(&found, order, list, stop, top, words, floats)?;
    Ok(x)
}
