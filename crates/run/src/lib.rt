// The run of supernodes in order: one turn after the other, each with its updates copied among the words.
#![tactic(auto)]

ghost use Rattle.std.specs.Prelude.{◌-◌, ◌≤◌, ◌<◌, length, IfSome};
ghost use Rattle.updates.specs.Layout.{owners_at};
ghost use Rattle.turn.specs.Run.{RunReady, RunLeft};
ghost use Rattle.answers.specs.Least.{least_of};
ghost use Rattle.run.specs.Fetch.{Brought};

use statement::{Factored, Update};
use turn::{group, group_end, keep, name, turn};
use views::Structure;

// The updates from lo below hi, three words each.
fn fetch(lo: usize, hi: usize, n: usize, us: &[Update], words: &mut [usize])
    requires { (lo ≤ hi) × (hi ≤ length us.now) × (hi - lo ≤ n) × (owners_at n ≤ length words.old) }
    ensures { Brought lo (hi - lo) n us.now words.old words.new }
{
    for i in lo..hi {
        keep(us[i], i, lo, n, words);
    }
}

// The first steps supernodes that are named among the words, one turn each; the flags are clear before. A's values are the first a floats, the
// work space stands after them. The least failing column, if any.
pub fn run(
    steps: usize,
    ns: usize,
    a: usize,
    entries: usize,
    structure: &Structure<'_>,
    groups: &[usize],
    us: &[Update],
    words: &mut [usize],
    floats: &mut [f64],
    values: &mut [f64],
) -> Option<Factored>
    requires { 0 < steps → RunReady steps ns structure.now.n a entries structure.now.firsts.now structure.now.starts.now structure.now.rows.now groups.now us.now words.old floats.old values.old }
    ensures left { RunLeft steps structure.now.n a entries structure.now.firsts.now structure.now.starts.now structure.now.rows.now words.old floats.old values.old values.new (least_of structure.now.n result) }
    ensures below { IfSome result (λ c. c.0 < structure.now.n) }
{
    if steps == 0 {
        return None;
    }
    let (matrix, work) = floats.split_at_mut(a);
    let mut least = None;
    for p in 0..steps {
        let j = name(structure.n, p, words);
        fetch(
            group(j, groups),
            group_end(j, groups),
            structure.n,
            us,
            words,
        );
        least = turn(
            j, least, ns, entries, structure, groups, words, matrix, work, values,
        );
    }
    least
}
