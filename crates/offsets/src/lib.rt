// Where the supernodes' stretches start in the values.
#![tactic(auto)]

ghost use Rattle.std.specs.Prelude.{◌≡◌, ◌++◌, ◌≤◌, length, drop};
ghost use Rattle.statement.specs.Lists.{list};
ghost use Rattle.statement.specs.Shape.{Shape, offset};
ghost use Rattle.offsets.specs.Lent.{Rising, Of};

use panel::column_start;

// The first ns of to are the starts of the ns stretches, and the end of the last is returned.
pub fn offsets(ns: usize, firsts: &[usize], starts: &[usize], to: &mut [usize]) -> usize
    requires rising { Rising firsts.now starts.now ns }
    requires ns_in_bounds { ns ≤ length to.old }
    ensures value { (S : Shape) → Of S firsts.now starts.now ns → result ≡ offset S ns }
    ensures to_after { (S : Shape) → Of S firsts.now starts.now ns → to.new ≡ list (offset S) ns ++ drop ns to.old }
{
    let mut at = 0;
    for k in 0..ns {
        to[k] = at;
        let m = starts[k + 1] - starts[k];
        let w = firsts[k + 1] - firsts[k];
        at += column_start(m, w);
    }
    at
}
