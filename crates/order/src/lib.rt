// Number 8: the order list and the stop count, by which a factor is partial or full; and the names along which the run goes.
#![tactic(auto)]

ghost use Rattle.std.specs.Prelude.{◌≡◌, cond, ◌++◌, ◌≢◌, ℕ, suc, ◌-◌, ◌≤◌, ◌<◌, ltb, length, get_or, set, take, drop};
ghost use Rattle.statement.specs.Lists.{rising};
ghost use Rattle.statement.specs.Shape.{Shape, supernodes};
ghost use Rattle.statement.specs.Run.{order_fault};
ghost use Rattle.laws.specs.Answered.{passed};
ghost use Rattle.laws.specs.First.{first_below};
ghost use Rattle.statement.specs.Calls.{order_of, stop_of, wrong_position};
ghost use Rattle.order.specs.Waiting.{Above, Of, wrong_at};

use parts::copy;
use statement::{Answer, Order, Stage, Stop};
use supernodes::children;

// The stop count.
pub fn stop_at(ns: usize, stop: Stop) -> usize
    ensures { (S : Shape) → supernodes S ≡ ns → result ≡ stop_of S stop }
{
    match stop {
        Stop::End => ns,
        Stop::After(t) => t,
    }
}

// A factor that stops before the last supernode is partial.
pub fn stage(ns: usize, stop: Stop) -> Stage
    ensures { (S : Shape) → supernodes S ≡ ns → result ≡ cond (ltb (stop_of S stop) ns) Stage.Partial Stage.Full }
{
    if stop_at(ns, stop) < ns {
        Stage::Partial
    } else {
        Stage::Full
    }
}

// Supernode j is named: its count is never 0 again, and its parent waits for one less.
fn name(ns: usize, parents: &[usize], j: usize, left: &mut [usize])
    requires j_in_bounds { (j < length parents.now) × (j < length left.old) × (get_or parents.now j 0 < length left.old) }
    requires ns_in_bounds { (ns < length left.old) × (get_or parents.now j 0 ≢ j) × (0 < get_or left.old (get_or parents.now j 0) 0) }
    ensures { left.new ≡ set (set left.old j (suc ns)) (get_or parents.now j 0) (get_or left.old (get_or parents.now j 0) 0 - 1) }
{
    left[j] = ns + 1;
    left[parents[j]] -= 1;
}

// The first position whose entry may not stand there. In left, how many children each supernode waits for; slot ns has the roots.
fn first_bad(ns: usize, parents: &[usize], list: &[usize], left: &mut [usize]) -> Option<usize>
    requires parents_len { (length parents.now ≡ ns) × (length list.now ≡ ns) × (length left.old ≡ suc ns) }
    requires above { Above parents.now ns }
    ensures { result ≡ first_below (wrong_at parents.now ns list.now) ns }
{
    children(ns, parents, left);
    for p in 0..ns {
        let j = list[p];
        if j >= ns {
            return Some(p);
        }
        if left[j] != 0 {
            return Some(p);
        }
        name(ns, parents, j, left);
    }
    None
}

// Number 8 of a list, under a stop count that may stand: its length, then its entries.
fn list_fault(
    ns: usize,
    parents: &[usize],
    list: &[usize],
    left: &mut [usize],
) -> Result<(), Answer>
    requires ns_in_bounds { (ns ≤ length parents.now) × (ns < length left.old) }
    requires above { Above parents.now ns }
    ensures { (S : Shape) → Of S parents.now ns → (t : ℕ) → t ≤ ns → result ≡ passed (wrong_position (order_fault S list.now t)) }
{
    if list.len() != ns {
        return Err(Answer::WrongOrder { position: ns });
    }
    match first_bad(ns, &parents[..ns], list, &mut left[..ns + 1]) {
        Some(position) => Err(Answer::WrongOrder { position }),
        None => Ok(()),
    }
}

// Number 8 for ns supernodes with these parents: the plain order is legal. What is in left, more than ns words, is lost.
pub fn order_fault(
    ns: usize,
    order: Order,
    list: &[usize],
    stop: Stop,
    parents: &[usize],
    left: &mut [usize],
) -> Result<(), Answer>
    requires ns_in_bounds { (ns ≤ length parents.now) × (ns < length left.old) }
    requires above { Above parents.now ns }
    ensures { (S : Shape) → Of S parents.now ns → result ≡ passed (wrong_position (order_fault S (order_of S order list.now) (stop_of S stop))) }
{
    let t = stop_at(ns, stop);
    if t > ns {
        return Err(Answer::WrongOrder { position: ns });
    }
    match order {
        Order::Plain => Ok(()),
        Order::Listed => list_fault(ns, parents, list, left),
    }
}

// The first t words become 0, 1, ..
fn count_up(t: usize, to: &mut [usize])
    requires { t ≤ length to.old }
    ensures { to.new ≡ rising 0 t ++ drop t to.old }
{
    for i in 0..t {
        to[i] = i;
    }
}

// The first t words become the first t supernodes of the plain order, or of the list.
pub fn names(order: Order, list: &[usize], t: usize, to: &mut [usize])
    requires { (t ≤ length to.old) × (order ≡ Order.Listed → t ≤ length list.now) }
    ensures { (S : Shape) → t ≤ supernodes S → to.new ≡ take t (order_of S order list.now) ++ drop t to.old }
{
    match order {
        Order::Plain => count_up(t, to),
        Order::Listed => copy(&mut to[..t], &list[..t]),
    }
}
