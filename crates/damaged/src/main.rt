// Damaged records and areas, and buffers for any number of right sides, walked through solve and the view: a line for each,
// with the number answered. What it must write was worked out from document 01 and request A2 alone, the solutions by the
// operations of 'Solving' in f64, by tests/damaged/expected.py.
#![tactic(auto)]

mod damage;
mod dish;
mod lending;
mod line;
mod trial;
mod walk;

use std::io;

fn main(rt: HostRuntime) -> io::Result<()> {
    walk::states(&rt)?;
    walk::counts(&rt)?;
    walk::short_areas(&rt)?;
    walk::words(&rt)?;
    walk::every_word(&rt)?;
    walk::cleared(&rt)?;
    walk::other_numbers(&rt)?;
    walk::order(&rt)?;
    walk::many(&rt)?;
    walk::too_many(&rt)?;
    walk::wrong_lengths(&rt)?;
    walk::many_in_order(&rt)?;
    walk::columns(&rt)
}
