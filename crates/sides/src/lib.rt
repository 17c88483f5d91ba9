// The right sides of one call: whether they can be solved, and each solved by itself.
#![tactic(auto)]

ghost use Rattle.std.specs.Prelude.{◌≡◌, true, ◌*◌, ◌≤◌, length};
ghost use Rattle.statement.specs.Solve.{shape_in, solvable, sides_limit, solutions, sides_fault};
ghost use Rattle.laws.specs.Answered.{passed};
ghost use Rattle.solving.specs.Shown.{shape_of};
ghost use Rattle.views.specs.Shown.{areas_of};

use checks::cut;
use solving::{Full, solve_one};
use statement::{Answer, Record};
use views::Factor;

// Numbers 14, 10 and 5. What n and the number of right sides come to is asked only when both are small.
pub fn sides_answer(
    n: usize,
    sides: usize,
    buffer: usize,
    words: usize,
    floats: usize,
) -> Result<(), Answer>
    requires { n ≤ 32768 }
    ensures { result ≡ passed (sides_fault n sides buffer words floats) }
{
    if sides > 64 {
        return Err(Answer::ManySides);
    }
    if buffer != n * sides {
        return Err(Answer::WrongSide { length: buffer });
    }
    if words < n {
        return Err(Answer::ShortArea { area: 7, need: n });
    }
    if floats < n {
        return Err(Answer::ShortArea { area: 8, need: n });
    }
    Ok(())
}

// Each right side of b becomes its solution, over lists as long as they should be.
fn solve_each(factor: &Full<'_>, x: &mut [f64], sides: usize, b: &mut [f64])
    requires x_len { length x.old ≡ factor.now.n }
    requires sides_le_sides_limit { (sides ≤ sides_limit) × (length b.old ≡ factor.now.n * sides) }
    ensures { b.new ≡ solutions factor.now.n factor.now.permutation.now (shape_of factor.now) factor.now.values.now sides b.old }
{
    let n = factor.n;
    for j in 0..sides {
        let at = n * j;
        solve_one(factor, x, &mut b[at..at + n]);
    }
}

// b becomes the solutions; the first n floats are the room for the unknowns of one after another.
pub fn solve_sides(
    record: Record,
    factor: &Factor<'_>,
    floats: &mut [f64],
    sides: usize,
    b: &mut [f64],
)
    requires values_value { solvable «record» (areas_of factor.now) ≡ true }
    requires record_in_bounds { («record».n ≤ length floats.old) × (sides ≤ sides_limit) × (length b.old ≡ «record».n * sides) }
    ensures { b.new ≡ solutions «record».n factor.now.permutation.now (shape_in «record» (areas_of factor.now)) factor.now.values.now sides b.old }
{
    let own = cut(record, factor);
    let full = Full {
        n: own.n,
        permutation: factor.permutation,
        firsts: own.firsts,
        starts: own.starts,
        rows: own.rows,
        values: factor.values,
        entries: record.entries,
    };
    solve_each(&full, &mut floats[..record.n], sides, b);
}
