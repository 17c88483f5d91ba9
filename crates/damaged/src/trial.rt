// One call of solve or of the view, on fresh copies of a dish's areas with one damage done to them.
use crate::damage::{Area, Damage, harm_values, harm_words, harmed};
use crate::dish::{Dish, buffer, firsts, permutation, record, rows, starts, values};
use crate::lending::{Lending, lent};
use crate::line::{
    say_all, say_damage, say_details, say_dish, say_fault, say_lending, sum, zero_floats,
    zero_words,
};
use answers::number;
use lists::{say, say_bits, say_number};
use solve::{column, solve};
use statement::{Answer, Factored, Record};
use std::io;

// What is called: solve for so many right sides, with all that can be said of it or with the number alone, or the view of a
// column.
#[derive(Clone, Copy)]
pub enum Call {
    Solving { whole: bool, sides: usize },
    Viewing(usize),
}

// The number, and what is at fault besides; the details, 1 for scratch that is zero, the buffer's sum before and after,
// and the solution where there is one.
fn say_after(
    rt: &impl Print,
    whole: bool,
    answer: Answer,
    before: u64,
    words: &[usize],
    floats: &[f64],
    b: &[f64],
) -> io::Result<()> {
    let accepted = number(answer) == 0;
    let after = sum(b);
    let zero = zero_words(words) & zero_floats(floats);
    say_number(rt, number(answer))?;
    say_fault(rt, zero, accepted | (before == after))?;
    if !whole {
        return Ok(());
    }
    say_details(rt, answer)?;
    say_number(rt, zero as usize)?;
    say_bits(rt, before)?;
    say_bits(rt, after)?;
    if accepted {
        say(rt, b" :")?;
        say_all(rt, b)?;
    }
    say(rt, b"\n")
}

fn solve_and_say(
    rt: &impl Print,
    whole: bool,
    harmed: Record,
    permutation: &[usize],
    firsts: &[usize],
    starts: &[usize],
    rows: &[usize],
    values: &[f64],
    words: &mut [usize],
    floats: &mut [f64],
    sides: usize,
    b: &mut [f64],
) -> io::Result<()> {
    let before = sum(b);
    let answer = solve(
        harmed,
        permutation,
        firsts,
        starts,
        rows,
        values,
        words,
        floats,
        sides,
        b,
    );
    say_after(rt, whole, answer, before, words, floats, b)
}

// The length of the part, and the sum of its bits.
fn view_and_say(
    rt: &impl Print,
    harmed: Record,
    permutation: &[usize],
    firsts: &[usize],
    starts: &[usize],
    rows: &[usize],
    values: &[f64],
    q: usize,
) -> io::Result<()> {
    let part = column(
        harmed,
        permutation,
        firsts,
        starts,
        rows,
        values,
        Factored(q),
    );
    say_number(rt, part.len())?;
    say_bits(rt, sum(part))?;
    say(rt, b"\n")
}

fn call_and_say(
    rt: &impl Print,
    call: Call,
    harmed: Record,
    permutation: &[usize],
    firsts: &[usize],
    starts: &[usize],
    rows: &[usize],
    values: &[f64],
    words: &mut [usize],
    floats: &mut [f64],
    b: &mut [f64],
) -> io::Result<()> {
    match call {
        Call::Solving { whole, sides } => {
            solve_and_say(
                rt,
                whole,
                harmed,
                permutation,
                firsts,
                starts,
                rows,
                values,
                words,
                floats,
                sides,
                b,
            )
        }
        Call::Viewing(q) => {
            view_and_say(rt, harmed, permutation, firsts, starts, rows, values, q)
        }
    }
}

fn lend(
    rt: &impl Print,
    call: Call,
    sound: Record,
    damage: Damage,
    lending: Lending,
    permutation: &[usize],
    firsts: &[usize],
    starts: &[usize],
    rows: &[usize],
    values: &[f64],
    words: &mut [usize],
    floats: &mut [f64],
    b: &mut [f64],
    length: usize,
) -> io::Result<()> {
    let p = lent(sound, lending, Area::Permutation, permutation.len());
    let f = lent(sound, lending, Area::Firsts, firsts.len());
    let s = lent(sound, lending, Area::Starts, starts.len());
    let r = lent(sound, lending, Area::Rows, rows.len());
    let v = lent(sound, lending, Area::Values, values.len());
    let w = lent(sound, lending, Area::Words, words.len());
    let x = lent(sound, lending, Area::Floats, floats.len());
    let n = length.min(b.len());
    call_and_say(
        rt,
        call,
        harmed(sound, damage),
        &permutation[..p],
        &firsts[..f],
        &starts[..s],
        &rows[..r],
        &values[..v],
        &mut words[..w],
        &mut floats[..x],
        &mut b[..n],
    )
}

// The scratch is lent full of other numbers; of the buffer so many are lent as `length` says.
fn trial(
    rt: &impl Print,
    dish: Dish,
    call: Call,
    damage: Damage,
    lending: Lending,
    length: usize,
) -> io::Result<()> {
    let mut p = permutation(dish);
    let mut f = firsts(dish);
    let mut s = starts(dish);
    let mut r = rows(dish);
    let mut v = values(dish);
    harm_words(&mut p, Area::Permutation, damage);
    harm_words(&mut f, Area::Firsts, damage);
    harm_words(&mut s, Area::Starts, damage);
    harm_words(&mut r, Area::Rows, damage);
    harm_values(&mut v, damage);
    let mut words = [9; 8];
    let mut floats = [9.0; 8];
    let mut b = buffer();
    lend(
        rt,
        call,
        record(dish),
        damage,
        lending,
        &p,
        &f,
        &s,
        &r,
        &v,
        &mut words,
        &mut floats,
        &mut b,
        length,
    )
}

// One solve of one right side, and its line.
pub fn solved(rt: &impl Print, dish: Dish, damage: Damage, lending: Lending) -> io::Result<()> {
    let call = Call::Solving {
        whole: true,
        sides: 1,
    };
    let length = lent(record(dish), lending, Area::Side, 400);
    say_dish(rt, dish)?;
    say_damage(rt, damage)?;
    say_lending(rt, lending)?;
    trial(rt, dish, call, damage, lending, length)
}

// One solve of so many right sides in a buffer of some length, and its line.
pub fn solved_many(
    rt: &impl Print,
    dish: Dish,
    damage: Damage,
    lending: Lending,
    sides: usize,
    length: usize,
) -> io::Result<()> {
    let call = Call::Solving { whole: true, sides };
    say_dish(rt, dish)?;
    say_damage(rt, damage)?;
    say(rt, b",")?;
    say_number(rt, sides)?;
    say(rt, b" sides in")?;
    say_number(rt, length)?;
    say_lending(rt, lending)?;
    trial(rt, dish, call, damage, lending, length)
}

// The number of one solve.
pub fn numbered(rt: &impl Print, dish: Dish, damage: Damage) -> io::Result<()> {
    let call = Call::Solving {
        whole: false,
        sides: 1,
    };
    trial(rt, dish, call, damage, Lending::Exact, record(dish).n)
}

// One view and its line.
pub fn viewed(
    rt: &impl Print,
    dish: Dish,
    damage: Damage,
    lending: Lending,
    q: usize,
) -> io::Result<()> {
    say_dish(rt, dish)?;
    say(rt, b" column")?;
    say_number(rt, q)?;
    say_damage(rt, damage)?;
    say_lending(rt, lending)?;
    trial(rt, dish, Call::Viewing(q), damage, lending, 0)
}
