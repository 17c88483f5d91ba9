// The damages, one at a time.
use crate::damage::{Area, Count, Damage};
use crate::dish::{Dish, record};
use crate::lending::Lending;
use crate::line::{say_area, say_dish};
use crate::trial::{numbered, solved, solved_many, viewed};
use lists::say;
use statement::Stage;
use std::io;

// More than any count or word that may stand.
const ABSURD: usize = 0x8000_0000_0000_0000;

// A permutation with a repeat.
const REPEATED: Damage = Damage::Word {
    area: Area::Permutation,
    at: 1,
    to: 0,
};

pub fn states(rt: &impl Print) -> io::Result<()> {
    // accepted
    solved(rt, Dish::Six, Damage::Nothing, Lending::Exact)?;
    solved(rt, Dish::Six, Damage::Nothing, Lending::Loose)?;
    solved(rt, Dish::Three, Damage::Nothing, Lending::Exact)?;
    solved(rt, Dish::Three, Damage::Nothing, Lending::Loose)?;
    solved(rt, Dish::Four, Damage::Nothing, Lending::Exact)?;
    solved(rt, Dish::Bare, Damage::Nothing, Lending::Exact)?;
    // values may be any bits
    solved(rt, Dish::Six, Damage::NoValues, Lending::Exact)?;
    // not full
    solved(rt, Dish::Six, Damage::State(Stage::Empty), Lending::Exact)?;
    solved(
        rt,
        Dish::Six,
        Damage::State(Stage::Analysed),
        Lending::Exact,
    )?;
    solved(rt, Dish::Six, Damage::State(Stage::Partial), Lending::Exact)?;
    solved(rt, Dish::Bare, Damage::State(Stage::Empty), Lending::Exact)
}

fn count(rt: &impl Print, dish: Dish, which: Count, to: usize) -> io::Result<()> {
    let damage = Damage::Count { which, to };
    solved(rt, dish, damage, Lending::Exact)?;
    solved(rt, dish, damage, Lending::Loose)
}

// A count of c that is one more, one less, or absurd.
fn counted(rt: &impl Print, dish: Dish, which: Count, c: usize) -> io::Result<()> {
    count(rt, dish, which, c.saturating_add(1))?;
    count(rt, dish, which, c.saturating_sub(1))?;
    count(rt, dish, which, ABSURD)?;
    count(rt, dish, which, usize::MAX)
}

fn all_counts(rt: &impl Print, dish: Dish) -> io::Result<()> {
    let sound = record(dish);
    counted(rt, dish, Count::N, sound.n)?;
    counted(rt, dish, Count::Supernodes, sound.supernodes)?;
    counted(rt, dish, Count::Rows, sound.rows)?;
    counted(rt, dish, Count::Entries, sound.entries)
}

pub fn counts(rt: &impl Print) -> io::Result<()> {
    all_counts(rt, Dish::Six)?;
    all_counts(rt, Dish::Three)?;
    // the largest n, and one above it
    count(rt, Dish::Six, Count::N, 32768)?;
    count(rt, Dish::Six, Count::N, 32769)?;
    // accepted: solve does not ask the others
    count(rt, Dish::Six, Count::Others, usize::MAX)?;
    // a supernode with more columns than rows
    solved(rt, Dish::Wide, Damage::Nothing, Lending::Exact)
}

fn each_short(rt: &impl Print, dish: Dish) -> io::Result<()> {
    for area in [
        Area::Permutation,
        Area::Firsts,
        Area::Starts,
        Area::Rows,
        Area::Values,
    ] {
        solved(rt, dish, Damage::Nothing, Lending::Short(area))?;
    }
    Ok(())
}

pub fn short_areas(rt: &impl Print) -> io::Result<()> {
    each_short(rt, Dish::Six)?;
    each_short(rt, Dish::Three)?;
    solved(
        rt,
        Dish::Bare,
        Damage::Nothing,
        Lending::Short(Area::Firsts),
    )?;
    solved(
        rt,
        Dish::Bare,
        Damage::Nothing,
        Lending::Short(Area::Starts),
    )
}

fn word(rt: &impl Print, area: Area, at: usize, to: usize) -> io::Result<()> {
    solved(rt, Dish::Six, Damage::Word { area, at, to }, Lending::Exact)
}

fn swapped(rt: &impl Print, dish: Dish, area: Area, at: usize) -> io::Result<()> {
    solved(rt, dish, Damage::Swapped { area, at }, Lending::Exact)
}

// (b), (c) and (d).
pub fn words(rt: &impl Print) -> io::Result<()> {
    // a permutation with a repeat, and with an entry not below n
    word(rt, Area::Permutation, 1, 0)?;
    word(rt, Area::Permutation, 5, 6)?;
    // first columns that do not begin with 0, do not rise, do not end with n
    word(rt, Area::Firsts, 0, 1)?;
    word(rt, Area::Firsts, 2, 1)?;
    word(rt, Area::Firsts, 6, 7)?;
    swapped(rt, Dish::Six, Area::Firsts, 2)?;
    // row starts that do not begin with 0, fall, do not end with the count
    word(rt, Area::Starts, 0, 1)?;
    word(rt, Area::Starts, 3, 3)?;
    word(rt, Area::Starts, 6, 10)?;
    swapped(rt, Dish::Six, Area::Starts, 3)?;
    // rows that are swapped, not below n, or not the own columns first
    swapped(rt, Dish::Six, Area::Rows, 0)?;
    swapped(rt, Dish::Three, Area::Rows, 1)?;
    word(rt, Area::Rows, 1, 6)?;
    word(rt, Area::Rows, 2, 0)?;
    // accepted: still a permutation, and another row with which all of (d) holds
    swapped(rt, Dish::Six, Area::Permutation, 0)?;
    swapped(rt, Dish::Four, Area::Permutation, 0)?;
    word(rt, Area::Rows, 1, 4)
}

fn number(rt: &impl Print, dish: Dish, area: Area, at: usize, to: usize) -> io::Result<()> {
    numbered(rt, dish, Damage::Word { area, at, to })
}

// One word as each number below `top`.
fn each_number(rt: &impl Print, dish: Dish, area: Area, at: usize, top: usize) -> io::Result<()> {
    for to in 0..top {
        number(rt, dish, area, at, to)?;
    }
    Ok(())
}

// And as two absurd ones.
fn one_word(rt: &impl Print, dish: Dish, area: Area, at: usize, top: usize) -> io::Result<()> {
    say_dish(rt, dish)?;
    say_area(rt, area, at)?;
    say(rt, b" is 0 and up:")?;
    each_number(rt, dish, area, at, top)?;
    number(rt, dish, area, at, ABSURD)?;
    number(rt, dish, area, at, usize::MAX)?;
    say(rt, b"\n")
}

// Each of the first `many` words.
fn each_word(rt: &impl Print, dish: Dish, area: Area, many: usize, top: usize) -> io::Result<()> {
    for at in 0..many {
        one_word(rt, dish, area, at, top)?;
    }
    Ok(())
}

// Each word that an area needs, as each number to two above the largest that stands there.
pub fn every_word(rt: &impl Print) -> io::Result<()> {
    each_word(rt, Dish::Six, Area::Permutation, 6, 8)?;
    each_word(rt, Dish::Six, Area::Firsts, 7, 9)?;
    each_word(rt, Dish::Six, Area::Starts, 7, 14)?;
    each_word(rt, Dish::Six, Area::Rows, 11, 8)?;
    each_word(rt, Dish::Three, Area::Permutation, 3, 5)?;
    each_word(rt, Dish::Three, Area::Firsts, 4, 6)?;
    each_word(rt, Dish::Three, Area::Starts, 4, 6)?;
    each_word(rt, Dish::Three, Area::Rows, 3, 5)?;
    each_word(rt, Dish::Four, Area::Permutation, 4, 6)?;
    each_word(rt, Dish::Four, Area::Rows, 7, 6)
}

// A full record of the old dish on cleared areas.
pub fn cleared(rt: &impl Print) -> io::Result<()> {
    solved(rt, Dish::Six, Damage::Cleared, Lending::Exact)?;
    solved(rt, Dish::Six, Damage::Cleared, Lending::Loose)?;
    solved(rt, Dish::Three, Damage::Cleared, Lending::Exact)?;
    solved(rt, Dish::Four, Damage::Cleared, Lending::Exact)?;
    // accepted: cleared areas are what a factor of nothing leaves
    solved(rt, Dish::Bare, Damage::Cleared, Lending::Exact)
}

// 10 and 5.
pub fn other_numbers(rt: &impl Print) -> io::Result<()> {
    solved(rt, Dish::Six, Damage::Nothing, Lending::Short(Area::Side))?;
    solved(rt, Dish::Six, Damage::Nothing, Lending::LongSide)?;
    solved(rt, Dish::Bare, Damage::Nothing, Lending::LongSide)?;
    solved(rt, Dish::Six, Damage::Nothing, Lending::Short(Area::Words))?;
    solved(rt, Dish::Six, Damage::Nothing, Lending::Short(Area::Floats))?;
    solved(
        rt,
        Dish::Three,
        Damage::Nothing,
        Lending::Short(Area::Words),
    )?;
    solved(
        rt,
        Dish::Three,
        Damage::Nothing,
        Lending::Short(Area::Floats),
    )?;
    solved(rt, Dish::Six, Damage::Nothing, Lending::ShortScratch)
}

// 11 before 10 before 5.
pub fn order(rt: &impl Print) -> io::Result<()> {
    solved(rt, Dish::Six, Damage::Cleared, Lending::ShortAll)?;
    solved(
        rt,
        Dish::Six,
        Damage::State(Stage::Partial),
        Lending::ShortAll,
    )?;
    solved(rt, Dish::Six, REPEATED, Lending::ShortAll)?;
    solved(rt, Dish::Six, REPEATED, Lending::Short(Area::Words))?;
    solved(rt, Dish::Six, Damage::Nothing, Lending::ShortAll)?;
    solved(rt, Dish::Three, Damage::Nothing, Lending::ShortAll)
}

fn sound(
    rt: &impl Print,
    dish: Dish,
    lending: Lending,
    sides: usize,
    length: usize,
) -> io::Result<()> {
    solved_many(rt, dish, Damage::Nothing, lending, sides, length)
}

// Numbers of right sides, and lengths of the buffer. Accepted: n words and n floats of scratch are enough for any number.
pub fn many(rt: &impl Print) -> io::Result<()> {
    sound(rt, Dish::Six, Lending::Exact, 2, 12)?;
    sound(rt, Dish::Six, Lending::Exact, 3, 18)?;
    sound(rt, Dish::Three, Lending::Exact, 2, 6)?;
    sound(rt, Dish::Three, Lending::Exact, 3, 9)?;
    sound(rt, Dish::Four, Lending::Exact, 2, 8)?;
    sound(rt, Dish::Four, Lending::Exact, 3, 12)?;
    // the most
    sound(rt, Dish::Three, Lending::Exact, 64, 192)?;
    // 32 right sides, and again, but with an infinity and a NaN
    sound(rt, Dish::Six, Lending::Exact, 64, 384)?;
    sound(rt, Dish::Bare, Lending::Exact, 64, 0)?;
    // none
    sound(rt, Dish::Bare, Lending::Exact, 0, 0)?;
    sound(rt, Dish::Six, Lending::Exact, 0, 0)
}

// 14.
pub fn too_many(rt: &impl Print) -> io::Result<()> {
    sound(rt, Dish::Six, Lending::Exact, 65, 390)?;
    sound(rt, Dish::Six, Lending::Exact, 65, 6)?;
    sound(rt, Dish::Bare, Lending::Exact, 65, 0)?;
    // in 64 bits six times the first is 0, and six times the second 6
    sound(rt, Dish::Six, Lending::Exact, ABSURD, 0)?;
    sound(rt, Dish::Six, Lending::Exact, 0x8000_0000_0000_0001, 6)?;
    sound(rt, Dish::Six, Lending::Exact, usize::MAX, 6)
}

// 10.
pub fn wrong_lengths(rt: &impl Print) -> io::Result<()> {
    sound(rt, Dish::Six, Lending::Exact, 2, 6)?;
    sound(rt, Dish::Six, Lending::Exact, 2, 11)?;
    sound(rt, Dish::Six, Lending::Exact, 2, 13)?;
    sound(rt, Dish::Six, Lending::Exact, 1, 12)?;
    sound(rt, Dish::Six, Lending::Exact, 0, 6)?;
    sound(rt, Dish::Three, Lending::Exact, 64, 191)?;
    sound(rt, Dish::Bare, Lending::Exact, 64, 1)
}

// 11 before 14 before 10 before 5.
pub fn many_in_order(rt: &impl Print) -> io::Result<()> {
    solved_many(rt, Dish::Six, Damage::Cleared, Lending::Exact, 65, 390)?;
    solved_many(
        rt,
        Dish::Six,
        Damage::State(Stage::Partial),
        Lending::ShortScratch,
        65,
        389,
    )?;
    sound(rt, Dish::Six, Lending::ShortScratch, 65, 389)?;
    sound(rt, Dish::Six, Lending::ShortScratch, 2, 11)?;
    sound(rt, Dish::Six, Lending::ShortScratch, 2, 12)?;
    sound(rt, Dish::Six, Lending::Short(Area::Floats), 2, 12)?;
    sound(rt, Dish::Three, Lending::Short(Area::Words), 64, 192)?;
    sound(rt, Dish::Three, Lending::Short(Area::Floats), 64, 192)?;
    // with none, too
    sound(rt, Dish::Six, Lending::Short(Area::Words), 0, 0)
}

fn whole(rt: &impl Print, dish: Dish) -> io::Result<()> {
    for q in 0..=6 {
        viewed(rt, dish, Damage::Nothing, Lending::Exact, q)?;
    }
    viewed(rt, dish, Damage::Nothing, Lending::Loose, usize::MAX)
}

// The view.
pub fn columns(rt: &impl Print) -> io::Result<()> {
    whole(rt, Dish::Six)?;
    whole(rt, Dish::Three)?;
    viewed(rt, Dish::Bare, Damage::Nothing, Lending::Loose, 0)?;
    // it does not ask (b)
    viewed(rt, Dish::Six, REPEATED, Lending::Exact, 0)?;
    // but asks the rest
    viewed(
        rt,
        Dish::Six,
        Damage::Nothing,
        Lending::Short(Area::Permutation),
        0,
    )?;
    viewed(
        rt,
        Dish::Six,
        Damage::State(Stage::Partial),
        Lending::Exact,
        0,
    )?;
    viewed(rt, Dish::Six, Damage::Cleared, Lending::Exact, 0)?;
    viewed(
        rt,
        Dish::Three,
        Damage::Count {
            which: Count::Entries,
            to: 5,
        },
        Lending::Exact,
        1,
    )
}
