// Lines of the output.
use crate::damage::{Area, Count, Damage};
use crate::dish::Dish;
use crate::lending::Lending;
use lines::bits_of;
use lists::{say, say_bits, say_number};
use statement::{Answer, Stage};
use std::io;

// Printed by functions, not by Display: a Stage is of another crate, which a Display here could not be written for, and the others read alike.
pub fn say_dish(rt: &impl Print, dish: Dish) -> io::Result<()> {
    match dish {
        Dish::Six => say(rt, b"six"),
        Dish::Three => say(rt, b"three"),
        Dish::Four => say(rt, b"four"),
        Dish::Wide => say(rt, b"wide"),
        Dish::Bare => say(rt, b"bare"),
    }
}

fn say_stage(rt: &impl Print, stage: Stage) -> io::Result<()> {
    match stage {
        Stage::Empty => say(rt, b" empty"),
        Stage::Analysed => say(rt, b" analysed"),
        Stage::Partial => say(rt, b" partial"),
        Stage::Full => say(rt, b" full"),
    }
}

fn say_count(rt: &impl Print, which: Count) -> io::Result<()> {
    match which {
        Count::N => say(rt, b" n"),
        Count::Supernodes => say(rt, b" supernodes"),
        Count::Rows => say(rt, b" rows"),
        Count::Entries => say(rt, b" entries"),
        Count::Others => say(rt, b" others"),
    }
}

pub fn say_area(rt: &impl Print, area: Area, at: usize) -> io::Result<()> {
    say(rt, b" area")?;
    say_number(rt, area as usize)?;
    say(rt, b" at")?;
    say_number(rt, at)
}

pub fn say_damage(rt: &impl Print, damage: Damage) -> io::Result<()> {
    match damage {
        Damage::Nothing => say(rt, b" sound"),
        Damage::State(stage) => say_stage(rt, stage),
        Damage::Count { which, to } => {
            say_count(rt, which)?;
            say_number(rt, to)
        }
        Damage::Word { area, at, to } => {
            say_area(rt, area, at)?;
            say(rt, b" is")?;
            say_number(rt, to)
        }
        Damage::Swapped { area, at } => {
            say_area(rt, area, at)?;
            say(rt, b" swapped")
        }
        Damage::Cleared => say(rt, b" cleared"),
        Damage::NoValues => say(rt, b" valueless"),
    }
}

pub fn say_lending(rt: &impl Print, lending: Lending) -> io::Result<()> {
    match lending {
        Lending::Exact => say(rt, b", exact:"),
        Lending::Loose => say(rt, b", loose:"),
        Lending::Short(area) => {
            say(rt, b", short")?;
            say_number(rt, area as usize)?;
            say(rt, b":")
        }
        Lending::LongSide => say(rt, b", long side:"),
        Lending::ShortAll => say(rt, b", short 7 8 side:"),
        Lending::ShortScratch => say(rt, b", short 7 8:"),
    }
}

pub fn say_details(rt: &impl Print, answer: Answer) -> io::Result<()> {
    say_number(rt, answers::first_detail(answer))?;
    say_number(rt, answers::second_detail(answer))
}

// Nothing, where the scratch is zero and a refusal kept the buffer.
pub fn say_fault(rt: &impl Print, zero: bool, kept: bool) -> io::Result<()> {
    if !zero {
        say(rt, b" SCRATCH")?;
    }
    if !kept {
        say(rt, b" CHANGED")?;
    }
    Ok(())
}

// The sum of the bit patterns.
pub fn sum(s: &[f64]) -> u64 {
    s.iter().fold(0, |t: u64, x| t.wrapping_add(bits_of(*x)))
}

pub fn say_all(rt: &impl Print, s: &[f64]) -> io::Result<()> {
    for x in s {
        say_bits(rt, bits_of(*x))?;
    }
    Ok(())
}

pub fn zero_words(s: &[usize]) -> bool {
    s.iter().all(|x| *x == 0)
}

// 0.0, and not -0.0.
pub fn zero_floats(s: &[f64]) -> bool {
    s.iter().all(|x| bits_of(*x) == 0)
}
