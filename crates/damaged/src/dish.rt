// Whole factors, laid out by hand as factor leaves them. The arrays are longer than the needs, and go on past them.
ghost use Rattle.std.specs.Prelude.{◌≡◌, length};

use statement::{Record, Stage};
use std::num::nearest_usize_to_f64;

#[derive(Clone, Copy)]
pub enum Dish {
    // n = 6 of 'Sizes at the edges', with 1 for 2: five columns that meet in the last
    Six,
    // n = 3 there: one supernode of three columns
    Three,
    // n = 4 there: a permutation that is not the plain one
    Four,
    // no factor: three columns of two rows, with counts that agree
    Wide,
    // n = 0
    Bare,
}

fn full(
    n: usize,
    supernodes: usize,
    rows: usize,
    updates: usize,
    tasks: usize,
    entries: usize,
    work: usize,
) -> Record {
    Record {
        state: Stage::Full,
        n,
        supernodes,
        rows,
        updates,
        tasks,
        top: 0,
        entries,
        work,
    }
}

pub fn record(dish: Dish) -> Record {
    match dish {
        Dish::Six => full(6, 6, 11, 5, 1, 11, 21),
        Dish::Three => full(3, 1, 3, 0, 1, 6, 14),
        Dish::Four => full(4, 4, 7, 3, 1, 7, 13),
        Dish::Wide => full(3, 1, 2, 0, 1, 3, 5),
        Dish::Bare => full(0, 0, 0, 0, 0, 0, 0),
    }
}

// Area 1.
pub fn permutation(dish: Dish) -> [usize; 8]
    ensures { 8 ≡ length result }
{
    match dish {
        Dish::Four => [1, 0, 2, 3, 4, 5, 6, 7],
        _ => [0, 1, 2, 3, 4, 5, 6, 7],
    }
}

// Area 2.
pub fn firsts(dish: Dish) -> [usize; 9]
    ensures { 9 ≡ length result }
{
    match dish {
        Dish::Three | Dish::Wide => [0, 3, 0, 0, 4, 5, 6, 7, 8],
        _ => [0, 1, 2, 3, 4, 5, 6, 7, 8],
    }
}

// Area 3.
pub fn starts(dish: Dish) -> [usize; 9]
    ensures { 9 ≡ length result }
{
    match dish {
        Dish::Six => [0, 2, 4, 6, 8, 10, 11, 12, 13],
        Dish::Three => [0, 3, 0, 0, 4, 5, 6, 7, 8],
        Dish::Four => [0, 2, 4, 6, 7, 8, 9, 10, 11],
        Dish::Wide => [0, 2, 0, 0, 3, 4, 5, 6, 7],
        Dish::Bare => [0, 1, 2, 3, 4, 5, 6, 7, 8],
    }
}

// Area 9.
pub fn rows(dish: Dish) -> [usize; 13]
    ensures { 13 ≡ length result }
{
    match dish {
        Dish::Six => [0, 5, 1, 5, 2, 5, 3, 5, 4, 5, 5, 6, 7],
        Dish::Four => [0, 3, 1, 2, 2, 3, 3, 4, 5, 6, 7, 8, 9],
        _ => [0, 1, 2, 3, 4, 5, 6, 7, 8, 9, 10, 11, 12],
    }
}

// Area 11.
pub fn values(dish: Dish) -> [f64; 13]
    ensures { 13 ≡ length result }
{
    match dish {
        Dish::Six => [
            1.0, 99999.0, 1.0, 447.0, 1.0, 13.0, 1.0, 4.0, 1.0, 1.0, 2.0, 3.0, 3.0,
        ],
        Dish::Three => [
            1.0, 1.0, 1.0, 1.0, -1.0, 1.0, 3.0, 3.0, 3.0, 3.0, 3.0, 3.0, 3.0,
        ],
        Dish::Four => [
            2.0, 1.0, 3.0, 1.0, 2.0, 1.0, 1.0, 3.0, 3.0, 3.0, 3.0, 3.0, 3.0,
        ],
        _ => [
            1.0, 1.0, 1.0, 3.0, 3.0, 3.0, 3.0, 3.0, 3.0, 3.0, 3.0, 3.0, 3.0,
        ],
    }
}

// The buffer, of which the first numbers are lent. The first 192 are 64 right sides of three, or 32 of six, that all differ;
// then they come again, with an infinity and a NaN among them.
pub fn buffer() -> [f64; 400]
    ensures { 400 ≡ length result }
{
    let first = [1.5, 0.1, -3.0, 0.7, 5.25, 1000000.3, 7.0, 8.0];
    let mut b = [0.0; 400];
    for i in 0..400 {
        b[i] = first[i % 8] + nearest_usize_to_f64(i % 192 / 8);
    }
    b[200] = 1.0 / 0.0;
    b[210] = 0.0 / 0.0;
    b
}
