// What is done to a record or to its areas.
use statement::{Record, Stage};

// A lent area, by document 01's number, and the buffer.
#[derive(Clone, Copy, PartialEq, Eq)]
pub enum Area {
    Permutation = 1,
    Firsts = 2,
    Starts = 3,
    Words = 7,
    Floats = 8,
    Rows = 9,
    Values = 11,
    Side = 12,
}

// A count of the record.
#[derive(Clone, Copy)]
pub enum Count {
    N,
    Supernodes,
    Rows,
    Entries,
    // all those that solve does not ask
    Others,
}

#[derive(Clone, Copy)]
pub enum Damage {
    Nothing,
    State(Stage),
    Count { which: Count, to: usize },
    Word { area: Area, at: usize, to: usize },
    // two words that stand side by side
    Swapped { area: Area, at: usize },
    // every area zero
    Cleared,
    // the values alone zero
    NoValues,
}

fn with_count(sound: Record, which: Count, to: usize) -> Record {
    match which {
        Count::N => Record { n: to, ..sound },
        Count::Supernodes => Record {
            supernodes: to,
            ..sound
        },
        Count::Rows => Record { rows: to, ..sound },
        Count::Entries => Record {
            entries: to,
            ..sound
        },
        Count::Others => Record {
            updates: to,
            tasks: to,
            top: to,
            work: to,
            ..sound
        },
    }
}

pub fn harmed(sound: Record, damage: Damage) -> Record {
    match damage {
        Damage::State(state) => Record { state, ..sound },
        Damage::Count { which, to } => with_count(sound, which, to),
        _ => sound,
    }
}

fn put(s: &mut [usize], at: usize, to: usize) {
    if at < s.len() {
        s[at] = to;
    }
}

fn swap(s: &mut [usize], at: usize) {
    let next = at.saturating_add(1);
    if next < s.len() {
        s.swap(at, next);
    }
}

pub fn harm_words(s: &mut [usize], own: Area, damage: Damage) {
    match damage {
        Damage::Word { area, at, to } if area == own => put(s, at, to),
        Damage::Swapped { area, at } if area == own => swap(s, at),
        Damage::Cleared => s.fill(0),
        _ => {}
    }
}

pub fn harm_values(s: &mut [f64], damage: Damage) {
    match damage {
        Damage::Cleared | Damage::NoValues => s.fill(0.0),
        _ => {}
    }
}
