// How much is lent of what there is. Of the buffer too, where it is for one right side; else its length is given apart.
ghost use Rattle.std.specs.Prelude.{◌≤◌};

use crate::damage::Area;
use statement::Record;

#[derive(Clone, Copy)]
pub enum Lending {
    // what each area needs, and n numbers of the buffer
    Exact,
    // all there is of each area
    Loose,
    // of one area one less than it needs
    Short(Area),
    LongSide,
    // the scratch and the buffer, one less each
    ShortAll,
    // the scratch
    ShortScratch,
}

// What an area needs by a record, as 01 has it.
fn need(record: Record, area: Area) -> usize {
    match area {
        Area::Firsts | Area::Starts => record.n.saturating_add(1),
        Area::Rows => record.rows,
        Area::Values => record.entries,
        _ => record.n,
    }
}

fn is_scratch(area: Area) -> bool {
    matches!(area, Area::Words | Area::Floats)
}

fn asked(need: usize, area: Area, all: usize, lending: Lending) -> usize {
    let fewer = need.saturating_sub(1);
    match lending {
        Lending::Loose if area != Area::Side => all,
        Lending::Short(short) if short == area => fewer,
        Lending::LongSide if area == Area::Side => need.saturating_add(1),
        Lending::ShortAll if is_scratch(area) || area == Area::Side => fewer,
        Lending::ShortScratch if is_scratch(area) => fewer,
        _ => need,
    }
}

// How much of an area is lent, of `all` that there is.
pub fn lent(sound: Record, lending: Lending, area: Area, all: usize) -> usize
    ensures { result ≤ all }
{
    asked(need(sound, area), area, all, lending).min(all)
}
