// The sum of a list, by which two lists are compared.
use lists::added;
use statement::Update;

// The sum with one word more, which counts as the next number.
fn counted(h: u64, x: usize) -> u64 {
    added(h, (x as u64).wrapping_add(1))
}

// Of the first m words, or of all where there are fewer.
pub fn sum(list: &[usize], m: usize) -> u64 {
    list.iter().take(m).fold(0, |h, x| counted(h, *x))
}

fn counted_update(h: u64, u: Update) -> u64 {
    counted(counted(counted(h, u.supernode), u.p1), u.p2)
}

// Of the words of the first m updates, or of all where there are fewer.
pub fn sum_updates(list: &[Update], m: usize) -> u64 {
    list.iter().take(m).fold(0, |h, u| counted_update(h, *u))
}
