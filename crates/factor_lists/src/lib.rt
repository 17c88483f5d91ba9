// The lists of a factor, each by itself, for any contents: what number 11 asks of the record and the lengths (a), of the permutation (b), of
// the first columns (c) and of one supernode's rows (d).
#![tactic(auto)]

ghost use Rattle.std.specs.Prelude.{◌≡◌, true, [], ℕ, suc, ◌+◌, ◌-◌, ◌^◌, ◌≤◌, ◌<◌, length, get_or, eqb, ltb};
ghost use Rattle.statement.specs.Lists.{every, tally};
ghost use Rattle.statement.specs.Shape.{Shape, first, width, rows_of};
ghost use Rattle.statement.specs.Solve.{full_record, permutes, rising_columns, good_supernode};
ghost use Rattle.laws.specs.Lent.{laid};
ghost use Rattle.views.specs.Shown.{areas_of};

use answers::is_full;
use statement::Record;
use views::Factor;

// The numbers of l stay below n.
fn all_below(l: &[usize], n: usize) -> bool
    ensures { result ≡ every (λ x. ltb (get_or l.now x 0) n) (length l.now) }
{
    l.iter().all(|x| *x < n)
}

// The numbers of l rise strictly.
fn all_rising(l: &[usize]) -> bool
    ensures { result ≡ every (λ x. ltb (get_or l.now x 0) (get_or l.now (suc x) 0)) (length l.now - 1) }
{
    // not is_sorted_by: tried, and its clause leaves open how the items that it took stand in l
    for i in 0..l.len().saturating_sub(1) {
        if l[i] >= l[i + 1] {
            return false;
        }
    }
    true
}

// Numbers of l that rise strictly stay below n if the last of them does.
fn rising_below(l: &[usize], n: usize) -> bool
    requires { every (λ x. ltb (get_or l.now x 0) (get_or l.now (suc x) 0)) (length l.now - 1) ≡ true }
    ensures { result ≡ every (λ x. ltb (get_or l.now x 0) n) (length l.now) }
{
    if l.len() == 0 {
        return true;
    }
    let last = l.len() - 1;
    l[last] < n
}

// The first w numbers of l count up from f.
fn counts_up(l: &[usize], f: usize, w: usize) -> bool
    requires w_in_bounds { w ≤ length l.now }
    requires w_bound { f + w < 2 ^ 64 }
    ensures { result ≡ every (λ c. eqb (get_or l.now c 0) (f + c)) w }
{
    for c in 0..w {
        if l[c] != f + c {
            return false;
        }
    }
    true
}

// How often the first n numbers of p name v.
fn count(p: &[usize], v: usize, n: usize) -> usize
    requires { n ≤ length p.now }
    ensures { result ≡ tally (λ a. eqb (get_or p.now a 0) v) n }
{
    p[..n].iter().filter(|x| **x == v).count()
}

// (b), with no room to count in.
fn permutes_slowly(n: usize, p: &[usize]) -> bool
    requires { n ≤ length p.now }
    ensures { result ≡ permutes n p.now }
{
    // not all: tried over 0..n, and it stayed open that the numbers before the one that failed were tested
    for v in 0..n {
        if count(p, v, n) != 1 {
            return false;
        }
    }
    true
}

// How often each number below n is named, into words of which the first n are zero.
fn count_all(n: usize, p: &[usize], words: &mut [usize])
    requires n_in_bounds { (n ≤ length p.now) × (n ≤ length words.old) }
    requires by_index { (v : ℕ) → v < n → get_or words.old v 0 ≡ 0 }
    requires by_index_2 { (i : ℕ) → i < n → get_or p.now i 0 < n }
    ensures { (v : ℕ) → v < n → get_or words.new v 0 ≡ tally (λ a. eqb (get_or p.now a 0) v) n }
{
    for k in 0..n {
        let v = p[k];
        words[v] += 1;
    }
}

// The first n numbers of l are 1.
fn all_one(n: usize, l: &[usize]) -> bool
    requires { n ≤ length l.now }
    ensures { result ≡ every (λ v. eqb (get_or l.now v 0) 1) n }
{
    l[..n].iter().all(|x| *x == 1)
}

// (b): the permutation names 0..n-1 once each. The words serve to count in where there are n of them.
pub fn permutes(n: usize, p: &[usize], words: &mut [usize]) -> bool
    requires { n ≤ length p.now }
    ensures { result ≡ permutes n p.now }
{
    if words.len() < n {
        return permutes_slowly(n, p);
    }
    if !all_below(&p[..n], n) {
        return false;
    }
    words[..n].fill(0);
    count_all(n, p, words);
    all_one(n, &words[..])
}

// (c): first columns rise strictly from 0 to n.
pub fn rising_columns(record: Record, firsts: &[usize]) -> bool
    requires { length firsts.now ≡ suc «record».supernodes }
    ensures { result ≡ rising_columns «record» (laid «record».n firsts.now [] []) }
{
    if firsts[0] != 0 {
        return false;
    }
    let last = record.supernodes;
    if firsts[last] != record.n {
        return false;
    }
    all_rising(firsts)
}

// (d): a supernode's rows rise strictly, begin with its w columns from f, and stay below n.
pub fn good_supernode(rows: &[usize], f: usize, w: usize, n: usize) -> bool
    requires { f + w < 2 ^ 64 }
    ensures { (S : Shape) (K : ℕ) → rows.now ≡ rows_of S K → f ≡ first S K → w ≡ width S K → n ≡ S.n → result ≡ good_supernode S K }
{
    if !all_rising(rows) {
        return false;
    }
    if w > rows.len() {
        return false;
    }
    if !counts_up(rows, f, w) {
        return false;
    }
    rising_below(rows, n)
}

// (a): the record is full, n is at most 32,768 and areas 1, 2, 3, 9 and 11 meet the needs by its counts.
pub fn full_record(record: Record, factor: &Factor<'_>) -> bool
    ensures { result ≡ full_record «record» (areas_of factor.now) }
{
    if !is_full(record.state) {
        return false;
    }
    if record.n > 32768 {
        return false;
    }
    if factor.permutation.len() < record.n {
        return false;
    }
    if factor.firsts.len() <= record.n {
        return false;
    }
    if factor.starts.len() <= record.n {
        return false;
    }
    if factor.rows.len() < record.rows {
        return false;
    }
    record.entries <= factor.values.len()
}
