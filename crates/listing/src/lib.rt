// The updates, listed in area 10: each source's, as it is spotted in the words, is put to its place.
#![tactic(auto)]

ghost use Rattle.std.specs.Prelude.{◌≡◌, ◌+◌, ◌*◌, ◌≤◌, ◌<◌, length, get_or, drop};
ghost use Rattle.updates.specs.Layout.{updates_at, offsets_at};
ghost use Rattle.updates.specs.Laying.{said, written, ToLay, LaidOut};
ghost use Rattle.listing.specs.Writing.{ToWrite, last_place, Wrote};

use areas::clear;
use statement::Update;
use updates::scan_one;
use views::{Matrix, Structure};

// Where spot i's update goes.
fn place_at(i: usize, n: usize, words: &[usize]) -> usize
    requires { (i < n) × (offsets_at n ≤ length words.now) }
    ensures { result ≡ get_or (drop (updates_at n) words.now) (3 * i) 0 }
{
    words[2 * n + 1 + 3 * i]
}

// Spot i's update, of the source.
fn update_of(source: usize, i: usize, n: usize, words: &[usize]) -> Update
    requires { (i < n) × (offsets_at n ≤ length words.now) }
    ensures { result ≡ said source (drop (updates_at n) words.now) i }
{
    let at = 2 * n + 1 + 3 * i;
    Update {
        supernode: source,
        p1: words[at + 1],
        p2: words[at + 2],
    }
}

// A source's c updates, each put to its place.
fn write_one(source: usize, c: usize, n: usize, words: &[usize], us: &mut [Update])
    requires { ToWrite n c words.now (length us.old) }
    ensures { us.new ≡ written source c (drop (updates_at n) words.now) us.old }
{
    for i in 0..c {
        us[place_at(i, n, words)] = update_of(source, i, n, words);
    }
}

// Those of all ns supernodes.
fn write_all(
    matrix: &Matrix<'_>,
    ns: usize,
    structure: &Structure<'_>,
    words: &mut [usize],
    us: &mut [Update],
)
    requires { 0 < ns → ToLay matrix.now.n ns matrix.now.starts.now matrix.now.rows.now structure.now.firsts.now structure.now.starts.now structure.now.rows.now words.old (length us.old) }
    ensures { Wrote matrix.now.n ns matrix.now.starts.now matrix.now.rows.now words.old words.new us.old us.new }
{
    for k in 0..ns {
        let c = scan_one(matrix, ns, structure, k, words);
        write_one(k, c, matrix.n, words, us);
    }
}

// How many are written: the next place of the last target, 0 where there is none.
fn last_place(ns: usize, n: usize, words: &[usize]) -> usize
    requires { 0 < ns → n + ns < length words.now }
    ensures { result ≡ last_place ns n words.now }
{
    if ns == 0 {
        return 0;
    }
    words[n + ns]
}

// Area 10: the updates of all ns supernodes, grouped by target, lower supernode first; the rest none.
pub fn lay(
    matrix: &Matrix<'_>,
    ns: usize,
    structure: &Structure<'_>,
    words: &mut [usize],
    us: &mut [Update],
)
    requires { 0 < ns → ToLay matrix.now.n ns matrix.now.starts.now matrix.now.rows.now structure.now.firsts.now structure.now.starts.now structure.now.rows.now words.old (length us.old) }
    ensures { LaidOut matrix.now.n ns matrix.now.starts.now matrix.now.rows.now words.old words.new us.old us.new }
{
    write_all(matrix, ns, structure, words, us);
    let total = last_place(ns, matrix.n, words);
    clear(&mut us[total..]);
}
