// The assembly of one supernode's stretch: A's entries, less a sum for each earlier supernode. And the positions of its rows, by which these go there.
#![tactic(auto)]

ghost use Rattle.std.specs.Prelude.{◌≡◌, ℕ, suc, ◌+◌, ◌*◌, ◌-◌, ◌<◌, ◌≤◌, get_or, length, drop};
ghost use Rattle.std.specs.Float.{nan, binary64};
ghost use Rattle.std.specs.Float.Ieee.{sub};
ghost use Rattle.views.specs.Shown.{shape_of};
ghost use Rattle.statement.specs.Shape.{width};
ghost use Rattle.statement.specs.Rules.{dot};
ghost use Rattle.laws.specs.Lower.{lower_value, Pattern};
ghost use Rattle.areas.specs.Touch.{Touched};
ghost use Rattle.panel.specs.View.{cell};
ghost use Rattle.assembly.specs.Ready.{Rows, in_words, Listed, Offsets, Own, Fresh, Stands, supernode_of};
ghost use Rattle.assembly.specs.Update.{spot_of, Target, Source, Updated};
ghost use Rattle.assembly.specs.Assembled.{Took, Gathered, Scattered, FromA, Assembled};

use products::{clear, sums};
use spread::{product_rising, store_through, subtract_rising};
use views::{Lower, Structure};

// A supernode by its numbers: its first column, where its rows start, how many rows and columns it has, and where its stretch of the values starts.
#[derive(Clone, Copy)]
pub struct Supernode {
    pub first: usize,
    pub start: usize,
    pub height: usize,
    pub width: usize,
    pub offset: usize,
}

impl Supernode {
    // The supernode k of a structure.
    pub fn of(k: usize, structure: &Structure<'_>, offsets: &[usize]) -> Supernode
        requires { Stands (shape_of structure.now) k offsets.now }
        ensures { result ≡ supernode_of (shape_of structure.now) k }
    {
        let first = structure.firsts[k];
        let start = structure.starts[k];
        Supernode {
            first,
            start,
            height: structure.starts[k + 1] - start,
            width: structure.firsts[k + 1] - first,
            offset: offsets[k],
        }
    }
}

// place[rows[r0 + p]] = p for each of the m rows.
pub fn set_places(place: &mut [usize], rows: &[usize], r0: usize, m: usize)
    requires m_in_bounds { r0 + m ≤ length rows.now }
    requires by_index { (p : ℕ) → p < m → get_or rows.now (r0 + p) 0 < length place.old }
    requires by_index_2 { (p q : ℕ) → p < q → q < m → get_or rows.now (r0 + p) 0 < get_or rows.now (r0 + q) 0 }
    ensures { Touched 0 place.old place.new m (λ p. get_or rows.now (r0 + p) 0) (λ p. p) }
{
    for p in 0..m {
        let r = rows[r0 + p];
        place[r] = p;
    }
}

// One target column of an update of the supernode `to`: from the column of row q of the earlier supernode, its sum for each row from q.
fn update_summed(
    values: &mut [f64],
    to: &Supernode,
    from: &Supernode,
    place: &[usize],
    rows: &[usize],
    q: usize,
    work: &mut [f64],
)
    requires { Target place.now rows.now (length values.old) (length work.old) to.now.offset to.now.height from.now.start from.now.height from.now.width from.now.offset q }
    ensures { Touched nan values.old values.new (from.now.height - q) (λ i. to.now.offset + spot_of place.now rows.now to.now.height from.now.start q (q + i)) (λ i. sub binary64 (get_or values.old (to.now.offset + spot_of place.now rows.now to.now.height from.now.start q (q + i)) nan) (dot (cell from.now.height (drop from.now.offset values.old) (q + i)) (cell from.now.height (drop from.now.offset values.old) q) from.now.width)) }
{
    sums(work, &values[from.offset..], from.height, q, from.width);
    let at = from.start + q;
    let r = rows[at];
    let c = place[r];
    let base = panel::column_start(to.height, c) - c;
    subtract_rising(
        &mut values[to.offset..],
        base,
        place,
        rows,
        at,
        work,
        from.height - q,
    );
}

// The same of an earlier supernode of one column, in one pass. Not one with update_summed: a sum of one needs no work space, and all that the two share
// is how the base is found.
fn update_single(
    values: &mut [f64],
    to: &Supernode,
    from: &Supernode,
    place: &[usize],
    rows: &[usize],
    q: usize,
)
    requires { Target place.now rows.now (length values.old) from.now.height to.now.offset to.now.height from.now.start from.now.height 1 from.now.offset q }
    ensures { Touched nan values.old values.new (from.now.height - q) (λ i. to.now.offset + spot_of place.now rows.now to.now.height from.now.start q (q + i)) (λ i. sub binary64 (get_or values.old (to.now.offset + spot_of place.now rows.now to.now.height from.now.start q (q + i)) nan) (dot (cell from.now.height (drop from.now.offset values.old) (q + i)) (cell from.now.height (drop from.now.offset values.old) q) 1)) }
{
    let at = from.start + q;
    let r = rows[at];
    let c = place[r];
    let base = to.offset + (panel::column_start(to.height, c) - c);
    product_rising(
        values,
        base,
        place,
        rows,
        at,
        from.offset + q,
        from.height - q,
    );
}

// One target column, by the earlier supernode's width.
fn update_column(
    values: &mut [f64],
    to: &Supernode,
    from: &Supernode,
    place: &[usize],
    rows: &[usize],
    q: usize,
    work: &mut [f64],
)
    requires { Target place.now rows.now (length values.old) (length work.old) to.now.offset to.now.height from.now.start from.now.height from.now.width from.now.offset q }
    ensures { Touched nan values.old values.new (from.now.height - q) (λ i. to.now.offset + spot_of place.now rows.now to.now.height from.now.start q (q + i)) (λ i. sub binary64 (get_or values.old (to.now.offset + spot_of place.now rows.now to.now.height from.now.start q (q + i)) nan) (dot (cell from.now.height (drop from.now.offset values.old) (q + i)) (cell from.now.height (drop from.now.offset values.old) q) from.now.width)) }
{
    if from.width == 1 {
        update_single(values, to, from, place, rows, q);
    } else {
        update_summed(values, to, from, place, rows, q, work);
    }
}

// An update: a target column for each of the earlier supernode's rows from p1 below p2.
fn update(
    values: &mut [f64],
    to: &Supernode,
    from: &Supernode,
    place: &[usize],
    rows: &[usize],
    p1: usize,
    p2: usize,
    work: &mut [f64],
)
    requires { Source place.now rows.now (length values.old) (length work.old) to.now.offset to.now.height to.now.width from.now.start from.now.height from.now.width from.now.offset p1 p2 }
    ensures { Updated place.now rows.now values.old values.new to.now.offset to.now.height from.now.start from.now.height from.now.width from.now.offset p1 p2 }
{
    for q in p1..p2 {
        update_column(values, to, from, place, rows, q, work);
    }
}

// The update u of the supernode j.
fn one_update(
    values: &mut [f64],
    j: usize,
    to: &Supernode,
    structure: &Structure<'_>,
    offsets: &[usize],
    upd: &[usize],
    count: usize,
    u: usize,
    place: &[usize],
    work: &mut [f64],
)
    requires rows { Rows (shape_of structure.now) (suc j) }
    requires listed { (Listed (shape_of structure.now) j (in_words upd.now) count) × (3 * count ≤ length upd.now) }
    requires offsets { Offsets (shape_of structure.now) j offsets.now }
    requires own { Own (shape_of structure.now) j to.now.offset to.now.height to.now.width place.now (length values.old) (length work.old) }
    requires u_lt_count { u < count }
    ensures { Took (shape_of structure.now) j (in_words upd.now) u place.now values.old values.new }
{
    let k = upd[3 * u];
    let p1 = upd[3 * u + 1];
    let p2 = upd[3 * u + 2];
    let from = Supernode::of(k, structure, offsets);
    update(values, to, &from, place, structure.rows, p1, p2, work);
}

// All updates of the supernode j: count of them, three words each.
fn updates(
    values: &mut [f64],
    j: usize,
    to: &Supernode,
    structure: &Structure<'_>,
    offsets: &[usize],
    upd: &[usize],
    count: usize,
    place: &[usize],
    work: &mut [f64],
)
    requires rows { Rows (shape_of structure.now) (suc j) }
    requires listed { (Listed (shape_of structure.now) j (in_words upd.now) count) × (3 * count ≤ length upd.now) }
    requires offsets { Offsets (shape_of structure.now) j offsets.now }
    requires own { Own (shape_of structure.now) j to.now.offset to.now.height to.now.width place.now (length values.old) (length work.old) }
    ensures { Gathered (shape_of structure.now) j values.old values.new }
{
    for u in 0..count {
        one_update(
            values, j, to, structure, offsets, upd, count, u, place, work,
        );
    }
}

// Column c of the supernode j takes its entries of A, in a stretch that is zero there.
fn from_a_column(
    own: &mut [f64],
    c: usize,
    j: usize,
    to: &Supernode,
    structure: &Structure<'_>,
    lower: &Lower<'_>,
    place: &[usize],
)
    requires rows { Rows (shape_of structure.now) (suc j) }
    requires pattern { (lower.now.n ≡ structure.now.n) × (Pattern (shape_of structure.now) j lower.now.starts.now lower.now.rows.now) }
    requires fresh { Fresh (shape_of structure.now) j to.now.height to.now.width to.now.first place.now (length own.old) }
    requires c_lt_w { c < to.now.width }
    ensures { Scattered (shape_of structure.now) j lower.now.starts.now lower.now.rows.now lower.now.values.now place.now c own.old own.new }
{
    let k = to.first + c;
    let t0 = lower.starts[k];
    let t1 = lower.starts[k + 1];
    let base = panel::column_start(to.height, c) - c;
    store_through(own, base, place, lower.rows, t0, lower.values, t1 - t0);
}

// The stretch of the supernode j, from A alone.
fn from_a(
    own: &mut [f64],
    j: usize,
    to: &Supernode,
    structure: &Structure<'_>,
    lower: &Lower<'_>,
    place: &[usize],
)
    requires rows { Rows (shape_of structure.now) (suc j) }
    requires pattern { (lower.now.n ≡ structure.now.n) × (Pattern (shape_of structure.now) j lower.now.starts.now lower.now.rows.now) }
    requires fresh { Fresh (shape_of structure.now) j to.now.height to.now.width to.now.first place.now (length own.old) }
    ensures { FromA (shape_of structure.now) j lower.now.starts.now lower.now.rows.now lower.now.values.now (width (shape_of structure.now) j) own.old own.new }
{
    clear(own, panel::column_start(to.height, to.width));
    for c in 0..to.width {
        from_a_column(own, c, j, to, structure, lower, place);
    }
}

// The stretch of the supernode j from A and the earlier supernodes.
pub fn assemble(
    values: &mut [f64],
    j: usize,
    to: &Supernode,
    structure: &Structure<'_>,
    offsets: &[usize],
    upd: &[usize],
    count: usize,
    lower: &Lower<'_>,
    work: &mut [f64],
    place: &[usize],
)
    requires rows { Rows (shape_of structure.now) (suc j) }
    requires listed { (Listed (shape_of structure.now) j (in_words upd.now) count) × (3 * count ≤ length upd.now) }
    requires offsets { Offsets (shape_of structure.now) j offsets.now }
    requires pattern { (lower.now.n ≡ structure.now.n) × (Pattern (shape_of structure.now) j lower.now.starts.now lower.now.rows.now) }
    requires own { (Own (shape_of structure.now) j to.now.offset to.now.height to.now.width place.now (length values.old) (length work.old)) × (to.now.first ≡ get_or structure.now.firsts.now j 0) }
    ensures { Assembled (shape_of structure.now) (lower_value lower.now.starts.now lower.now.rows.now lower.now.values.now) j values.old values.new }
{
    from_a(&mut values[to.offset..], j, to, structure, lower, place);
    updates(values, j, to, structure, offsets, upd, count, place, work);
}
