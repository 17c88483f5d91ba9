// A structure that can be walked: what (c) and (d) tell of it goes with it.
ghost use Rattle.laws.specs.Lent.{laid, Walkable};

// The supernodes' first columns, where each one's rows start, and the rows.
#[derive(Clone, Copy)]
pub struct Walked<'a> {
    pub n: usize,
    pub firsts: &'a [usize],
    pub starts: &'a [usize],
    pub rows: &'a [usize],
    ghost valid: { Walkable (laid n firsts.now starts.now rows.now) },
}
