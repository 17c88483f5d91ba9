// A full factor, as the solve walks it.
ghost use Rattle.laws.specs.Lent.{laid};
ghost use Rattle.solving.specs.Walk.{Solving};

// A full factor, cut to the lists that are its own: what number 11's checks tell of it goes with it.
#[derive(Clone, Copy)]
pub struct Full<'a> {
    pub n: usize,
    pub permutation: &'a [usize],
    pub firsts: &'a [usize],
    pub starts: &'a [usize],
    pub rows: &'a [usize],
    pub values: &'a [f64],
    pub entries: usize,
    ghost valid: { Solving (laid n firsts.now starts.now rows.now) permutation.now values.now entries },
}
