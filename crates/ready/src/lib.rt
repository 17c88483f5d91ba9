// What the run reads, put into the scratch: clear flags, offsets, parents and the lower columns of A.
#![tactic(auto)]

ghost use Rattle.std.specs.Prelude.{◌+◌, ◌*◌, ◌≤◌, length};
ghost use Rattle.views.specs.Shown.{matrix_of};
ghost use Rattle.ready.specs.Known.{Known, Laid, Kept};

use lower::Upper;
use offsets::offsets;
use parts::copy;
use views::Matrix;

// A matrix and what is known of its factor before the values are worked out: how many supernodes, the permutation, their first columns and
// row starts, and in tasks the places of the columns and then the supernodal parents. `Known` says so; it holds what stands behind each list,
// which is data and so no ghost field.
#[derive(Clone, Copy)]
pub struct Analysed<'a> {
    pub matrix: Matrix<'a>,
    pub ns: usize,
    pub permutation: &'a [usize],
    pub firsts: &'a [usize],
    pub starts: &'a [usize],
    pub tasks: &'a [usize],
}

impl Analysed<'_> {
    // The first n + 1 words are the flags; from 6n + 1 on stand the offsets, from 7n + 1 the supernodal parents, from 9n + 1 the starts of
    // A's lower columns and from 10n + 2 their rows. A's values are the first floats. top is scratch.
    pub fn ready(&self, top: &mut [usize], words: &mut [usize], floats: &mut [f64])
        requires known { Known (matrix_of self.now.matrix) self.now.ns self.now.permutation.now self.now.firsts.now self.now.starts.now self.now.tasks.now }
        requires n_in_bounds { (self.now.matrix.n ≤ length top.old) × (24 * self.now.matrix.n + length self.now.matrix.rows.now + 24 ≤ length words.old) × (length self.now.matrix.rows.now + self.now.matrix.n ≤ length floats.old) }
        ensures laid { Laid (matrix_of self.now.matrix) self.now.ns words.new floats.new }
        ensures kept { Kept self.now.matrix.n words.old words.new }
    {
        let n = self.matrix.n;
        let ns = self.ns;
        let upper = Upper {
            matrix: self.matrix,
            permutation: self.permutation,
            places: self.tasks,
        };
        let a = self.matrix.rows.len();
        let ab = 9 * n + 1;
        upper.lower(top, &mut words[ab..], &mut floats[..a]);
        let ob = 6 * n + 1;
        offsets(ns, self.firsts, self.starts, &mut words[ob..]);
        let pb = 7 * n + 1;
        copy(&mut words[pb..pb + ns], &self.tasks[n..n + ns]);
        words[..n + 1].fill(0);
    }
}
