// Where parts that stand one after another begin.
ghost use Rattle.std.specs.Prelude.{◌≡◌, ◌++◌, ℕ, suc, ◌≤◌, ◌<◌, length, get_or, drop};
ghost use Rattle.statement.specs.Lists.{sum, list};

// Where each of m parts begins, and where the last ends: 0, and then each count more.
pub fn sums(m: usize, counts: &[usize], to: &mut [usize])
    requires m_bound { (m ≤ 32768) × (m ≤ length counts.now) × (m < length to.old) }
    requires by_index { (j : ℕ) → j < m → get_or counts.now j 0 ≤ 32768 }
    ensures { to.new ≡ list (sum (λ j. get_or counts.now j 0)) (suc m) ++ drop (suc m) to.old }
{
    to[0] = 0;
    for k in 0..m {
        to[k + 1] = to[k] + counts[k];
    }
}
