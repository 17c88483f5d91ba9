// The areas of a call, cleared together, and what stands behind a list.
#![tactic(auto)]

ghost use Rattle.std.specs.Prelude.{◌≡◌, ◌++◌, ◌-◌, ◌≤◌, length, take, replicate};
ghost use Rattle.statement.specs.Input.{+0};
ghost use Rattle.clearing.specs.Zeroed.{ListsZeroed, Zeroed};

use areas::clear;

// Areas 1 to 6: what of the structure is written over zeros.
pub fn clear_lists(
    permutation: &mut [usize],
    firsts: &mut [usize],
    starts: &mut [usize],
    groups: &mut [usize],
    tasks: &mut [usize],
    top: &mut [usize],
)
    ensures { ListsZeroed permutation.old firsts.old starts.old groups.old tasks.old top.old permutation.new firsts.new starts.new groups.new tasks.new top.new }
{
    clear(permutation);
    clear(firsts);
    clear(starts);
    clear(groups);
    clear(tasks);
    clear(top);
}

// Areas 1 to 7 and 9: the plain ones of the structure.
pub fn clear_structure(
    permutation: &mut [usize],
    firsts: &mut [usize],
    starts: &mut [usize],
    groups: &mut [usize],
    tasks: &mut [usize],
    top: &mut [usize],
    words: &mut [usize],
    rows: &mut [usize],
)
    ensures { Zeroed permutation.old firsts.old starts.old groups.old tasks.old top.old words.old rows.old permutation.new firsts.new starts.new groups.new tasks.new top.new words.new rows.new }
{
    clear_lists(permutation, firsts, starts, groups, tasks, top);
    clear(words);
    clear(rows);
}

// The ten plain areas: those of the structure, the scratch floats and the values.
pub fn clear_all(
    permutation: &mut [usize],
    firsts: &mut [usize],
    starts: &mut [usize],
    groups: &mut [usize],
    tasks: &mut [usize],
    top: &mut [usize],
    words: &mut [usize],
    floats: &mut [f64],
    rows: &mut [usize],
    values: &mut [f64],
)
    ensures zeroed { Zeroed permutation.old firsts.old starts.old groups.old tasks.old top.old words.old rows.old permutation.new firsts.new starts.new groups.new tasks.new top.new words.new rows.new }
    ensures floats_after { (floats.new ≡ replicate (length floats.old) +0) × (values.new ≡ replicate (length values.old) +0) }
{
    clear(floats);
    clear(values);
    clear_structure(permutation, firsts, starts, groups, tasks, top, words, rows);
}

// Behind the first so many words every word becomes 0.
pub fn clear_behind(many: usize, s: &mut [usize])
    requires { many ≤ length s.old }
    ensures { s.new ≡ take many s.old ++ replicate (length s.old - many) 0 }
{
    s[many..].fill(0);
}
