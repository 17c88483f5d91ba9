// From the tree and the counts to the structure of the factor, phase by phase over the areas: the permutation, the
// supernodes, their rows and where the updates start.
#![tactic(auto)]

ghost use Rattle.std.specs.Prelude.{◌≡◌, false, [], ◌∷◌, ◌++◌, suc, ◌≤◌, ◌<◌, length, take, drop, replicate, IfOk, IfErr};
ghost use Rattle.std.proofs.Math.Option.{none, some};
ghost use Rattle.statement.specs.Input.{stored};
ghost use Rattle.statement.specs.Fill.{parent, count};
ghost use Rattle.statement.specs.Lists.{list};
ghost use Rattle.statement.specs.Supernodes.{updates, update_starts};
ghost use Rattle.laws.specs.Numbered.{shape};
ghost use Rattle.statement.specs.Areas.{rows_need, updates_need, values_need, short};
ghost use Rattle.statement.specs.Answers.{or_else, test};
ghost use Rattle.laws.specs.Answered.{passed};
ghost use Rattle.analysis.specs.Phases.{Enough, Numbered, Placed, Analysed, later_needs};

use numbering::numbering;
use statement::{Answer, Room};
use structure::{Numbering, Supernodes, node_starts, structure};
use views::{Columns, Structure};

// The numbers of supernodes and of structure rows.
#[derive(Clone, Copy)]
struct Sizes {
    supernodes: usize,
    rows: usize,
}

// The number of updates, and whether a row structure differs from the counts.
#[derive(Clone, Copy)]
struct Found {
    updates: usize,
    differs: bool,
}

// What the analysis counted.
#[derive(Clone, Copy)]
pub struct Counts {
    pub supernodes: usize,
    pub rows: usize,
    pub updates: usize,
}

// The permutation, the first columns, the row starts and the supernodal parents. The parents are in top and the counts in
// groups before; tasks has the places and then the supernodal parents, words the supernode of each column.
fn numbered(
    matrix: &Columns<'_>,
    permutation: &mut [usize],
    firsts: &mut [usize],
    starts: &mut [usize],
    groups: &mut [usize],
    tasks: &mut [usize],
    top: &mut [usize],
    words: &mut [usize],
) -> Sizes
    requires small { matrix.now.n ≤ 32768 }
    requires enough { Enough matrix.now.n permutation.old firsts.old starts.old groups.old tasks.old top.old words.old }
    requires top_value { (take matrix.now.n top.old ≡ list (parent (stored matrix.now.starts.now matrix.now.rows.now) matrix.now.n) matrix.now.n) × (take matrix.now.n groups.old ≡ list (count (stored matrix.now.starts.now matrix.now.rows.now) matrix.now.n) matrix.now.n) }
    ensures { Numbered (stored matrix.now.starts.now matrix.now.rows.now) matrix.now.n result.supernodes result.rows permutation.old firsts.old starts.old tasks.old permutation.new firsts.new starts.new tasks.new words.new }
{
    let ns = numbering(
        matrix,
        permutation,
        firsts,
        starts,
        groups,
        tasks,
        top,
        words,
    );
    let supernodes = Supernodes {
        matrix: *matrix,
        number: ns,
        firsts,
    };
    let rows = node_starts(&supernodes, groups, top, words, starts, tasks);
    Sizes {
        supernodes: ns,
        rows,
    }
}

// The rows of the supernodes, and where the updates of each start. top is scratch, and groups until then.
fn filled(
    matrix: &Columns<'_>,
    ns: usize,
    permutation: &[usize],
    firsts: &[usize],
    starts: &[usize],
    groups: &mut [usize],
    tasks: &[usize],
    top: &mut [usize],
    words: &[usize],
    rows: &mut [usize],
) -> Found
    requires placed { Placed matrix.now.n ns matrix.now.starts.now matrix.now.rows.now permutation.now firsts.now starts.now tasks.now words.now }
    requires ns_in_bounds { (ns < length groups.old) × (ns ≤ length top.old) × (length (shape (stored matrix.now.starts.now matrix.now.rows.now) matrix.now.n).rows ≤ length rows.old) }
    ensures updates_value { (result.updates ≡ length (updates (shape (stored matrix.now.starts.now matrix.now.rows.now) matrix.now.n))) × (result.differs ≡ false) }
    ensures groups_after { groups.new ≡ update_starts (shape (stored matrix.now.starts.now matrix.now.rows.now) matrix.now.n) ++ drop (suc ns) (replicate (length groups.old) 0) }
    ensures rows_after { rows.new ≡ (shape (stored matrix.now.starts.now matrix.now.rows.now) matrix.now.n).rows ++ drop (length (shape (stored matrix.now.starts.now matrix.now.rows.now) matrix.now.n).rows) rows.old }
{
    let n = matrix.n;
    let numbering = Numbering {
        matrix: *matrix,
        permutation,
        places: tasks,
        owners: words,
        parents: &tasks[n..],
    };
    let differs = structure(&numbering, ns, starts, top, groups, rows);
    groups.fill(0);
    let supernodes = updates::Supernodes {
        matrix: *matrix,
        ns,
        structure: Structure {
            n,
            firsts,
            starts,
            rows,
        },
        owners: words,
    };
    let updates = supernodes.update_starts(top, groups);
    Found { updates, differs }
}

// Areas 9 to 11, and then number 12.
fn verdict(
    rows: usize,
    updates: usize,
    entries: usize,
    differs: bool,
    room: Room,
) -> Result<(), Answer>
    ensures { result ≡ passed (or_else (short ((rows_need rows room ∷ updates_need updates room ∷ []) ++ (values_need entries room ∷ []))) (test differs Answer.WrongStructure none)) }
{
    room::factor(rows, updates, entries, room)?;
    if differs {
        return Err(Answer::WrongStructure);
    }
    Ok(())
}

// The structure of the factor, from the tree in top and the counts in groups; L is to have so many entries. Afterwards words
// has the supernode of each column, and top is scratch.
pub fn build(
    matrix: &Columns<'_>,
    entries: usize,
    room: Room,
    permutation: &mut [usize],
    firsts: &mut [usize],
    starts: &mut [usize],
    groups: &mut [usize],
    tasks: &mut [usize],
    top: &mut [usize],
    words: &mut [usize],
    rows: &mut [usize],
) -> Result<Counts, Answer>
    requires small { matrix.now.n ≤ 32768 }
    requires enough { Enough matrix.now.n permutation.old firsts.old starts.old groups.old tasks.old top.old words.old }
    requires top_value { (take matrix.now.n top.old ≡ list (parent (stored matrix.now.starts.now matrix.now.rows.now) matrix.now.n) matrix.now.n) × (take matrix.now.n groups.old ≡ list (count (stored matrix.now.starts.now matrix.now.rows.now) matrix.now.n) matrix.now.n) }
    requires rows_value { room.rows ≡ length rows.old }
    ensures passed { IfOk result (λ x. Analysed (stored matrix.now.starts.now matrix.now.rows.now) matrix.now.n entries room x.supernodes x.rows x.updates permutation.old firsts.old starts.old groups.old tasks.old rows.old permutation.new firsts.new starts.new groups.new tasks.new words.new rows.new) }
    ensures refused { IfErr result (λ a. short (later_needs (stored matrix.now.starts.now matrix.now.rows.now) matrix.now.n entries room) ≡ some a) }
{
    let sizes = numbered(
        matrix,
        permutation,
        firsts,
        starts,
        groups,
        tasks,
        top,
        words,
    );
    let need = sizes.rows;
    if room.rows < need {
        return Err(Answer::ShortArea { area: 9, need });
    }
    let found = filled(
        matrix,
        sizes.supernodes,
        permutation,
        firsts,
        starts,
        groups,
        tasks,
        top,
        words,
        rows,
    );
    verdict(need, found.updates, entries, found.differs, room)?;
    Ok(Counts {
        supernodes: sizes.supernodes,
        rows: need,
        updates: found.updates,
    })
}
