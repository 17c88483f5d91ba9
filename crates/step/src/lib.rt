// One supernode's step: its stretch of the values from A and the earlier supernodes' stretches.
#![tactic(auto)]

ghost use Rattle.std.specs.Prelude.{◌≡◌, ◌<◌, length, IfErr};
ghost use Rattle.laws.specs.Lower.{lower_value};
ghost use Rattle.views.specs.Shown.{shape_of};
ghost use Rattle.step.specs.Answer.{Ready, Stepped};

use assembly::{Supernode, assemble};
use products::clear;
use statement::Factored;
use views::{Lower, Structure};

// The step of the supernode j, whose rows' positions stand in place: its stretch of the values becomes what the entry rules make of A and of the
// earlier supernodes' stretches as they stand, or zeros where a pivot breaks the rule: `Err` is the first column whose pivot does. Nothing else of
// the values is changed.
pub fn step(
    j: usize,
    structure: &Structure<'_>,
    offsets: &[usize],
    upd: &[usize],
    count: usize,
    lower: &Lower<'_>,
    values: &mut [f64],
    work: &mut [f64],
    place: &[usize],
) -> Result<(), Factored>
    requires { Ready (shape_of structure.now) j offsets.now upd.now count lower.now.n lower.now.starts.now lower.now.rows.now (length values.old) (length work.old) place.now }
    ensures stepped { Stepped (shape_of structure.now) (lower_value lower.now.starts.now lower.now.rows.now lower.now.values.now) j values.old values.new result }
    ensures below { IfErr result (λ c. c.0 < structure.now.n) }
{
    let own = Supernode::of(j, structure, offsets);
    assemble(
        values, j, &own, structure, offsets, upd, count, lower, work, place,
    );
    match panels::dense(
        &mut values[own.offset..],
        work,
        own.height,
        own.width,
        own.first,
        lower,
    ) {
        Ok(()) => Ok(()),
        Err(c) => {
            clear(
                &mut values[own.offset..],
                panel::column_start(own.height, own.width),
            );
            Err(Factored(own.first + c))
        }
    }
}
