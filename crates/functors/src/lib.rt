// The check of refusal 17: no cell and no trail entry refers to the first cell of a STRUCT's target, but a STRUCT to its own. The first cells
// are flagged in the heap's part of the work words, which is blank before and after. Where no structure's arguments hold another's first cell
// the flags decide; else they are counted, so that the test of a word takes the same time whatever its arity.
#![tactic(auto)]

mod flags; // flags.rt: a flag for each first cell
mod tallies; // tallies.rt: whether the structures lie apart; if not, the flags are counted
mod words; // words.rt: whether one word covers a first cell
mod places; // places.rt: the lowest place of a word that does

ghost use Rattle.std.specs.Prelude.{length};
ghost use Rattle.machine.specs.Lent.{seen};
ghost use Rattle.functors.specs.Functors.{Checkable, ChecksFirst};

use machine::{H, Refusal, View};
use places::Searched;

// Refusal 17, of an image that passes 1 to 7 and whose stack words are noted in the work words from `notes` on. They are left as they were.
#[tactic(auto, unfolding(machine::specs::Layout::field))]
pub fn check_first(view: View<'_>, work: &mut [u32], notes: usize) -> Result<(), Refusal>
    requires { Checkable (seen view) work.old notes }
    ensures { ChecksFirst (seen view.entry) work.old result work.new }
{
    if flags::flag_all(view, work, notes) == 0 {
        return Ok(());
    }
    let h = view.control[H] as usize;
    let total = tallies::tally(view.heap, h, work);
    let checked = Searched {
        view,
        work,
        notes,
        total,
    }
    .find();
    work[..h].fill(0);
    checked
}
