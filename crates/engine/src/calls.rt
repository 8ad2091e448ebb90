// The collection and the step back.
ghost use Rattle.std.specs.Prelude.{◌≡◌};
ghost use Rattle.machine.specs.Answers.{answer_of, step_answer_of};
ghost use Rattle.engine.specs.Calls.{collected_of, CollectsForC, stepped_of, StepsBackForC};

use crate::reasons::Reason;
use crate::{BikCollected, BikStepped};
use machine::{Collected, Refusal};

// The answer of a collection as a struct of numbers.
#[tactic(auto, unfolding(crate::specs::Calls::collected_of, machine::specs::Answers::answer_of))]
fn collected(answer: Result<Collected, Refusal>) -> BikCollected
    ensures { result ≡ collected_of (answer_of answer) }
{
    match answer {
        Ok(Collected { cells, entries }) => BikCollected {
            cells_kept: cells.kept as u64,
            cells_dropped: cells.dropped as u64,
            entries_kept: entries.kept as u64,
            entries_dropped: entries.dropped as u64,
            ..BikCollected::default()
        },
        Err(refusal) => {
            let why = Reason::from(refusal);
            BikCollected {
                refusal: why.number,
                area: why.area,
                index: why.index,
                ..BikCollected::default()
            }
        }
    }
}

// Collects: `collect::collect` for C.
pub fn bik_collect(
    control: &mut [u32],
    stack: &mut [u32],
    heap: &mut [u32],
    trail: &mut [u32],
    work: &mut [u32],
) -> BikCollected
    ensures { CollectsForC (record { control = control.old; stack = stack.old; heap = heap.old; trail = trail.old })
        work.old result (record { control = control.new; stack = stack.new; heap = heap.new; trail = trail.new }) work.new }
{
    collected(collect::collect(control, stack, heap, trail, work))
}

// The answer of a step back as a struct of numbers.
#[tactic(auto, unfolding(crate::specs::Calls::stepped_of, machine::specs::Answers::step_answer_of))]
fn stepped(answer: Result<usize, Refusal>) -> BikStepped
    ensures { result ≡ stepped_of (step_answer_of answer) }
{
    match answer {
        Ok(undone) => BikStepped {
            undone: undone as u64,
            ..BikStepped::default()
        },
        Err(refusal) => {
            let why = Reason::from(refusal);
            BikStepped {
                refusal: why.number,
                area: why.area,
                index: why.index,
                ..BikStepped::default()
            }
        }
    }
}

// Steps back to the newest choice point: `retreat::step_back` for C.
pub fn bik_step_back(
    control: &mut [u32],
    stack: &mut [u32],
    heap: &mut [u32],
    trail: &mut [u32],
    work: &mut [u32],
) -> BikStepped
    ensures { StepsBackForC (record { control = control.old; stack = stack.old; heap = heap.old; trail = trail.old })
        work.old result (record { control = control.new; stack = stack.new; heap = heap.new; trail = trail.new }) work.new }
{
    stepped(retreat::step_back(control, stack, heap, trail, work))
}
