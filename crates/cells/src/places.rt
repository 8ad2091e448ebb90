// The lowest place for 5, for 6 and for 7. A cell is looked for in the heap, the stack and the control area, in that order.
ghost use Rattle.std.specs.Prelude.{◌≡◌, ◌<◌, length};
ghost use Rattle.machine.specs.Lowest.{Lowest};
ghost use Rattle.machine.specs.Lent.{seen};
ghost use Rattle.machine.specs.Refusals.{refused, in_area, first_of};
ghost use Rattle.cells.specs.Cells.{top, saved, used, checked_to, number_of, on_heap, on_stack, on_control, checks_of, wrong_entry, EntriesSized};

use super::noted::Noted;
use super::words::{argument_well, entry_well, marked, refers_well, stack_word_well};
use machine::{Area, CELL, FIXED, Place, Refusal, T, View};

// What a cell is refused for: m or f is set, or it refers wrongly.
#[derive(Clone, Copy)]
pub(super) enum Bad {
    Bits,
    Reference,
}

impl Bad {
    // 5 or 6, at an index of an area.
    #[tactic(auto, unfolding(crate::specs::Cells::checked_to, machine::specs::Answers::verdict_of))]
    fn refuse(self, area: Area, index: usize) -> Result<(), Refusal>
        ensures { checked_to result ≡ refused (number_of self) (in_area area index) }
    {
        let place = Place { area, index };
        match self {
            Bad::Bits => Err(Refusal::Bits(place)),
            Bad::Reference => Err(Refusal::Reference(place)),
        }
    }
}

// Whether the heap cell at i is bad in this way.
#[tactic(auto, unfolding(crate::specs::Cells::on_heap, crate::specs::Cells::marked_in, machine::specs::Refusals::bad_heap))]
fn on_heap(bad: Bad, image: Noted<'_>, i: usize) -> bool
    requires { i < top (seen image.view) }
    ensures { result ≡ on_heap bad (seen image.entry.view) i }
{
    let word = image.view.heap[i];
    match bad {
        Bad::Bits => marked(word),
        Bad::Reference => !refers_well(image, word),
    }
}

// Whether the stack word at i is a cell that is bad in this way.
#[tactic(auto, unfolding(crate::specs::Cells::on_stack, crate::specs::Cells::marked_cell, crate::specs::Cells::wrong_stack))]
fn on_stack(bad: Bad, image: Noted<'_>, i: usize) -> bool
    requires { i < length image.view.stack.now }
    ensures { result ≡ on_stack bad (seen image.entry.view) image.entry.work.now image.entry.notes i }
{
    let word = image.view.stack[i];
    image.work[image.notes + i] == CELL
        && match bad {
            Bad::Bits => marked(word),
            Bad::Reference => !stack_word_well(image, i, word),
        }
}

// Whether the saved argument i is bad in this way.
#[tactic(auto, unfolding(crate::specs::Cells::on_control, crate::specs::Cells::marked_argument, crate::specs::Cells::wrong_argument, machine::specs::Layout::argument))]
fn on_control(bad: Bad, image: Noted<'_>, i: usize) -> bool
    requires { i < saved (seen image.view) }
    ensures { result ≡ on_control bad (seen image.entry.view) image.entry.work.now image.entry.notes i }
{
    let word = image.view.control[FIXED + i];
    match bad {
        Bad::Bits => marked(word),
        Bad::Reference => !argument_well(image, word),
    }
}

// The lowest stack word that is a cell which is bad in this way. Each way has a pass of its own, so that the pass tests for that alone.
#[inline(always)]
fn first_stack(bad: Bad, image: Noted<'_>) -> Option<usize>
    ensures { Lowest (on_stack bad (seen image.entry.view) image.entry.work.now image.entry.notes) (length image.entry.view.stack.now) result }
{
    let mut indexes = 0..image.view.stack.len();
    match bad {
        Bad::Bits => indexes.find(|&i| on_stack(Bad::Bits, image, i)),
        Bad::Reference => indexes.find(|&i| on_stack(Bad::Reference, image, i)),
    }
}

// The refusal of the lowest cell that is bad in this way; no area is searched behind one that has a bad cell. Inlined, since each call names
// one way, and its passes then test for that alone.
#[inline(always)]
pub(super) fn find(bad: Bad, image: Noted<'_>) -> Result<(), Refusal>
    ensures { checked_to result ≡ first_of (checks_of bad (seen image.entry.view) image.entry.work.now image.entry.notes) }
{
    if let Some(x) = (0..image.top()).find(|&i| on_heap(bad, image, i)) {
        return bad.refuse(Area::Heap, x);
    }
    if let Some(i) = first_stack(bad, image) {
        return bad.refuse(Area::Stack, i);
    }
    match (0..image.saved()).find(|&i| on_control(bad, image, i)) {
        Some(a) => bad.refuse(Area::Control, FIXED + a),
        None => Ok(()),
    }
}

// 7: the lowest trail entry that names neither a heap cell nor a stack word that may be reset.
#[tactic(auto, unfolding(machine::specs::Layout::field, crate::specs::Cells::wrong_entry))]
pub(super) fn wrong_entry(view: View<'_>, work: &[u32], notes: usize) -> Option<usize>
    requires { EntriesSized (seen view) work.now notes }
    ensures { Lowest (wrong_entry (seen view.entry) work.now notes) (used (seen view.entry)) result }
{
    let t = view.control[T] as usize;
    view.trail[..t]
        .iter()
        .position(|&entry| !entry_well(view, work, notes, entry))
}
