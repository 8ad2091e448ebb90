// Counts against lengths, for the reader and the writer.
ghost use Rattle.std.specs.Prelude.{◌≡◌};
ghost use Rattle.machine.specs.Lent.{seen};
ghost use Rattle.machine.specs.Refusals.{legal_sizes};
ghost use Rattle.freeze.specs.Thaw.{lengths_of, within as within_of};

use crate::AreaCounts;
use machine::View;

// Whether areas are of legal size.
#[tactic(auto, unfolding(machine::specs::Refusals::legal_sizes))]
pub fn legal(lent: View<'_>) -> bool
    ensures { result ≡ legal_sizes (seen lent.entry) }
{
    lent.heap.len() <= machine::HEAP_MOST
        && lent.stack.len() <= machine::STACK_MOST
        && lent.trail.len() <= machine::TRAIL_MOST
        && machine::FIXED <= lent.control.len()
        && lent.control.len() <= machine::FIXED + machine::ARGUMENTS_MOST
}

// The room of each area.
pub fn lengths_of(lent: View<'_>) -> AreaCounts
    ensures { result ≡ lengths_of (seen lent.entry) }
{
    AreaCounts {
        control: lent.control.len(),
        stack: lent.stack.len(),
        heap: lent.heap.len(),
        trail: lent.trail.len(),
    }
}

// Whether no count is above its room.
#[tactic(auto, unfolding(crate::specs::Thaw::within))]
pub fn within(n: AreaCounts, room: AreaCounts) -> bool
    ensures { result ≡ within_of n room }
{
    n.control <= room.control
        && n.stack <= room.stack
        && n.heap <= room.heap
        && n.trail <= room.trail
}
