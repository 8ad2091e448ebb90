// Why a heap cell is held.
ghost use Rattle.std.specs.Prelude.{◌≡◌};
ghost use Rattle.holder.specs.Answers.{said_of};
ghost use Rattle.engine.specs.Why.{unheld, held_of, ExplainsForC};

use crate::BikHeld;
use crate::reasons::{Reason, area_number, placeless};
use holder::{Held, Untold};
use machine::View;

// A dead cell or a refusal as a struct of numbers.
fn unheld(why: Reason) -> BikHeld
    ensures { result ≡ unheld why }
{
    BikHeld {
        refusal: why.number,
        area: why.area,
        index: why.index,
        ..BikHeld::default()
    }
}

// The answer as a struct of numbers.
#[tactic(auto, unfolding(crate::specs::Why::held_of, holder::specs::Answers::said_of))]
fn told(answer: Result<Option<Held>, Untold>) -> BikHeld
    ensures { result ≡ held_of (said_of answer) }
{
    match answer {
        Ok(Some(Held { root, length })) => BikHeld {
            held: 1,
            root_area: area_number(root.area),
            root_index: root.index as u64,
            length: length as u64,
            ..BikHeld::default()
        },
        Ok(None) => BikHeld::default(),
        Err(Untold::NoCell) => unheld(placeless(18)),
        Err(Untold::RoomShort) => unheld(placeless(19)),
        Err(Untold::Image(refusal)) => unheld(Reason::from(refusal)),
    }
}

// Tells why a heap cell is held: `holder::why_held` for C.
pub fn bik_why_held(
    control: &[u32],
    stack: &[u32],
    heap: &[u32],
    trail: &[u32],
    work: &mut [u32],
    cell: u32,
    room: &mut [u32],
) -> BikHeld
    ensures { ExplainsForC (record { control = control.now; stack = stack.now; heap = heap.now; trail = trail.now }) work.old cell room.old result work.new room.new }
{
    let view = View {
        control,
        stack,
        heap,
        trail,
    };
    told(holder::why_held(view, work, cell, room))
}
