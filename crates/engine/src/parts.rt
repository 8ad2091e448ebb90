// The look-up.
ghost use Rattle.engine.specs.Parts.{NamesPart};

use crate::BikPart;
use crate::reasons::{HEAP, STACK};
use cell::STACK_BASE;

// The part of the heap or of the stack that an address names: `machine::look_up` for C. The library gives the part's words, and how
// many there are and the address say which part it is.
pub fn bik_look_up<'a>(heap: &'a [u32], stack: &'a [u32], address: u32) -> BikPart
    ensures { NamesPart heap.now stack.now address result }
{
    let length = machine::look_up(heap, stack, address).len();
    if length == 0 {
        return BikPart {
            area: HEAP,
            index: 0,
            length: 0,
        };
    }
    if address < STACK_BASE {
        return BikPart {
            area: HEAP,
            index: address as u64,
            length: length as u64,
        };
    }
    BikPart {
        area: STACK,
        index: (address - STACK_BASE) as u64,
        length: length as u64,
    }
}
