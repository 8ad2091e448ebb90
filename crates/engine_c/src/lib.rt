// The archive that an engine written in C links: the functions of `engine` under their C names, each with the same clauses.
// include/bikorashen.h declares them, in the same order.
#![tactic(auto)]

ghost use Rattle.freeze.specs.Thaw.{image_of};
ghost use Rattle.engine.specs.Calls.{CollectsForC, StepsBackForC};
ghost use Rattle.engine.specs.Why.{ExplainsForC};
ghost use Rattle.engine.specs.Parts.{NamesPart};
ghost use Rattle.engine.specs.Files.{ThawsForC, FreezesForC, ReadsForC};

use engine::{BikCollected, BikFrozen, BikHeld, BikPart, BikRecord, BikStepped, BikThawed};

// Collects.
#[unsafe(no_mangle)]
pub extern "C" fn bik_collect(
    control: &mut [u32],
    stack: &mut [u32],
    heap: &mut [u32],
    trail: &mut [u32],
    work: &mut [u32],
) -> BikCollected
    ensures { CollectsForC (record { control = control.old; stack = stack.old; heap = heap.old; trail = trail.old })
        work.old result (record { control = control.new; stack = stack.new; heap = heap.new; trail = trail.new }) work.new }
{
    engine::bik_collect(control, stack, heap, trail, work)
}

// Steps back to the newest choice point.
#[unsafe(no_mangle)]
pub extern "C" fn bik_step_back(
    control: &mut [u32],
    stack: &mut [u32],
    heap: &mut [u32],
    trail: &mut [u32],
    work: &mut [u32],
) -> BikStepped
    ensures { StepsBackForC (record { control = control.old; stack = stack.old; heap = heap.old; trail = trail.old })
        work.old result (record { control = control.new; stack = stack.new; heap = heap.new; trail = trail.new }) work.new }
{
    engine::bik_step_back(control, stack, heap, trail, work)
}

// Tells why a heap cell is held.
#[unsafe(no_mangle)]
pub extern "C" fn bik_why_held(
    control: &[u32],
    stack: &[u32],
    heap: &[u32],
    trail: &[u32],
    work: &mut [u32],
    cell: u32,
    room: &mut [u32],
) -> BikHeld
    ensures { ExplainsForC (record { control = control.now; stack = stack.now; heap = heap.now; trail = trail.now }) work.old cell room.old result work.new room.new }
{
    engine::bik_why_held(control, stack, heap, trail, work, cell, room)
}

// The part of the heap or of the stack that an address names.
#[unsafe(no_mangle)]
pub extern "C" fn bik_look_up<'a>(heap: &'a [u32], stack: &'a [u32], address: u32) -> BikPart
    ensures { NamesPart heap.now stack.now address result }
{
    engine::bik_look_up(heap, stack, address)
}

// Reads a file into the fronts of four lent areas.
#[unsafe(no_mangle)]
pub extern "C" fn bik_thaw(
    file: &[u8],
    control: &mut [u32],
    stack: &mut [u32],
    heap: &mut [u32],
    trail: &mut [u32],
) -> BikThawed
    ensures { ThawsForC file.now (image_of control.old stack.old heap.old trail.old) result (image_of control.new stack.new heap.new trail.new) }
{
    engine::bik_thaw(file, control, stack, heap, trail)
}

// Writes four areas as a file.
#[unsafe(no_mangle)]
pub extern "C" fn bik_freeze(
    control: &[u32],
    stack: &[u32],
    heap: &[u32],
    trail: &[u32],
    output: &mut [u8],
) -> BikFrozen
    ensures { FreezesForC (image_of control.now stack.now heap.now trail.now) output.old result output.new }
{
    engine::bik_freeze(control, stack, heap, trail, output)
}

// The record at an offset of a file.
#[unsafe(no_mangle)]
pub extern "C" fn bik_record_at(file: &[u8], offset: u64) -> BikRecord
    ensures { ReadsForC file.now offset result }
{
    engine::bik_record_at(file, offset)
}
