// Runs a schedule of collections and steps back over lent areas: demand 3 as the two entries themselves meet it.
#![tactic(auto)]

ghost use Rattle.replay.specs.Replays.{Calls, Replays};

// One call of a schedule, 0 a collection and any other byte a step back; whether it was granted.
fn call(
    byte: u8,
    control: &mut [u32],
    stack: &mut [u32],
    heap: &mut [u32],
    trail: &mut [u32],
    work: &mut [u32],
) -> bool
    ensures { Calls byte (record { control = control.old; stack = stack.old; heap = heap.old; trail = trail.old })
        work.old result (record { control = control.new; stack = stack.new; heap = heap.new; trail = trail.new }) work.new }
{
    match byte {
        0 => collect::collect(control, stack, heap, trail, work).is_ok(),
        _ => retreat::step_back(control, stack, heap, trail, work).is_ok(),
    }
}

// Runs the calls one after the other, up to the first that is refused, whose index is the error.
pub fn replay(
    calls: &[u8],
    control: &mut [u32],
    stack: &mut [u32],
    heap: &mut [u32],
    trail: &mut [u32],
    work: &mut [u32],
) -> Result<(), usize>
    ensures { Replays 0 (record { control = control.old; stack = stack.old; heap = heap.old; trail = trail.old })
        work.old calls.now result (record { control = control.new; stack = stack.new; heap = heap.new; trail = trail.new }) work.new }
{
    for (i, byte) in calls.iter().enumerate() {
        if !call(*byte, control, stack, heap, trail, work) {
            return Err(i);
        }
    }
    Ok(())
}
