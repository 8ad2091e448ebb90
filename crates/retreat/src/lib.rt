// The step back: the trail entries since the newest choice point are undone, and the choice point becomes the control area.
#![tactic(auto)]

ghost use Rattle.std.specs.Prelude.{◌≡◌, [], ◌∷◌, ◌+◌, ◌≤◌, length};
ghost use Rattle.machine.specs.Answers.{StepsBack};
ghost use Rattle.machine.specs.Moved.{each};
ghost use Rattle.machine.proofs.Accepted.{Accepted};
ghost use Rattle.retreat.specs.Undo.{copied_word, Undoable, Undid};
ghost use Rattle.retreat.specs.Retreat.{Retreats};

use machine::{B, FIXED, N, NONE, Refusal, T, View};

// Sets the cell of one trail entry to unbound, in heap or stack.
fn undo_entry(heap: &mut [u32], stack: &mut [u32], entry: u32)
    requires { Undoable (entry ∷ []) heap.old stack.old 0 1 }
    ensures { Undid (entry ∷ []) 0 1 heap.old stack.old heap.new stack.new }
{
    if entry < cell::STACK_BASE {
        let x = entry as usize;
        heap[x] = cell::unbound_at(entry);
    } else {
        let i = cell::stack_index(entry) as usize;
        stack[i] = cell::unbound_at(entry);
    }
}

// Sets the cell of each trail entry from a up to z to unbound.
fn undo(trail: &[u32], heap: &mut [u32], stack: &mut [u32], a: usize, z: usize)
    requires { Undoable trail.now heap.old stack.old a z }
    ensures { Undid trail.now a z heap.old stack.old heap.new stack.new }
{
    for &entry in &trail[a..z] {
        undo_entry(heap, stack, entry);
    }
}

// Copies the choice point at b, `count` words, to the front of the control area.
fn copy(control: &mut [u32], stack: &[u32], b: usize, count: usize)
    requires { (count ≤ length control.old) × (b + count ≤ length stack.now) }
    ensures { control.new ≡ each (copied_word stack.now b count) 0 control.old }
{
    // A loop, since the library's copy of a slice would need memmove from whoever links the archive.
    for i in 0..count {
        control[i] = stack[b + i];
    }
}

// The step back from an image that passes 1 to 7 and 17.
fn retreat(
    control: &mut [u32],
    stack: &mut [u32],
    heap: &mut [u32],
    trail: &[u32],
) -> Result<usize, Refusal>
    requires { Accepted (record { control = control.old; stack = stack.old; heap = heap.old; trail = trail.now }) }
    ensures { Retreats (record { control = control.old; stack = stack.old; heap = heap.old; trail = trail.now })
        result (record { control = control.new; stack = stack.new; heap = heap.new; trail = trail.now }) }
{
    let newest = control[B];
    if newest == NONE {
        return Err(Refusal::NoChoicePoint);
    }
    let b = newest as usize;
    let count = FIXED + stack[b + N] as usize;
    if control.len() < count {
        return Err(Refusal::ControlShort);
    }
    let since = stack[b + T] as usize;
    let top = control[T] as usize;
    undo(trail, heap, stack, since, top);
    copy(control, stack, b, count);
    Ok(top - since)
}

// The step back from any image: its refusal, or the number of trail entries undone.
pub fn step_back(
    control: &mut [u32],
    stack: &mut [u32],
    heap: &mut [u32],
    trail: &[u32],
    work: &mut [u32],
) -> Result<usize, Refusal>
    ensures { StepsBack (record { control = control.old; stack = stack.old; heap = heap.old; trail = trail.now })
        work.old result (record { control = control.new; stack = stack.new; heap = heap.new; trail = trail.now }) work.new }
{
    let words = heap.len() + stack.len();
    let view = View {
        control,
        stack,
        heap,
        trail,
    };
    admit::admit(view, work)?;
    let answer = retreat(control, stack, heap, trail);
    counts::clear(work, 0, words);
    answer
}
