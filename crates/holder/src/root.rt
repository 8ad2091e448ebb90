// The first root that refers to a cell, control before stack.
ghost use Rattle.std.specs.Prelude.{◌≡◌, ◌<◌, length};
ghost use Rattle.machine.specs.Layout.{N, field};
ghost use Rattle.machine.specs.Lowest.{Lowest};
ghost use Rattle.holder.specs.Tracing.{argument_refers, cell_refers, Arguments, Cells, FirstRoot};

use machine::{Area, CELL, FIXED, Place, View};

// Whether the saved argument k refers to x.
#[tactic(auto, unfolding(machine::specs::Layout::field, machine::specs::Layout::argument, crate::specs::Tracing::argument_refers))]
fn argument_refers(control: &[u32], heap: &[u32], k: usize, x: usize) -> bool
    requires { (k < field control.now 0 N) × Arguments control.now heap.now }
    ensures { result ≡ argument_refers control.now heap.now x k }
{
    queue::refers(heap, control[FIXED + k], x)
}

// The number of the lowest saved argument that refers to x.
#[tactic(auto, unfolding(machine::specs::Layout::field))]
fn first_argument(control: &[u32], heap: &[u32], x: usize) -> Option<usize>
    requires { Arguments control.now heap.now }
    ensures { Lowest (argument_refers control.now heap.now x) (field control.now 0 N) result }
{
    (0..control[machine::N] as usize).find(|&k| argument_refers(control, heap, k, x))
}

// Whether the stack word i is a cell, as its note says, that refers to x.
#[tactic(auto, unfolding(crate::specs::Tracing::cell_refers))]
fn cell_refers(stack: &[u32], heap: &[u32], work: &[u32], i: usize, x: usize) -> bool
    requires { (i < length stack.now) × Cells stack.now heap.now work.now }
    ensures { result ≡ cell_refers stack.now heap.now work.now x i }
{
    work[heap.len() + i] == CELL && queue::refers(heap, stack[i], x)
}

// The lowest cell of the stack that refers to x.
fn first_cell(stack: &[u32], heap: &[u32], work: &[u32], x: usize) -> Option<usize>
    requires { Cells stack.now heap.now work.now }
    ensures { Lowest (cell_refers stack.now heap.now work.now x) (length stack.now) result }
{
    (0..stack.len()).find(|&i| cell_refers(stack, heap, work, i, x))
}

// The first root that refers to x, or the end of the stack.
pub(super) fn root_of(view: View<'_>, work: &[u32], x: usize) -> Place
    requires { Arguments view.control.now view.heap.now × Cells view.stack.now view.heap.now work.now }
    ensures { FirstRoot view.entry.control.now view.entry.stack.now view.entry.heap.now work.now x result }
{
    if let Some(k) = first_argument(view.control, view.heap, x) {
        return Place {
            area: Area::Control,
            index: FIXED + k,
        };
    }
    let index = first_cell(view.stack, view.heap, work, x).unwrap_or(view.stack.len());
    Place {
        area: Area::Stack,
        index,
    }
}
