// The collection: admitted, marked, slid, and the work words cleared.
#![tactic(auto)]

ghost use Rattle.machine.specs.Answers.{Collects};
ghost use Rattle.machine.specs.Lent.{seen};
ghost use Rattle.collect.specs.Phases.{Reachable, Reaches, Slidable, Closes};

use machine::{Collected, Counts, H, Refusal, T, View};

// Marks what is reached and turns the marks into counts; answers how many cells are kept.
fn reach(view: View<'_>, work: &mut [u32]) -> u32
    requires { Reachable (seen view) work.old }
    ensures { Reaches (seen view.entry) work.old work.new result }
{
    mark::mark(view, work);
    counts::count(work, view.control[H] as usize)
}

// Slides every area of an admitted image by the counts.
fn close_up(
    control: &mut [u32],
    stack: &mut [u32],
    heap: &mut [u32],
    trail: &mut [u32],
    work: &[u32],
    total: u32,
) -> Collected
    requires { Slidable (record { control = control.old; stack = stack.old; heap = heap.old; trail = trail.old }) work.now total }
    ensures { Closes (record { control = control.old; stack = stack.old; heap = heap.old; trail = trail.old })
        (record { control = control.new; stack = stack.new; heap = heap.new; trail = trail.new }) result }
{
    let top = control[H] as usize;
    let t = control[T] as usize;
    let (front, notes) = work.split_at(heap.len());
    let counts = &front[..top];
    let kept = slide::slide_trail(trail, stack, counts, notes, t);
    slide::slide_stack(stack, counts, notes, total);
    slide::slide_control(control, counts, total, kept as u32);
    slide::slide_heap(heap, counts);
    let cells = Counts {
        kept: total as usize,
        dropped: top - total as usize,
    };
    let entries = Counts {
        kept,
        dropped: t - kept,
    };
    Collected { cells, entries }
}

// Collects: exactly the reached cells stay, and every reference and boundary follows them.
pub fn collect(
    control: &mut [u32],
    stack: &mut [u32],
    heap: &mut [u32],
    trail: &mut [u32],
    work: &mut [u32],
) -> Result<Collected, Refusal>
    ensures { Collects (record { control = control.old; stack = stack.old; heap = heap.old; trail = trail.old })
        work.old result (record { control = control.new; stack = stack.new; heap = heap.new; trail = trail.new }) work.new }
{
    let words = heap.len() + stack.len();
    let view = View {
        control,
        stack,
        heap,
        trail,
    };
    admit::admit(view, work)?;
    let total = reach(view, work);
    let done = close_up(control, stack, heap, trail, work, total);
    counts::clear(work, 0, words);
    Ok(done)
}
