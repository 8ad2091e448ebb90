// Slides each area: the heap closes up over dropped cells, the trail over dropped entries, and every reference and boundary follows.
#![tactic(auto)]

ghost use Rattle.std.specs.Prelude.{◌≡◌, Bool, ℕ, length};
ghost use Rattle.machine.specs.Moved.{below, move_word, each, close_up};
ghost use Rattle.counts.specs.Counts.{Counting};
ghost use Rattle.slide.specs.Closed.{EntryBelow, Named, EntryKept, EntryMoved, EntriesClose, EntriesClosed};
ghost use Rattle.slide.specs.Slides.{move_noted, move_cell, move_control_word, HeapSlides, StackSlides, WordSlides, ControlSlides, TrailSlides, TrailSlid};

use machine::{CELL, FIXED, H, N, OWN, T};

// The notes of T and H fields.
const T_FIELD: u32 = OWN + T as u32;

const H_FIELD: u32 = OWN + H as u32;

// The kept cells move down in order, and zeros follow them up to the end of the counts.
pub fn slide_heap(heap: &mut [u32], counts: &[u32])
    requires { HeapSlides heap.old counts.now }
    ensures { (cells : ℕ → Bool) → Counting cells (length counts.now) counts.now → heap.new ≡ close_up cells (move_word (below cells)) (length counts.now) heap.old }
{
    let top = counts.len();
    let mut to = 0;
    for x in 0..top {
        if counts[x] % 2 == 1 {
            heap[to] = counts::moved_word(counts, top, heap[x]);
            to += 1;
        }
    }
    counts::clear(heap, to, top);
}

// Whether a trail entry is kept.
fn keeps(counts: &[u32], notes: &[u32], entry: u32) -> bool
    requires { Named counts.now notes.now entry }
    ensures { EntryKept counts.now notes.now entry result }
{
    if entry < cell::STACK_BASE {
        counts[entry as usize] % 2 == 1
    } else {
        notes[cell::stack_index(entry) as usize] == CELL
    }
}

// A kept entry as it stands after the collection.
fn moved_entry(counts: &[u32], entry: u32) -> u32
    requires { EntryBelow (length counts.now) entry }
    ensures { EntryMoved counts.now entry result }
{
    if entry < cell::STACK_BASE {
        counts[entry as usize] / 2
    } else {
        entry
    }
}

// Closes up the entries from a up to z, the kept ones going to `to` and after; answers the place after them.
fn close_entries(
    trail: &mut [u32],
    counts: &[u32],
    notes: &[u32],
    a: usize,
    z: usize,
    to: usize,
) -> usize
    requires { EntriesClose trail.old counts.now notes.now a z to }
    ensures { EntriesClosed trail.old counts.now notes.now a z to trail.new result }
{
    let mut k = to;
    for i in a..z {
        let entry = trail[i];
        // Every entry is written down and only a kept one stays, so that the processor has no branch to guess.
        trail[k] = moved_entry(counts, entry);
        k += usize::from(keeps(counts, notes, entry));
    }
    k
}

// The kept entries close up, zeros follow them up to t, and each T field of the stack becomes the number of kept entries below it. The
// fields rise along the stack, so the trail is passed once.
pub fn slide_trail(
    trail: &mut [u32],
    stack: &mut [u32],
    counts: &[u32],
    notes: &[u32],
    t: usize,
) -> usize
    requires { TrailSlides trail.old stack.old counts.now notes.now t }
    ensures { (cells : ℕ → Bool) → Counting cells (length counts.now) counts.now → TrailSlid cells trail.old stack.old notes.now t trail.new stack.new result }
{
    let mut kept = 0;
    let mut from = 0;
    for (i, word) in stack.iter_mut().enumerate() {
        if notes[i] == T_FIELD {
            let z = *word as usize;
            kept = close_entries(trail, counts, notes, from, z, kept);
            *word = kept as u32;
            from = z;
        }
    }
    kept = close_entries(trail, counts, notes, from, t, kept);
    counts::clear(trail, kept, t);
    kept
}

// A stack word by its note: a cell is moved, an H field becomes d of it.
#[tactic(auto, unfolding(crate::specs::Slides::move_noted))]
fn slid_word(counts: &[u32], total: u32, note: u32, word: u32) -> u32
    requires { WordSlides counts.now note word }
    ensures { (cells : ℕ → Bool) → Counting cells (length counts.now) counts.now → total ≡ below cells (length counts.now) → result ≡ move_noted cells note word }
{
    match note {
        CELL => counts::moved_word(counts, counts.len(), word),
        H_FIELD => counts::boundary(counts, counts.len(), total, word),
        _ => word,
    }
}

// The stack's cells are moved, and its H fields become d of them.
pub fn slide_stack(stack: &mut [u32], counts: &[u32], notes: &[u32], total: u32)
    requires { StackSlides stack.old counts.now notes.now }
    ensures { (cells : ℕ → Bool) → Counting cells (length counts.now) counts.now → total ≡ below cells (length counts.now) → stack.new ≡ each (move_cell cells notes.now) 0 stack.old }
{
    for (i, word) in stack.iter_mut().enumerate() {
        *word = slid_word(counts, total, notes[i], *word);
    }
}

// The control area's saved arguments are moved; H becomes the number of kept cells, and T that of kept entries.
#[tactic(auto, unfolding(machine::specs::Layout::field))]
pub fn slide_control(control: &mut [u32], counts: &[u32], total: u32, kept: u32)
    requires { ControlSlides control.old counts.now }
    ensures { (cells : ℕ → Bool) → Counting cells (length counts.now) counts.now → control.new ≡ each (move_control_word cells total kept control.old) 0 control.old }
{
    let end = FIXED + control[N] as usize;
    for word in &mut control[FIXED..end] {
        *word = counts::moved_word(counts, counts.len(), *word);
    }
    control[T] = kept;
    control[H] = total;
}
