// A flag for the first cell of each STRUCT's target, in the heap's part of the work words: STRUCTs of the heap, dead or not, of the stack's
// cells and of the saved arguments. Each function answers how many STRUCTs it met.
ghost use Rattle.std.specs.Prelude.{◌≡◌, ◌+◌, ◌<◌, ◌≤◌, length};
ghost use Rattle.cell.specs.Word.{STRUCT, value_of, tag_of};
ghost use Rattle.machine.specs.Layout.{H, N, reg};
ghost use Rattle.machine.specs.Lent.{seen};
ghost use Rattle.machine.specs.Refusals.{struct_to};
ghost use Rattle.functors.specs.Functors.{heap_to, stack_to, any_to, first_in, Aims, Flags, Contained};

use cell::Tag;
use machine::{CELL, FIXED, View};

// Flags the first cell of one word's target, where the word is a STRUCT. Thousands may share one target: it is read for each and written
// for the first.
fn flag_word(work: &mut [u32], word: u32) -> usize
    requires { tag_of word ≡ STRUCT → value_of word < length work.old }
    ensures { Flags (struct_to word) work.old work.new result 1 }
{
    match Tag::of(word) {
        Tag::Struct => {
            let x = cell::value(word) as usize;
            if work[x] != 1 {
                work[x] = 1;
            }
            1
        }
        _ => 0,
    }
}

// Of some words, all of them cells.
fn flag_words(words: &[u32], work: &mut [u32]) -> usize
    requires { Aims (heap_to words.now) (length words.now) (length work.old) }
    ensures { Flags (any_to (heap_to words.now) (length words.now)) work.old work.new result (length words.now) }
{
    let mut met = 0;
    for word in words {
        met += flag_word(work, *word);
    }
    met
}

// Of the stack's cells, as the notes of the stack's words say which they are.
fn flag_stack(stack: &[u32], notes: &[u32], work: &mut [u32]) -> usize
    requires { (length stack.now ≤ length notes.now) × Aims (stack_to stack.now notes.now 0) (length stack.now) (length work.old) }
    ensures { Flags (any_to (stack_to stack.now notes.now 0) (length stack.now)) work.old work.new result (length stack.now) }
{
    let mut met = 0;
    for (word, note) in stack.iter().zip(notes) {
        if *note == CELL {
            met += flag_word(work, *word);
        }
    }
    met
}

// Of all three.
#[tactic(auto, unfolding(machine::specs::Layout::field))]
pub(super) fn flag_all(view: View<'_>, work: &mut [u32], notes: usize) -> usize
    requires { Contained (seen view) work.old notes }
    ensures { let X = seen view.entry in Flags (first_in X work.old notes) work.old work.new result (length X.stack + reg X N + reg X H) }
{
    let h = view.control[machine::H] as usize;
    let n = view.control[machine::N] as usize;
    let (front, noted) = work.split_at_mut(notes);
    let on_stack = flag_stack(view.stack, noted, front);
    let in_control = flag_words(&view.control[FIXED..FIXED + n], front);
    let on_heap = flag_words(&view.heap[..h], front);
    on_stack + in_control + on_heap
}
