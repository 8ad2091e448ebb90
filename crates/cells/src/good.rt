// Every cell is good, for 5 and for 6: two passes over the heap, one over the stack and one over the saved arguments.
ghost use Rattle.std.specs.Prelude.{◌≡◌, ◌↔◌, true, false, ◌<◌, length};
ghost use Rattle.machine.specs.Lent.{seen};
ghost use Rattle.machine.specs.Refusals.{accepted, first_of, bad_heap};
ghost use Rattle.cells.specs.declared.places.Bad.{Bad};
ghost use Rattle.cells.specs.Cells.{top, saved, last_of, far_in, marked_in, marked_cell, marked_argument, wrong_stack, wrong_argument, checks_of, clean, Clean, Every, struct_good};

use super::noted::Noted;
use super::words::{argument_well, functor_good, marked, stack_word_well};
use cell::Tag;
use machine::{CELL, FIXED, H};

// The last cell that a word refers to, a STRUCT's arguments not counted; 0 of a CONST, which refers to none. A stack address lies above
// every H, so a VAR that holds one needs no test of its own.
#[tactic(auto, unfolding(crate::specs::Cells::last_of))]
fn last_of(word: u32) -> u32
    ensures { result ≡ last_of word }
{
    let tag = cell::tag_number(word);
    let last = cell::value(word) + u32::from(tag == cell::LIST);
    if tag == cell::CONST { 0 } else { last }
}

// Whether every heap cell below H has clear bits and a last cell below H. Faults are counted and none ends the pass: a turn without a
// branch is one that the compiler makes wide, several cells at a time.
#[tactic(auto, unfolding(machine::specs::Layout::field))]
fn values_good(image: Noted<'_>) -> bool
    ensures { (result ≡ true) ↔ Clean (marked_in image.entry.view.heap.now) (far_in image.entry.view.heap.now (top (seen image.entry.view))) (top (seen image.entry.view)) }
{
    let limit = image.view.control[H];
    let mut wrong = 0;
    for word in &image.view.heap[..limit as usize] {
        wrong += u32::from(limit <= last_of(*word)) + u32::from(word % 4 != 0);
    }
    wrong == 0
}

// Whether the heap cell at i is no STRUCT, or one whose first cell is a functor with its arguments below H.
#[tactic(auto, unfolding(crate::specs::Cells::struct_good, crate::specs::Cells::far_in, crate::specs::Cells::last_of))]
fn struct_good(image: Noted<'_>, i: usize) -> bool
    requires inside { i < top (seen image.view) }
    requires near { far_in image.view.heap.now (top (seen image.view)) i ≡ false }
    ensures { result ≡ struct_good (seen image.entry.view) i }
{
    let word = image.view.heap[i];
    match Tag::of(word) {
        Tag::Struct => functor_good(image, cell::value(word) as usize),
        _ => true,
    }
}

// Whether every STRUCT below H is good. Of cells that have all passed values_good nothing else is left to look at.
fn structures_good(image: Noted<'_>) -> bool
    requires { Clean (marked_in image.view.heap.now) (far_in image.view.heap.now (top (seen image.view))) (top (seen image.view)) }
    ensures { Every (struct_good (seen image.entry.view)) (top (seen image.entry.view)) result }
{
    (0..image.top()).all(|i| struct_good(image, i))
}

// Whether every heap cell below H is good. Two passes: what a word alone decides takes no branch, and only STRUCTs, whose functors must be
// looked up, take one.
fn heap_good(image: Noted<'_>) -> bool
    ensures { result ≡ true → Clean (marked_in image.entry.view.heap.now) (bad_heap (seen image.entry.view)) (top (seen image.entry.view)) }
{
    values_good(image) && structures_good(image)
}

// Whether the stack word at i is no cell or a good one.
#[tactic(auto, unfolding(crate::specs::Cells::marked_cell, crate::specs::Cells::wrong_stack))]
fn cell_good(image: Noted<'_>, i: usize) -> bool
    requires { i < length image.view.stack.now }
    ensures { result ≡ clean (marked_cell (seen image.entry.view) image.entry.work.now image.entry.notes) (wrong_stack (seen image.entry.view) image.entry.work.now image.entry.notes) i }
{
    let word = image.view.stack[i];
    image.work[image.notes + i] != CELL || !marked(word) && stack_word_well(image, i, word)
}

// Whether every stack cell is good.
fn stack_good(image: Noted<'_>) -> bool
    ensures { let X = seen image.entry.view in
        Every (clean (marked_cell X image.entry.work.now image.entry.notes) (wrong_stack X image.entry.work.now image.entry.notes)) (length X.stack) result }
{
    (0..image.view.stack.len()).all(|i| cell_good(image, i))
}

// Whether the saved argument i is good.
#[tactic(auto, unfolding(machine::specs::Layout::field, machine::specs::Layout::argument, crate::specs::Cells::marked_argument, crate::specs::Cells::wrong_argument))]
fn argument_good(image: Noted<'_>, i: usize) -> bool
    requires { i < saved (seen image.view) }
    ensures { result ≡ clean (marked_argument image.entry.view.control.now) (wrong_argument (seen image.entry.view) image.entry.work.now image.entry.notes) i }
{
    let word = image.view.control[FIXED + i];
    !marked(word) && argument_well(image, word)
}

// Whether every saved argument is good.
fn control_good(image: Noted<'_>) -> bool
    ensures { Every (clean (marked_argument image.entry.view.control.now) (wrong_argument (seen image.entry.view) image.entry.work.now image.entry.notes)) (saved (seen image.entry.view)) result }
{
    (0..image.saved()).all(|i| argument_good(image, i))
}

// Whether no cell is refused under 5 or 6.
pub(super) fn all_good(image: Noted<'_>) -> bool
    ensures { (bad : Bad) → result ≡ true → first_of (checks_of bad (seen image.entry.view) image.entry.work.now image.entry.notes) ≡ accepted }
{
    heap_good(image) && stack_good(image) && control_good(image)
}
