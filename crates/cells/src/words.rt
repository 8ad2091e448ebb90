// The tests of one word: whether m or f is set, and where it may refer to.
ghost use Rattle.std.specs.Prelude.{◌≡◌, ◌+◌, ◌<◌, ◌≤◌, length};
ghost use Rattle.machine.specs.Lent.{seen};
ghost use Rattle.machine.specs.Refusals.{marked, refers_well};
ghost use Rattle.cells.specs.Cells.{top, functor_well, names_noted, well_on_stack, well_as_argument, well_entry, NoteOf, EntriesSized};

use super::noted::Noted;
use cell::{STACK_BASE, Tag};
use machine::{CELL, H, View};

// Whether m or f is set.
#[tactic(auto, unfolding(machine::specs::Refusals::marked))]
pub(super) fn marked(word: u32) -> bool
    ensures { result ≡ marked word }
{
    cell::bits(word) != 0
}

// Whether the cell at v is a functor whose arguments end at or below H.
#[tactic(auto, unfolding(crate::specs::Cells::functor_well, machine::specs::Refusals::functor_at))]
pub(super) fn functor_good(image: Noted<'_>, v: usize) -> bool
    requires { v < top (seen image.view) }
    ensures { result ≡ functor_well image.entry.view.heap.now (top (seen image.entry.view)) v }
{
    let functor = image.view.heap[v];
    let arity = cell::arity(functor) as usize;
    Tag::of(functor) == Tag::Const && arity != 0 && v + 1 + arity <= image.top()
}

// Whether a word refers within the heap below H, and a STRUCT to a functor.
#[tactic(auto, unfolding(machine::specs::Refusals::refers_well, crate::specs::Cells::functor_well, cell::specs::Word::extent))]
pub(super) fn refers_well(image: Noted<'_>, word: u32) -> bool
    ensures { result ≡ refers_well (top (seen image.entry.view)) image.entry.view.heap.now word }
{
    let v = cell::value(word) as usize;
    match Tag::of(word) {
        Tag::Const => true,
        _ if image.top() <= v => false,
        Tag::Var => true,
        Tag::List => v + 2 <= image.top(),
        Tag::Struct => functor_good(image, v),
    }
}

// The note of the stack word that an address names, if it names one.
fn note_of(view: View<'_>, work: &[u32], notes: usize, address: u32) -> Option<u32>
    requires { notes + length view.stack.now ≤ length work.now }
    ensures { NoteOf (seen view.entry) work.now notes address result }
{
    let i = address.checked_sub(STACK_BASE)? as usize;
    (i < view.stack.len()).then(|| work[notes + i])
}

// Whether a word is a VAR that names a stack word which is a cell.
#[tactic(auto, unfolding(crate::specs::Cells::names_noted))]
fn names_cell(image: Noted<'_>, word: u32) -> bool
    ensures { result ≡ names_noted (seen image.entry.view) image.entry.work.now image.entry.notes word }
{
    Tag::of(word) == Tag::Var
        && note_of(image.view, image.work, image.notes, cell::value(word)) == Some(CELL)
}

// Whether the stack word at i may hold this cell.
#[tactic(auto, unfolding(crate::specs::Cells::well_on_stack))]
pub(super) fn stack_word_well(image: Noted<'_>, i: usize, word: u32) -> bool
    requires { i < length image.view.stack.now }
    ensures { result ≡ well_on_stack (seen image.entry.view) image.entry.work.now image.entry.notes i word }
{
    refers_well(image, word)
        || names_cell(image, word) && cell::value(word) as usize <= STACK_BASE as usize + i
}

// Whether a saved argument of the control area may be this cell.
#[tactic(auto, unfolding(crate::specs::Cells::well_as_argument))]
pub(super) fn argument_well(image: Noted<'_>, word: u32) -> bool
    ensures { result ≡ well_as_argument (seen image.entry.view) image.entry.work.now image.entry.notes word }
{
    refers_well(image, word) || names_cell(image, word)
}

// Whether a trail entry names a heap cell below H or a stack word that is no field.
#[tactic(auto, unfolding(machine::specs::Layout::field, crate::specs::Cells::well_entry))]
pub(super) fn entry_well(view: View<'_>, work: &[u32], notes: usize, entry: u32) -> bool
    requires { EntriesSized (seen view) work.now notes }
    ensures { result ≡ well_entry (seen view.entry) work.now notes entry }
{
    cell::in_heap(entry) && entry < view.control[H]
        || note_of(view, work, notes, entry).is_some_and(|note| note <= CELL)
}
