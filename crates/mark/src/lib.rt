// Marking by a pending stack that is linked through the work words: one word a heap cell holds both its mark and its link.
#![tactic(auto)]

ghost use Rattle.std.specs.Prelude.{◌≡◌, ℕ, ◌+◌, ◌<◌, ◌≤◌, length};
ghost use Rattle.cell.specs.Word.{Refers};
ghost use Rattle.machine.specs.Layout.{N, fixed, field, heap_most};
ghost use Rattle.mark.specs.Marks.{Markable, MarksReached};
ghost use Rattle.mark.specs.Whole.{Whole, Passable, CellsBelow};
ghost use Rattle.mark.specs.Pending.{Range, Pushed, Pushable, Inside, Ready, Drained};
ghost use Rattle.mark.specs.Roots.{Arguments, ByArgument, StackCells, ByCell};

use cell::Tag;
use machine::{CELL, FIXED, H, View};

// Marks the cell x and puts it on the pending stack, unless it is marked. A CONST refers to nothing: it is marked and not looked into.
fn push(heap: &[u32], marks: &mut [u32], top: u32, x: usize) -> u32
    requires { (x < length marks.old) × (length marks.old ≤ length heap.now) × (length marks.old ≤ heap_most) × (top ≤ length marks.old) }
    ensures { Pushed heap.now (λ (y : ℕ). y ≡ x) marks.old top marks.new result }
{
    if marks[x] != 0 {
        return top;
    }
    match Tag::of(heap[x]) {
        Tag::Const => {
            marks[x] = 1;
            top
        }
        _ => {
            marks[x] = top + 1;
            x as u32 + 1
        }
    }
}

// Pushes the unmarked cells from a up to, not including, z.
fn push_range(heap: &[u32], marks: &mut [u32], top: u32, a: usize, z: usize) -> u32
    requires { Pushable heap.now (Range a z) marks.old top }
    ensures { Pushed heap.now (Range a z) marks.old top marks.new result }
{
    let mut t = top;
    for x in a..z {
        t = push(heap, marks, t, x);
    }
    t
}

// Pushes the two cells of a LIST, a and a + 1, where they are unmarked.
fn push_pair(heap: &[u32], marks: &mut [u32], top: u32, a: usize) -> u32
    requires { Pushable heap.now (Range a (a + 2)) marks.old top }
    ensures { Pushed heap.now (Range a (a + 2)) marks.old top marks.new result }
{
    let t = push(heap, marks, top, a);
    push(heap, marks, t, a + 1)
}

// Pushes the unmarked cells that a word refers to.
fn push_word(heap: &[u32], marks: &mut [u32], top: u32, word: u32) -> u32
    requires { Pushable heap.now (Refers heap.now word) marks.old top × Whole heap.now (λ (w : ℕ). w ≡ word) marks.old }
    ensures { Pushed heap.now (Refers heap.now word) marks.old top marks.new result }
{
    let v = cell::value(word);
    let a = v as usize;
    match Tag::of(word) {
        Tag::Var if v < cell::STACK_BASE => push(heap, marks, top, a),
        Tag::Var => top,
        // Its first cell is marked: only a STRUCT can have done that, and it marked the arguments too.
        Tag::Struct if marks[a] != 0 => top,
        Tag::Struct => push_range(heap, marks, top, a, a + 1 + cell::arity(heap[a]) as usize),
        Tag::List => push_pair(heap, marks, top, a),
        Tag::Const => top,
    }
}

// Looks into pending cells until none is left: then all that is reached from the cells marked at entry is marked, and nothing else.
fn drain(heap: &[u32], marks: &mut [u32], top: u32)
    requires inside { Inside (length marks.old) heap.now }
    requires marks_in_bounds { (length marks.old ≤ length heap.now) × (length marks.old ≤ heap_most) × Ready heap.now marks.old top }
    requires passable { Passable heap.now (CellsBelow (length marks.old) heap.now) marks.old }
    ensures { Drained heap.now marks.old marks.new }
{
    let mut t = top;
    while t != 0 {
        let x = (t - 1) as usize;
        let below = marks[x] - 1;
        t = push_word(heap, marks, below, heap[x]);
    }
}

// Pushes what the control area's saved arguments refer to, onto an empty pending stack.
fn push_arguments(control: &[u32], heap: &[u32], marks: &mut [u32]) -> u32
    requires control_in_bounds { (fixed + field control.now 0 N ≤ length control.now) × Pushable heap.now (ByArgument control.now heap.now) marks.old 0 }
    requires passable { Passable heap.now (Arguments control.now) marks.old }
    ensures { Pushed heap.now (ByArgument control.now heap.now) marks.old 0 marks.new result }
{
    let end = FIXED + control[machine::N] as usize;
    let mut t = 0;
    for word in &control[FIXED..end] {
        t = push_word(heap, marks, t, *word);
    }
    t
}

// Pushes what the stack's cells refer to, as the notes of the stack's words say which they are.
fn push_cells(stack: &[u32], notes: &[u32], heap: &[u32], marks: &mut [u32], top: u32) -> u32
    requires noted { length stack.now ≤ length notes.now }
    requires pushable { Pushable heap.now (ByCell stack.now notes.now heap.now) marks.old top }
    requires passable { Passable heap.now (StackCells stack.now notes.now) marks.old }
    ensures { Pushed heap.now (ByCell stack.now notes.now heap.now) marks.old top marks.new result }
{
    let mut t = top;
    for (word, note) in stack.iter().zip(notes) {
        if *note == CELL {
            t = push_word(heap, marks, t, *word);
        }
    }
    t
}

// Marks exactly the cells that are reached from the control area's arguments and from the stack's cells.
pub fn mark(view: View<'_>, work: &mut [u32])
    requires { Markable view.control.now view.stack.now view.heap.now work.old }
    ensures { MarksReached view.entry.control.now view.entry.stack.now view.entry.heap.now work.old work.new }
{
    let (front, notes) = work.split_at_mut(view.heap.len());
    let marks = &mut front[..view.control[H] as usize];
    let t = push_arguments(view.control, view.heap, marks);
    let u = push_cells(view.stack, notes, view.heap, marks, t);
    drain(view.heap, marks, u);
}
