// The breadth-first search from the roots, in the work words below H: the queue of the cells met, where its levels begin, and which cells are met.
#![tactic(auto)]

ghost use Rattle.std.specs.Prelude.{◌≡◌, ◌&&◌, ℕ, ◌+◌, ◌<◌, ◌≤◌, length, get_or, take, eqb, leb, ltb};
ghost use Rattle.cell.specs.Word.{STRUCT, value_of, tag_of, extent};
ghost use Rattle.machine.specs.Layout.{N, fixed, field, argument};
ghost use Rattle.mark.specs.Marks.{Within, Markable};
ghost use Rattle.mark.specs.Pending.{Range};
ghost use Rattle.queue.specs.Filled.{met_bit, level_bit, entry_of, begins_at, Filled};
ghost use Rattle.queue.specs.Entering.{Fit, Joined, Entered, Read, ReadAll, Readable, stack_word};
ghost use Rattle.queue.specs.Reading.{Searched, Followed};

use cell::Tag;
use machine::{CELL, FIXED, H, View};

// Whether the work word of a cell says that it is met.
pub fn is_met(word: u32) -> bool
    ensures { result ≡ eqb (met_bit word) 1 }
{
    word % 2 == 1
}

// Whether the work word of a place of the queue says that a level begins there.
pub fn begins_level(word: u32) -> bool
    ensures { result ≡ eqb (level_bit word) 1 }
{
    word / 2 % 2 == 1
}

// The cell at a place of the queue, by its work word.
pub fn entry(word: u32) -> usize
    ensures { result ≡ entry_of word }
{
    (word / 4) as usize
}

// Where the cells that a word refers to end.
fn end_of(heap: &[u32], word: u32) -> usize
    requires { tag_of word ≡ STRUCT → value_of word < length heap.now }
    ensures { result ≡ value_of word + extent heap.now word }
{
    let v = cell::value(word);
    let a = v as usize;
    match Tag::of(word) {
        Tag::Var if v < cell::STACK_BASE => a + 1,
        Tag::Var => a,
        Tag::Struct => a + 1 + cell::arity(heap[a]) as usize,
        Tag::List => a + 2,
        Tag::Const => a,
    }
}

// Whether a word refers to the heap cell x.
pub fn refers(heap: &[u32], word: u32, x: usize) -> bool
    requires { tag_of word ≡ STRUCT → value_of word < length heap.now }
    ensures { result ≡ (leb (value_of word) x && ltb x (value_of word + extent heap.now word)) }
{
    cell::value(word) as usize <= x && x < end_of(heap, word)
}

// Puts the cell x at the end of the queue, unless it is met; answers where the queue ends.
fn enter(queue: &mut [u32], tail: usize, x: usize) -> usize
    requires { Fit queue.old tail × (x < length queue.old) }
    ensures { Joined queue.old tail x queue.new result }
{
    if is_met(queue[x]) {
        return tail;
    }
    queue[x] += 1;
    queue[tail] += x as u32 * 4;
    tail + 1
}

// Enters the cells from a up to, not including, z.
fn enter_range(queue: &mut [u32], tail: usize, a: usize, z: usize) -> usize
    requires { Fit queue.old tail × (a ≤ z) × ((x : ℕ) → Range a z x → x < length queue.old) }
    ensures { Entered a queue.old tail z queue.new result }
{
    let mut t = tail;
    for x in a..z {
        t = enter(queue, t, x);
    }
    t
}

// Enters what a word refers to.
fn enter_word(heap: &[u32], queue: &mut [u32], tail: usize, word: u32) -> usize
    requires { Fit queue.old tail × (length queue.old ≤ length heap.now) × Within (length queue.old) heap.now word }
    ensures { Read heap.now word queue.old tail queue.new result }
{
    enter_range(queue, tail, cell::value(word) as usize, end_of(heap, word))
}

// Enters what the saved arguments refer to.
fn enter_arguments(control: &[u32], heap: &[u32], queue: &mut [u32]) -> usize
    requires { (fixed + field control.now 0 N ≤ length control.now) × Readable heap.now (argument control.now 0) (field control.now 0 N) queue.old 0 }
    ensures { ReadAll heap.now (argument control.now 0) queue.old 0 (field control.now 0 N) queue.new result }
{
    let end = FIXED + control[machine::N] as usize;
    let mut t = 0;
    for word in &control[FIXED..end] {
        t = enter_word(heap, queue, t, *word);
    }
    t
}

// Enters what the stack's cells refer to, as the notes of the stack's words say which they are.
fn enter_cells(stack: &[u32], notes: &[u32], heap: &[u32], queue: &mut [u32], tail: usize) -> usize
    requires noted { length stack.now ≤ length notes.now }
    requires readable { Readable heap.now (stack_word stack.now notes.now) (length stack.now) queue.old tail }
    ensures { ReadAll heap.now (stack_word stack.now notes.now) queue.old tail (length stack.now) queue.new result }
{
    let mut t = tail;
    for (word, note) in stack.iter().zip(notes) {
        if *note == CELL {
            t = enter_word(heap, queue, t, *word);
        }
    }
    t
}

// Enters what the cells of the queue refer to, until its end; a level begins where the queue ended when the one above it began.
fn follow(heap: &[u32], queue: &mut [u32], tail: usize) -> usize
    requires { Readable heap.now (λ (y : ℕ). get_or heap.now y 0) (length queue.old) queue.old tail × ((j : ℕ) → begins_at queue.old j ≡ 0) }
    ensures { (word : ℕ → ℕ) (roots : ℕ) → Searched heap.now word roots roots queue.old tail → Followed heap.now word roots queue.new result }
{
    let mut t = tail;
    let mut next = 0;
    let mut i = 0;
    while i < t {
        if i == next {
            queue[i] += 2;
            next = t;
        }
        let x = entry(queue[i]);
        t = enter_word(heap, queue, t, heap[x]);
        i += 1;
    }
    t
}

// Searches from all roots; answers how many cells are met.
pub fn fill(view: View<'_>, work: &mut [u32]) -> usize
    requires { Markable view.control.now view.stack.now view.heap.now work.old }
    ensures { Filled view.entry.control.now view.entry.stack.now view.entry.heap.now work.old work.new result }
{
    let (front, notes) = work.split_at_mut(view.heap.len());
    let queue = &mut front[..view.control[H] as usize];
    let t = enter_arguments(view.control, view.heap, queue);
    let u = enter_cells(view.stack, notes, view.heap, queue, t);
    follow(view.heap, queue, u)
}
