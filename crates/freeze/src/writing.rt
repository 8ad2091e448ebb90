// The writer of a freeze file: nothing is written before the areas and the output's length are known to be right.
ghost use Rattle.std.specs.Prelude.{◌≡◌, true, ◌+◌, ◌≤◌, length, take};
ghost use Rattle.std.proofs.lemmas.List.Edits.{sets};
ghost use Rattle.machine.specs.Layout.{fixed};
ghost use Rattle.machine.specs.Lent.{seen};
ghost use Rattle.freeze.specs.Kinds.{word_body, body_of, past};
ghost use Rattle.freeze.specs.Thaw.{lengths_of, counts_of, within as within_of, control_at, past_end};
ghost use Rattle.freeze.specs.Freeze.{bytes_of, records, counts_record, file_of, Freezes};
ghost use Rattle.freeze.specs.Parts.{Small, Writes};

use crate::kinds::{CONTROL, COUNTS, END, HEAP, STACK, TRAIL, record_size};
use crate::records::WORD;
use crate::sizes::{legal, lengths_of, within};
use crate::{AreaCounts, FileRefusal};
use machine::View;

// The bytes of a word, the lowest first.
fn put_word(output: &mut [u8], at: usize, word: u32) -> usize
    requires { at + word_body ≤ length output.old }
    ensures { Writes output.old at (bytes_of word) result output.new }
{
    let next = at + WORD;
    output[at..next].copy_from_slice(&word.to_le_bytes());
    next
}

// A record of one kind for each of the first words of an area.
fn write_area(area: &[u32], count: usize, kind: u8, output: &mut [u8], from: usize) -> usize
    requires kind_value { body_of kind ≡ word_body }
    requires count_in_bounds { count ≤ length area.now }
    requires count_in_bounds_2 { past from kind count ≤ length output.old }
    ensures { Writes output.old from (records kind (take count area.now)) result output.new }
{
    let mut at = from;
    for word in &area[..count] {
        output[at] = kind;
        at = put_word(output, at + 1, *word);
    }
    at
}

// The counts record, at the start.
#[tactic(auto, unfolding(crate::specs::Freeze::counts_record, crate::specs::Kinds::body_of))]
fn write_counts(n: AreaCounts, output: &mut [u8]) -> usize
    requires small { Small n }
    requires control_at_in_bounds { control_at ≤ length output.old }
    ensures { Writes output.old 0 (counts_record n) result output.new }
{
    output[0] = COUNTS;
    let stack = put_word(output, 1, n.control as u32);
    let heap = put_word(output, stack, n.stack as u32);
    let trail = put_word(output, heap, n.heap as u32);
    put_word(output, trail, n.trail as u32)
}

// How long the file with these counts is.
#[tactic(auto, unfolding(crate::specs::Kinds::body_of))]
pub fn file_length(n: AreaCounts) -> usize
    requires { Small n }
    ensures { result ≡ past_end n }
{
    let words = n.control + n.stack + n.heap + n.trail;
    record_size(COUNTS) + words * record_size(CONTROL) + record_size(END)
}

// The file with these counts, into an output that is long enough.
fn write_file(n: AreaCounts, view: View<'_>, output: &mut [u8])
    requires small { Small n }
    requires trail_value { within_of n (lengths_of (seen view)) ≡ true }
    requires n_in_bounds { past_end n ≤ length output.old }
    ensures { output.new ≡ sets output.old 0 (file_of n (seen view.entry)) }
{
    let control_at = write_counts(n, output);
    let stack_at = write_area(view.control, n.control, CONTROL, output, control_at);
    let heap_at = write_area(view.stack, n.stack, STACK, output, stack_at);
    let trail_at = write_area(view.heap, n.heap, HEAP, output, heap_at);
    let end_at = write_area(view.trail, n.trail, TRAIL, output, trail_at);
    output[end_at] = END;
}

// The counts that the control area and the stack's length give.
#[tactic(auto, unfolding(crate::specs::Thaw::counts_of, machine::specs::Layout::field))]
fn counts_of(view: View<'_>) -> AreaCounts
    requires { fixed ≤ length view.control.now }
    ensures { result ≡ counts_of (seen view.entry) }
{
    AreaCounts {
        control: machine::FIXED + view.control[machine::N] as usize,
        stack: view.stack.len(),
        heap: view.control[machine::H] as usize,
        trail: view.control[machine::T] as usize,
    }
}

// Four areas into the front of a lent output.
pub fn freeze(view: View<'_>, output: &mut [u8]) -> Result<usize, FileRefusal>
    ensures { Freezes (seen view.entry) output.old result output.new }
{
    if !legal(view) {
        return Err(FileRefusal::Sizes);
    }
    let n = counts_of(view);
    if !within(n, lengths_of(view)) {
        return Err(FileRefusal::Registers);
    }
    let bytes = file_length(n);
    if output.len() < bytes {
        return Err(FileRefusal::Output);
    }
    write_file(n, view, output);
    Ok(bytes)
}
