// The reader of a freeze file: one pass that checks every record, then one pass that fills the areas.
ghost use Rattle.std.specs.Prelude.{◌≡◌, ◌<◌, ◌≤◌, length, slice_index};
ghost use Rattle.freeze.specs.Kinds.{CONTROL as CONTROLS, past};
ghost use Rattle.freeze.specs.Verdicts.{accepted, first_of};
ghost use Rattle.freeze.specs.Records.{records_verdict};
ghost use Rattle.freeze.specs.Thaw.{image_of, counts_in, control_at, end_at, image_in, agree as agree_of, area_stages, end_stages, file_stages, Thaws};
ghost use Rattle.freeze.specs.Parts.{Checks, Whole, Fills};

use crate::kinds::{CONTROL, COUNTS, END, HEAP, STACK, TRAIL, record_size};
use crate::records::word_in;
use crate::sizes::{legal, lengths_of, within};
use crate::{AreaCounts, FileRefusal};
use machine::View;

// So many records of one kind in a row, from an offset on.
fn check(file: &[u8], from: usize, count: usize, kind: u8) -> Result<usize, FileRefusal>
    ensures { Checks (records_verdict file.now kind from count) (past from kind count) result }
{
    let size = record_size(kind);
    let mut at = from;
    for _ in 0..count {
        let Some(&found) = file.get(at) else {
            return Err(FileRefusal::Cut(file.len()));
        };
        if found != kind {
            return Err(FileRefusal::Kind(at));
        }
        if file.len() - at < size {
            return Err(FileRefusal::Cut(at));
        }
        at += size;
    }
    Ok(at)
}

// The records of the four areas in their order.
fn check_areas(file: &[u8], from: usize, n: AreaCounts) -> Result<usize, FileRefusal>
    requires { from ≡ control_at }
    ensures { Checks (first_of (area_stages n file.now)) (end_at n) result }
{
    let stack = check(file, from, n.control, CONTROL)?;
    let heap = check(file, stack, n.stack, STACK)?;
    let trail = check(file, heap, n.heap, HEAP)?;
    check(file, trail, n.trail, TRAIL)
}

// Word p of the control words, which begin at an offset.
fn control_word(file: &[u8], from: usize, n: AreaCounts, p: usize) -> u32
    requires from_value { from ≡ control_at }
    requires control_value { records_verdict file.now CONTROLS control_at n.control ≡ accepted }
    requires p_in_bounds { p < n.control }
    ensures { result ≡ slice_index (image_in n file.now).control p }
{
    word_in(file, from + p * record_size(CONTROL), 0)
}

// Whether the counts are those that the file's own control words say.
#[tactic(auto, unfolding(crate::specs::Thaw::agree, crate::specs::Thaw::counts_of, machine::specs::Layout::field))]
fn agree(file: &[u8], from: usize, n: AreaCounts) -> bool
    requires from_value { from ≡ control_at }
    requires control_value { records_verdict file.now CONTROLS control_at n.control ≡ accepted }
    ensures { result ≡ agree_of n (image_in n file.now) }
{
    machine::FIXED <= n.control
        && n.control == machine::FIXED + control_word(file, from, n, machine::N) as usize
        && n.heap == control_word(file, from, n, machine::H) as usize
        && n.trail == control_word(file, from, n, machine::T) as usize
}

// The end record, nothing after it, and counts that agree.
fn check_end(file: &[u8], from: usize, end: usize, n: AreaCounts) -> Result<(), FileRefusal>
    requires from_value { (from ≡ control_at) × (end ≡ end_at n) }
    requires control_value { records_verdict file.now CONTROLS control_at n.control ≡ accepted }
    ensures { Checks (first_of (end_stages n file.now)) tt result }
{
    let past = check(file, end, 1, END)?;
    if past < file.len() {
        return Err(FileRefusal::After(past));
    }
    if !agree(file, from, n) {
        return Err(FileRefusal::Differ);
    }
    Ok(())
}

// The four counts that the record at the file's start holds.
#[tactic(auto, unfolding(crate::specs::Thaw::counts_in, crate::specs::Kinds::body_of))]
pub fn counts_in(file: &[u8]) -> AreaCounts
    requires { control_at ≤ length file.now }
    ensures { result ≡ counts_in file.now }
{
    AreaCounts {
        control: word_in(file, 0, 0) as usize,
        stack: word_in(file, 0, 1) as usize,
        heap: word_in(file, 0, 2) as usize,
        trail: word_in(file, 0, 3) as usize,
    }
}

// The whole file, from its front, for areas of these lengths.
fn check_file(file: &[u8], room: AreaCounts) -> Result<AreaCounts, FileRefusal>
    ensures { Checks (first_of (file_stages room file.now)) (counts_in file.now) result }
{
    let from = check(file, 0, 1, COUNTS)?;
    let n = counts_in(file);
    if !within(n, room) {
        return Err(FileRefusal::Room);
    }
    let end = check_areas(file, from, n)?;
    check_end(file, from, end, n)?;
    Ok(n)
}

// The words of so many records of one kind, into the front of an area.
fn fill(file: &[u8], from: usize, count: usize, kind: u8, area: &mut [u32]) -> usize
    requires whole { Whole file.now kind from count }
    requires count_in_bounds { count ≤ length area.old }
    ensures { Fills file.now kind from count area.old result area.new }
{
    let size = record_size(kind);
    let mut at = from;
    for word in &mut area[..count] {
        *word = word_in(file, at, 0);
        at += size;
    }
    at
}

// A file into the fronts of four lent areas.
pub fn thaw(
    file: &[u8],
    control: &mut [u32],
    stack: &mut [u32],
    heap: &mut [u32],
    trail: &mut [u32],
) -> Result<AreaCounts, FileRefusal>
    ensures { Thaws file.now (image_of control.old stack.old heap.old trail.old) result (image_of control.new stack.new heap.new trail.new) }
{
    let lent = View {
        control,
        stack,
        heap,
        trail,
    };
    if !legal(lent) {
        return Err(FileRefusal::Sizes);
    }
    let n = check_file(file, lengths_of(lent))?;
    let stack_at = fill(file, record_size(COUNTS), n.control, CONTROL, control);
    let heap_at = fill(file, stack_at, n.stack, STACK, stack);
    let trail_at = fill(file, heap_at, n.heap, HEAP, heap);
    fill(file, trail_at, n.trail, TRAIL, trail);
    Ok(n)
}
