// The first of the files laid end to end: how many bytes it has, and its figures.
ghost use Rattle.std.specs.Prelude.{◌≡◌, min, ◌≤◌, length};
ghost use Rattle.freeze.specs.Thaw.{image_of};
ghost use Rattle.report.specs.First.{sizes, first_file};
ghost use Rattle.report.specs.Parts.{Sized, Fronts, CountsFirst, Figured};

use freeze::AreaCounts;
use tally::{Tally, Uncounted};

// The listing program's sizes; its control area holds what a legal one holds.
const SIZES: AreaCounts = AreaCounts {
    control: machine::FIXED + machine::ARGUMENTS_MOST,
    stack: 1024,
    heap: 2048,
    trail: 512,
};

// Of each area the lesser count.
fn least(a: AreaCounts, b: AreaCounts) -> AreaCounts
    ensures { result ≡ record { control = min a.control b.control; stack = min a.stack b.stack; heap = min a.heap b.heap; trail = min a.trail b.trail } }
{
    AreaCounts {
        control: a.control.min(b.control),
        stack: a.stack.min(b.stack),
        heap: a.heap.min(b.heap),
        trail: a.trail.min(b.trail),
    }
}

// The room for a file in areas of these lengths.
pub fn room_in(lent: AreaCounts) -> AreaCounts
    ensures { result ≡ record { control = min lent.control sizes.control; stack = min lent.stack sizes.stack; heap = min lent.heap sizes.heap; trail = min lent.trail sizes.trail } }
{
    least(lent, SIZES)
}

// How many bytes the first file has, of those that are there.
pub fn first_length(window: &[u8], room: AreaCounts) -> usize
    requires { Sized room }
    ensures { (result ≡ length (first_file room window.now)) × (result ≤ length window.now) }
{
    let head = freeze::record_size(freeze::COUNTS);
    if window.len() < head {
        return window.len();
    }
    let n = freeze::counts_in(window);
    if !freeze::within(n, room) {
        return head;
    }
    freeze::file_length(n).min(window.len())
}

// As much of each area as the file is read into, so that no work is done for the rest.
fn fronts(file: &[u8], room: AreaCounts) -> AreaCounts
    requires { Sized room }
    ensures { Fronts room file.now result }
{
    if file.len() < freeze::record_size(freeze::COUNTS) {
        return room;
    }
    let n = freeze::counts_in(file);
    let counted = AreaCounts {
        control: n.control.max(machine::FIXED),
        ..n
    };
    least(room, counted)
}

// The figures of a file, or why it has none.
pub fn count_first(
    file: &[u8],
    control: &mut [u32],
    stack: &mut [u32],
    heap: &mut [u32],
    trail: &mut [u32],
    work: &mut [u32],
) -> Result<Tally, Uncounted>
    ensures counts_first { CountsFirst file.now (image_of control.old stack.old heap.old trail.old) work.old result (image_of control.new stack.new heap.new trail.new) work.new }
    ensures figured { Figured result }
{
    let room = room_in(AreaCounts {
        control: control.len(),
        stack: stack.len(),
        heap: heap.len(),
        trail: trail.len(),
    });
    let front = fronts(file, room);
    tally::count_file(
        file,
        &mut control[..front.control],
        &mut stack[..front.stack],
        &mut heap[..front.heap],
        &mut trail[..front.trail],
        work,
    )
}
