// The monthly report: figures over freeze files laid end to end, as text. What is right stands in specs/, under its sentences of
// document 02.
#![tactic(auto)]

mod first;
mod lines;
mod steps;

ghost use Rattle.std.specs.Prelude.{◌≡◌, IfSome};
ghost use Rattle.freeze.specs.Thaw.{image_of};
ghost use Rattle.report.specs.Reports.{begun};
ghost use Rattle.report.specs.Nexts.{Nexts, Possible};

use first::{count_first, first_length, room_in};
use freeze::{AreaCounts, FileRefusal};
use steps::{count, end, refuse, stop};
use tally::{Tally, Uncounted};

// "up to 65,535 of them"
pub const FILES_MOST: u64 = 65535;

// The longest file, and the longest text of a step.
pub const FILE_MOST: usize = 19248;

pub const STEP_MOST: usize = 2006;

// Past the highest number of a refusal.
const NUMBERS: usize = 32;

// What the files so far came to: how many, and how many of them were accepted; where the rest starts in the whole input; the total of
// the accepted; and how many images were refused under each number.
#[derive(Clone, Copy)]
pub struct Month {
    pub files: u64,
    pub accepted: u64,
    pub start: u64,
    pub total: Tally,
    pub refused: [u64; NUMBERS],
}

// How a report goes on after a file: how many bytes of the window the file had, and the month with it.
#[derive(Clone, Copy)]
pub struct GoesOn {
    pub used: usize,
    pub month: Month,
}

// What a step answers: the output's next place, and how the report goes on, unless it is closed.
#[derive(Clone, Copy)]
pub struct Step {
    pub at: usize,
    pub next: Option<GoesOn>,
}

// Before the first file.
pub fn begin() -> Month
    ensures { (result ≡ begun) × Possible result }
{
    Month {
        files: 0,
        accepted: 0,
        start: 0,
        total: Tally::empty(),
        refused: [0; NUMBERS],
    }
}

// One step of a report: the file at the front of the window, or the closing lines where there is none or none that can be read. The
// window is all that is left of the input, or as much of it as the longest file has at least.
pub fn next(
    window: &[u8],
    month: Month,
    control: &mut [u32],
    stack: &mut [u32],
    heap: &mut [u32],
    trail: &mut [u32],
    work: &mut [u32],
    output: &mut [u8],
    at: usize,
) -> Step
    requires { Possible month }
    ensures nexts { Nexts (image_of control.old stack.old heap.old trail.old) work.old month window.now output.old at result (image_of control.new stack.new heap.new trail.new) work.new output.new }
    ensures possible { IfSome result.next (λ next. Possible next.month) }
{
    if window.is_empty() {
        return end(output, at, month);
    }
    if FILES_MOST <= month.files {
        return stop(output, at, month, FileRefusal::After(0));
    }
    let room = room_in(AreaCounts {
        control: control.len(),
        stack: stack.len(),
        heap: heap.len(),
        trail: trail.len(),
    });
    let used = first_length(window, room);
    match count_first(&window[..used], control, stack, heap, trail, work) {
        Ok(figures) => count(output, at, month, used, figures),
        Err(Uncounted::Image(refusal)) => refuse(output, at, month, used, refusal),
        Err(Uncounted::File(refusal)) => stop(output, at, month, refusal),
    }
}
