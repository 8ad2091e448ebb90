// The monthly report program: freeze files laid end to end on standard input, their report on standard output.
#![tactic(auto)]

mod held;
mod written;

ghost use Rattle.std.specs.Prelude.{◌≤◌, length};
ghost use Rattle.report.specs.First.{file_most};
ghost use Rattle.report.specs.Most.{step_most};

use held::{Held, refill};
use std::io;
use std::io::Read;
use written::make_room;

// Steps until the report is closed.
fn run<R: Read>(
    rt: &impl Print,
    input: &mut R,
    buffer: &mut [u8],
    control: &mut [u32],
    stack: &mut [u32],
    heap: &mut [u32],
    trail: &mut [u32],
    work: &mut [u32],
    output: &mut [u8],
) -> io::Result<()>
    requires { (file_most ≤ length buffer.old) × (step_most ≤ length output.old) }
{
    let mut held = Held::none();
    let mut at = 0;
    let mut month = report::begin();
    loop {
        held = refill(input, buffer, held)?;
        let step = report::next(
            &buffer[held.from..held.to],
            month,
            control,
            stack,
            heap,
            trail,
            work,
            output,
            at,
        );
        let Some(next) = step.next else {
            return rt.write_all(&output[..step.at]);
        };
        held = held.past(next.used);
        at = make_room(rt, output, step.at)?;
        month = next.month;
    }
}

fn main(rt: HostRuntime) -> io::Result<()> {
    let mut buffer = [0u8; 262144];
    let mut control = [0u32; 262];
    let mut stack = [0u32; 1024];
    let mut heap = [0u32; 2048];
    let mut trail = [0u32; 512];
    // Heap and stack together.
    let mut work = [0u32; 3072];
    let mut output = [0u8; 65536];
    run(
        &rt,
        &mut rt.stdin(),
        &mut buffer,
        &mut control,
        &mut stack,
        &mut heap,
        &mut trail,
        &mut work,
        &mut output,
    )
}
