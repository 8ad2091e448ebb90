// Why a heap cell is held: its index as the argument, a freeze file on standard input, the text on standard output.
#![tactic(auto)]

use std::env::{Env, FillError};
use std::io;

// The index that the one argument asks for.
fn asked_for(rt: &impl Env) -> Option<u32> {
    // The program's name comes first.
    let mut text = [0u8; 4096];
    let n = rt.arg(1, &mut text).ok()?;
    let mut second = [0u8; 1];
    let Err(FillError::NotPresent) = rt.arg(2, &mut second) else {
        return None;
    };
    telling::read_index(&text[..n])
}

// The text for one heap cell of the file.
fn tell(rt: &HostRuntime, index: u32) -> io::Result<()> {
    // One byte more than the longest file that the buffers hold, so that a byte after its end is seen.
    let mut file = [0u8; 19249];
    let n = reading::read_full(&mut rt.stdin(), &mut file)?;
    let mut control = [0u32; 262];
    let mut stack = [0u32; 1024];
    let mut heap = [0u32; 2048];
    let mut trail = [0u32; 512];
    // Heap and stack together.
    let mut work = [0u32; 3072];
    // As long as the heap: no chain is longer.
    let mut room = [0u32; 2048];
    // At least 120 + 29 * 2,048 bytes: no text is cut.
    let mut output = [0u8; 59520];
    let m = telling::tell(
        &file[..n],
        &mut control,
        &mut stack,
        &mut heap,
        &mut trail,
        &mut work,
        index,
        &mut room,
        &mut output,
    );
    rt.write_all(&output[..m])
}

fn main(rt: HostRuntime) -> io::Result<()> {
    let Some(index) = asked_for(&rt) else {
        return rt.write_all(b"give one heap index, in decimal, below 4294967296\n");
    };
    tell(&rt, index)
}
