// The listing program: a freeze file on standard input, its listing on standard output.
#![tactic(auto)]

use std::io;

fn main(rt: HostRuntime) -> io::Result<()> {
    // One byte more than the longest file that the buffers hold, so that a byte after its end is seen.
    let mut file = [0u8; 19249];
    let n = reading::read_full(&mut rt.stdin(), &mut file)?;
    let mut control = [0u32; 262];
    let mut stack = [0u32; 1024];
    let mut heap = [0u32; 2048];
    let mut trail = [0u32; 512];
    // Heap and stack together.
    let mut work = [0u32; 3072];
    // At least 124 + 11 * (262 + 1,024 + 2,048 + 512) bytes: no listing is cut.
    let mut output = [0u8; 43008];
    let m = listing::list(
        &file[..n],
        &mut control,
        &mut stack,
        &mut heap,
        &mut trail,
        &mut work,
        &mut output,
    );
    rt.write_all(&output[..m])
}
