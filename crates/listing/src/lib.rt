// The listing: a freeze file collected and written as text. What is right stands in specs/, under its sentences of document 01.
#![tactic(auto)]

mod lines;

ghost use Rattle.freeze.specs.Thaw.{image_of};
ghost use Rattle.listing.specs.Lists.{Lists, CountsBytes};

use lines::put_collected;
pub use lines::{put_area, put_bad_file, put_file, put_number_alone, put_refusal};
use machine::View;

// Reads a freeze file into four lent areas, collects, and writes the listing into a lent output; answers how many bytes it wrote.
pub fn list(
    file: &[u8],
    control: &mut [u32],
    stack: &mut [u32],
    heap: &mut [u32],
    trail: &mut [u32],
    work: &mut [u32],
    output: &mut [u8],
) -> usize
    ensures lists { Lists file.now (image_of control.old stack.old heap.old trail.old) work.old output.old result (image_of control.new stack.new heap.new trail.new) work.new output.new }
    ensures counts_bytes { CountsBytes result output.new }
{
    let counts = match freeze::thaw(file, control, stack, heap, trail) {
        Ok(counts) => counts,
        Err(refusal) => return put_bad_file(output, 0, refusal),
    };
    let stack = &mut stack[..counts.stack];
    match collect::collect(control, stack, heap, trail, work) {
        Ok(done) => {
            let view = View {
                control,
                stack,
                heap,
                trail,
            };
            put_collected(output, done, view)
        }
        Err(refusal) => put_refusal(output, 0, refusal),
    }
}
