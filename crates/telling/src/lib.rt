// Why a heap cell is held, told as text. What is right stands in specs/.
#![tactic(auto)]

mod lines;
mod number;
mod owners;

ghost use Rattle.std.specs.Prelude.{◌≡◌, Some, Ok};
ghost use Rattle.machine.specs.Lent.{seen};
ghost use Rattle.freeze.specs.Thaw.{image_of};
ghost use Rattle.text.specs.Puts.{PutsShort};
ghost use Rattle.listing.specs.Lists.{CountsBytes};
ghost use Rattle.holder.specs.Answers.{said_of};
ghost use Rattle.telling.specs.Text.{said_text};
ghost use Rattle.telling.specs.Tells.{text_most, Tells};
ghost use Rattle.telling.specs.Parts.{Answered};

use holder::{Held, Untold};
use lines::{put_chain, put_root};
use listing::{put_bad_file, put_number_alone, put_refusal};
use machine::View;
pub use number::read_index;
use text::put_bytes;

// The refusals that are not the collector's.
const ABOVE: usize = 18;

const LONG: usize = 19;

// The root and the chain of a cell that is held.
fn put_held(output: &mut [u8], held: Held, view: View<'_>, work: &mut [u32], room: &[u32]) -> usize
    requires { Answered (seen view) work.old (Ok (Some held)) room.now }
    ensures puts_short { PutsShort (text_most room.now) output.old 0 (said_text (seen view.entry) (said_of (Ok (Some held))) room.now) result output.new }
    ensures work_unchanged { work.new ≡ work.old }
{
    let chain_at = put_root(output, 0, held.root, view, work);
    put_chain(output, chain_at, view.heap, room, held.length)
}

// The text of an answer.
fn put_why(
    output: &mut [u8],
    why: Result<Option<Held>, Untold>,
    view: View<'_>,
    work: &mut [u32],
    room: &[u32],
) -> usize
    requires { Answered (seen view) work.old why room.now }
    ensures puts_short { PutsShort (text_most room.now) output.old 0 (said_text (seen view.entry) (said_of why) room.now) result output.new }
    ensures work_unchanged { work.new ≡ work.old }
{
    match why {
        Ok(Some(held)) => put_held(output, held, view, work, room),
        Ok(None) => put_bytes(output, 0, b"dead\n"),
        Err(Untold::NoCell) => put_number_alone(output, 0, ABOVE),
        Err(Untold::RoomShort) => put_number_alone(output, 0, LONG),
        Err(Untold::Image(refusal)) => put_refusal(output, 0, refusal),
    }
}

// Reads a freeze file into four lent areas, asks why a heap cell is held, and writes the text into a lent output; answers how many bytes it wrote.
pub fn tell(
    file: &[u8],
    control: &mut [u32],
    stack: &mut [u32],
    heap: &mut [u32],
    trail: &mut [u32],
    work: &mut [u32],
    index: u32,
    room: &mut [u32],
    output: &mut [u8],
) -> usize
    ensures tells { Tells file.now (image_of control.old stack.old heap.old trail.old)
        work.old index room.old output.old result (image_of control.new stack.new heap.new trail.new) work.new room.new output.new }
    ensures counts_bytes { CountsBytes result output.new }
{
    let counts = match freeze::thaw(file, control, stack, heap, trail) {
        Ok(counts) => counts,
        Err(refusal) => return put_bad_file(output, 0, refusal),
    };
    let view = View {
        control,
        stack: &stack[..counts.stack],
        heap,
        trail,
    };
    let why = holder::why_held(view, work, index, room);
    put_why(output, why, view, work, room)
}
