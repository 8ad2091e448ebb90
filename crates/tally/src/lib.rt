// The figures of a freeze file, and a running tally of them. What is right stands in specs/, under its sentences of document 02.
#![tactic(auto)]

mod frames;
mod heaps;
mod tallies;

ghost use Rattle.std.specs.Prelude.{◌≡◌, ◌≤◌, length};
ghost use Rattle.machine.specs.Layout.{fixed, field};
ghost use Rattle.machine.specs.Layout as layout;
ghost use Rattle.machine.specs.Lent.{seen};
ghost use Rattle.freeze.specs.Thaw.{image_of};
ghost use Rattle.tally.specs.Figures.{tally_of};
ghost use Rattle.tally.specs.Parts.{AfterCollection, CountsImage};
ghost use Rattle.tally.specs.Counts.{CountsFile};
ghost use Rattle.tally.specs.declared.Uncounted.TheVariants.{Image, File};

use frames::count_chains;
use freeze::FileRefusal;
use heaps::{keep_heap, read_heap};
use machine::{Counts, H, Refusal, View};

// Heap cells by tag.
#[derive(Clone, Copy, Default)]
pub struct Tags {
    pub var: u64,
    pub structure: u64,
    pub list: u64,
    pub constant: u64,
}

// The figures of a file, or of several together.
#[derive(Clone, Copy, Default)]
pub struct Tally {
    pub kept: Tags,
    pub dropped: Tags,
    pub entries_kept: u64,
    pub entries_dropped: u64,
    pub points: u64,
    pub deepest: u64,
}

// Why a file has no figures: its image is refused, or it is not read.
#[derive(Clone, Copy)]
pub enum Uncounted {
    Image(Refusal),
    File(FileRefusal),
}

impl From<Refusal> for Uncounted {
    ghost from_gives = { λ refusal r. r ≡ Image refusal };

    fn from(refusal: Refusal) -> Uncounted {
        Uncounted::Image(refusal)
    }
}

impl From<FileRefusal> for Uncounted {
    ghost from_gives = { λ refusal r. r ≡ File refusal };

    fn from(refusal: FileRefusal) -> Uncounted {
        Uncounted::File(refusal)
    }
}

// The figures of an image that was read and then collected.
fn figures(read: Tally, entries: Counts, view: View<'_>, work: &mut [u32]) -> Tally
    requires { AfterCollection read entries (seen view) work.old }
    ensures value { (a : AfterCollection read entries (seen view.entry) work.old) → result ≡ tally_of a.to.cells a.to.entries a.image }
    ensures work_unchanged { work.new ≡ work.old }
{
    let kept = keep_heap(read, view.heap, view.control[H] as usize);
    let notes = &mut work[view.heap.len()..];
    let tally = count_chains(kept.trail(entries), view.control, view.stack, notes);
    counts::clear(notes, 0, view.stack.len());
    tally
}

// One image: its cells are read, it is collected, and its figures are counted.
fn count_image(
    control: &mut [u32],
    stack: &mut [u32],
    heap: &mut [u32],
    trail: &mut [u32],
    work: &mut [u32],
) -> Result<Tally, Uncounted>
    requires { (fixed ≤ length control.old) × (field control.old 0 layout.H ≤ length heap.old) }
    ensures { CountsImage (image_of control.old stack.old heap.old trail.old) work.old result (image_of control.new stack.new heap.new trail.new) work.new }
{
    let read = read_heap(heap, control[H] as usize);
    let done = collect::collect(control, stack, heap, trail, work)?;
    let view = View {
        control,
        stack,
        heap,
        trail,
    };
    Ok(figures(read, done.entries, view, work))
}

// Reads a freeze file into four lent areas, collects, and counts the figures.
pub fn count_file(
    file: &[u8],
    control: &mut [u32],
    stack: &mut [u32],
    heap: &mut [u32],
    trail: &mut [u32],
    work: &mut [u32],
) -> Result<Tally, Uncounted>
    ensures { CountsFile file.now (image_of control.old stack.old heap.old trail.old) work.old result (image_of control.new stack.new heap.new trail.new) work.new }
{
    let counts = freeze::thaw(file, control, stack, heap, trail)?;
    count_image(control, &mut stack[..counts.stack], heap, trail, work)
}
