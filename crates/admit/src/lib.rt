// The table of refusals 1 to 7 and 17, in the order of checks. What passes leaves its notes in the work words.
#![tactic(auto)]

ghost use Rattle.std.specs.Prelude.{◌≡◌, ◌≤◌, length};
ghost use Rattle.machine.specs.Layout.{fixed};
ghost use Rattle.machine.specs.Lent.{seen};
ghost use Rattle.machine.specs.Refusals.{enough, fits};
ghost use Rattle.admit.specs.Admits.{Admits, Blanked, ChecksNoted, ChecksImage, WordsNoted};

use machine::{
    ARGUMENTS_MOST, Area, FIXED, H, HEAP_MOST, N, Place, Refusal, STACK_MOST, T, TRAIL_MOST, View,
};

// Refusal 1 does not apply with so many work words.
#[tactic(auto, unfolding(machine::specs::Refusals::enough, machine::specs::Refusals::legal_sizes))]
fn sizes_enough(view: View<'_>, work: usize) -> bool
    ensures { result ≡ enough work (seen view.entry) }
{
    view.heap.len() <= HEAP_MOST
        && view.stack.len() <= STACK_MOST
        && view.trail.len() <= TRAIL_MOST
        && FIXED <= view.control.len()
        && view.control.len() <= FIXED + ARGUMENTS_MOST
        && view.heap.len() + view.stack.len() <= work
}

// Refusal 2 does not apply.
#[tactic(auto, unfolding(machine::specs::Refusals::fits, machine::specs::Layout::field))]
fn registers_fit(view: View<'_>) -> bool
    requires { fixed ≤ length view.control.now }
    ensures { result ≡ fits (seen view.entry) }
{
    let control = view.control;
    control[T] as usize <= view.trail.len()
        && control[H] as usize <= view.heap.len()
        && FIXED + control[N] as usize <= control.len()
}

// Refusals 5 to 7 and 17, of an image whose stack words are noted.
fn check_noted(view: View<'_>, work: &mut [u32]) -> Result<(), Refusal>
    requires { WordsNoted (seen view) work.old }
    ensures { ChecksNoted (seen view.entry) work.old result work.new }
{
    let notes = view.heap.len();
    cells::check_cells(view, work, notes)?;
    cells::check_entries(view, work, notes)?;
    functors::check_first(view, work, notes)
}

// Refusals 2 to 7 and 17, of an image of legal size; the work words are blank.
fn check_image(view: View<'_>, work: &mut [u32]) -> Result<(), Refusal>
    requires { Blanked (seen view) work.old }
    ensures { ChecksImage (seen view.entry) work.old result work.new }
{
    if !registers_fit(view) {
        return Err(Refusal::Registers);
    }
    let area = Area::Stack;
    let notes = view.heap.len();
    if let Err(at) = chains::walk(view, work, notes) {
        let index = at as usize;
        return Err(Refusal::Chain(Place { area, index }));
    }
    if let Some(index) = chains::apart(work, notes, view.stack.len()) {
        return Err(Refusal::Roles(Place { area, index }));
    }
    check_noted(view, work)
}

// The collector's verdict on an image.
pub fn admit(view: View<'_>, work: &mut [u32]) -> Result<(), Refusal>
    ensures { Admits (seen view.entry) work.old result work.new }
{
    if !sizes_enough(view, work.len()) {
        return Err(Refusal::Sizes);
    }
    let words = view.heap.len() + view.stack.len();
    counts::clear(work, 0, words);
    let checked = check_image(view, work);
    if checked.is_err() {
        counts::clear(work, 0, words);
    }
    checked
}
