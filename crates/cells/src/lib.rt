// The checks of cells and trail entries: refusals 5, 6 and 7 with their places. A pass over each area, two over the heap, decides that all
// its cells are good; number and place are looked for only if one is not.
#![tactic(auto)]

mod noted; // noted.rt: an image with the notes of its stack words
mod words; // words.rt: where one word may refer to
mod good; // good.rt: whether every cell is good
mod places; // places.rt: the lowest place for 5, for 6 and for 7

ghost use Rattle.std.specs.Prelude.{◌≡◌, [], length};
ghost use Rattle.machine.specs.Layout.{Image};
ghost use Rattle.machine.specs.Lent.{seen};
ghost use Rattle.machine.specs.Refusals.{first_of, cell_checks, entry_checks};
ghost use Rattle.cells.specs.Cells.{checked_to, Right, Sized, EntriesSized};

use machine::{Area, Place, Refusal, View};
use noted::Noted;
use places::Bad;

// Refusals 5 and 6, of an image whose stack words are noted in the work words from `notes` on.
pub fn check_cells(view: View<'_>, work: &[u32], notes: usize) -> Result<(), Refusal>
    requires { Sized (seen view) work.now notes }
    ensures { (X : Image) → X.control ≡ view.entry.control.now → X.stack ≡ view.entry.stack.now → X.heap ≡ view.entry.heap.now → Right X work.now notes
        → checked_to result ≡ first_of (cell_checks X []) }
{
    let image = Noted { view, work, notes };
    if good::all_good(image) {
        return Ok(());
    }
    places::find(Bad::Bits, image)?;
    places::find(Bad::Reference, image)
}

// Refusal 7, of such an image.
pub fn check_entries(view: View<'_>, work: &[u32], notes: usize) -> Result<(), Refusal>
    requires { EntriesSized (seen view) work.now notes }
    ensures { (X : Image) → X.control ≡ view.entry.control.now → length X.stack ≡ length view.entry.stack.now → X.trail ≡ view.entry.trail.now → Right X work.now notes
        → checked_to result ≡ first_of (entry_checks X []) }
{
    match places::wrong_entry(view, work, notes) {
        Some(index) => Err(Refusal::Entry(Place {
            area: Area::Trail,
            index,
        })),
        None => Ok(()),
    }
}
