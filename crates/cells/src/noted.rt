// An image with the notes of its stack words.
ghost use Rattle.std.specs.Prelude.{◌≡◌};
ghost use Rattle.machine.specs.Lent.{seen};
ghost use Rattle.cells.specs.Cells.{top, saved, Sized};

use machine::{H, N, View};

// The notes stand in the work words from `notes` on.
#[derive(Clone, Copy)]
pub(super) struct Noted<'a> {
    pub view: View<'a>,
    pub work: &'a [u32],
    pub notes: usize,
    ghost sized: { Sized (seen view) work.now notes },
}

impl Noted<'_> {
    // Where the heap ends: the register H.
    #[tactic(auto, unfolding(machine::specs::Layout::field))]
    pub(super) fn top(self) -> usize
        ensures { result ≡ top (seen self.entry.view) }
    {
        self.view.control[H] as usize
    }

    // How many arguments the control area has saved: the register n.
    #[tactic(auto, unfolding(machine::specs::Layout::field))]
    pub(super) fn saved(self) -> usize
        ensures { result ≡ saved (seen self.entry.view) }
    {
        self.view.control[N] as usize
    }
}
