// The lowest place of a cell or a trail entry that covers a first cell, the areas in their order.
ghost use Rattle.std.specs.Prelude.{◌≡◌, Bool, true, ℕ, ◌<◌, ◌≤◌, length, get_or, IfSome};
ghost use Rattle.machine.specs.Layout.{H, T, reg};
ghost use Rattle.machine.specs.Lent.{seen};
ghost use Rattle.machine.specs.Lowest.{Lowest};
ghost use Rattle.machine.specs.Refusals.{first_of, refused, in_area};
ghost use Rattle.cells.specs.Cells.{checked_to};
ghost use Rattle.functors.specs.Functors.{covers_in, covers_heap, covers_stack, entry_in, covered_checks, Within, Named, Off, Odd, Tallied, Owned, Searchable, Telling};

use super::words::{covers_first, names_first, names_flag};
use machine::{Area, CELL, FIXED, Place, Refusal, View};

// An image with the work words that tell its first cells, and their total.
#[derive(Clone, Copy)]
pub(super) struct Searched<'a> {
    pub view: View<'a>,
    pub work: &'a [u32],
    pub notes: usize,
    pub total: u32,
    ghost searchable: { Searchable (seen view) work.now notes },
}

// Whether no VAR and no LIST of some cells covers a flagged cell.
fn heap_off(cells: &[u32], work: &[u32]) -> bool
    requires { (length cells.now ≤ length work.now) × ((i : ℕ) → i < length cells.now → Named (length work.now) (get_or cells.now i 0)) }
    ensures { result ≡ true → (i : ℕ) → i < length cells.now → Off work.now (get_or cells.now i 0) }
{
    cells.iter().all(|word| !names_flag(work, *word))
}

// The refusal at a place.
#[tactic(auto, unfolding(cells::specs::Cells::checked_to, machine::specs::Answers::verdict_of))]
fn refuse(area: Area, index: usize) -> Result<(), Refusal>
    ensures { checked_to result ≡ refused 17 (in_area area index) }
{
    Err(Refusal::First(Place { area, index }))
}

impl Searched<'_> {
    // The index of the first of some words, all of them cells, that covers a first cell.
    #[tactic(auto, unfolding(machine::specs::Layout::field))]
    fn first_word(self, words: &[u32]) -> Option<usize>
        requires { (i : ℕ) → i < length words.now → Within (reg (seen self.view) H) self.view.heap.now (get_or words.now i 0) }
        ensures inside { IfSome result (λ i. i < length words.now) }
        ensures lowest { let X = seen self.entry.view in (firsts : ℕ → Bool) → Tallied firsts X.heap (reg X H) self.entry.work.now self.entry.total
            → ((i : ℕ) → i < length words.now → Owned firsts (get_or words.now i 0)) → Lowest (λ i. covers_in firsts X.heap (get_or words.now i 0)) (length words.now) result }
    {
        let h = self.view.control[machine::H] as usize;
        words.iter().position(|word| covers_first(self.view.heap, h, self.work, self.total, *word))
    }

    // The index of the first heap cell below H that does. Where structures lie apart no STRUCT is in question, and one pass without a branch
    // decides whether there is any.
    #[tactic(auto, unfolding(machine::specs::Layout::field))]
    fn lowest_heap(self) -> Option<usize>
        ensures { let X = seen self.entry.view in (firsts : ℕ → Bool) → Telling firsts X self.entry.work.now self.entry.notes self.entry.total
            → Lowest (covers_heap firsts X.heap) (reg X H) result }
    {
        let cells = &self.view.heap[..self.view.control[machine::H] as usize];
        if self.total == 0 && heap_off(cells, self.work) {
            return None;
        }
        self.first_word(cells)
    }

    // The index of the first of the stack's cells that does.
    #[tactic(auto, unfolding(machine::specs::Layout::field))]
    fn first_stack(self) -> Option<usize>
        ensures { let X = seen self.entry.view in (firsts : ℕ → Bool) → Telling firsts X self.entry.work.now self.entry.notes self.entry.total
            → Lowest (covers_stack firsts X.heap X.stack self.entry.work.now self.entry.notes) (length X.stack) result }
    {
        let view = self.view;
        let h = view.control[machine::H] as usize;
        (0..view.stack.len()).find(|&i| {
            self.work[self.notes + i] == CELL
                && covers_first(view.heap, h, self.work, self.total, view.stack[i])
        })
    }

    // The index of the first trail entry below T that names a first cell.
    #[tactic(auto, unfolding(machine::specs::Layout::field, crate::specs::Functors::entry_in))]
    fn first_entry(self) -> Option<usize>
        ensures { let X = seen self.entry.view in (firsts : ℕ → Bool) → Odd firsts (reg X H) self.entry.work.now → Lowest (entry_in firsts X.trail) (reg X T) result }
    {
        let t = self.view.control[machine::T] as usize;
        (0..t).find(|&i| names_first(self.work, self.view.trail[i]))
    }

    // 17: a cell or a trail entry covers a first cell.
    #[tactic(auto, unfolding(machine::specs::Layout::field))]
    pub(super) fn find(self) -> Result<(), Refusal>
        ensures { let X = seen self.entry.view in (firsts : ℕ → Bool) → Telling firsts X self.entry.work.now self.entry.notes self.entry.total
            → checked_to result ≡ first_of (covered_checks firsts X self.entry.work.now self.entry.notes) }
    {
        if let Some(x) = self.lowest_heap() {
            return refuse(Area::Heap, x);
        }
        if let Some(i) = self.first_stack() {
            return refuse(Area::Stack, i);
        }
        let n = self.view.control[machine::N] as usize;
        if let Some(a) = self.first_word(&self.view.control[FIXED..FIXED + n]) {
            return refuse(Area::Control, FIXED + a);
        }
        if let Some(e) = self.first_entry() {
            return refuse(Area::Trail, e);
        }
        Ok(())
    }
}
