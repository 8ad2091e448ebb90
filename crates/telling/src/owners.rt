// Whose cell a stack word is.
ghost use Rattle.std.specs.Prelude.{◌+◌, ◌≡◌};
ghost use Rattle.machine.specs.declared.Area.TheVariants.{Stack};
ghost use Rattle.machine.specs.Lent.{seen};
ghost use Rattle.telling.specs.declared.owners.Owner.{Owner};
ghost use Rattle.telling.specs.Parts.{cells_from, Shown, Owned, Owns, Rooted};

use machine::{CELL, LINK, LINK_FIELD, N, View};

// A frame or a choice point, by the stack word at which it begins.
#[derive(Clone, Copy, Debug, PartialEq, Eq)]
pub enum Owner {
    Frame(usize),
    Point(usize),
}

// The field before the cells that end with the word i.
fn field_below(notes: &[u32], i: usize) -> usize
    requires { Owned notes.now i }
    ensures { (owner : Owner) → Shown notes.now i owner → result + 1 ≡ cells_from owner }
{
    notes[..=i].iter().rposition(|&note| note != CELL).unwrap()
}

// CE of a frame and n of a choice point stand before the cells.
fn noted_owner(notes: &[u32], i: usize) -> Owner
    requires { Owned notes.now i }
    ensures { (owner : Owner) → Shown notes.now i owner → result ≡ owner }
{
    let field = field_below(notes, i);
    if notes[field] == LINK_FIELD {
        return Owner::Frame(field - LINK);
    }
    Owner::Point(field - N)
}

// The frame or choice point that has the stack word i for a cell. The roles are noted once more, and the work words cleared again.
pub fn owner_of(view: View<'_>, work: &mut [u32], i: usize) -> Owner
    requires { Rooted (seen view) work.old Stack i }
    ensures owns { Owns (seen view.entry) i result }
    ensures work_unchanged { work.new ≡ work.old }
{
    let notes = view.heap.len();
    chains::walk(view, work, notes).unwrap();
    let owner = noted_owner(&work[notes..], i);
    counts::clear(work, 0, notes + view.stack.len());
    owner
}
