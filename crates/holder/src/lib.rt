// Why a heap cell is held: the shortest chain from a root down to it, and among equals the one with the lowest places.
#![tactic(auto)]

mod chain; // chain.rt: the chain, traced back through the queue
mod root; // root.rt: the root that it starts from

ghost use Rattle.std.specs.Prelude.{◌≡◌};
ghost use Rattle.machine.specs.Lent.{seen};
ghost use Rattle.collect.specs.Phases.{Reachable};
ghost use Rattle.holder.specs.Answers.{Explains};
ghost use Rattle.holder.specs.Tracing.{Searched, Holds, Explained};
ghost use Rattle.holder.specs.declared.Untold.TheVariants as untold;

use machine::{H, Place, Refusal, View};

// By what a cell is held: the root at this place, through so many heap cells.
#[derive(Clone, Copy, Debug, PartialEq, Eq)]
pub struct Held {
    pub root: Place,
    pub length: usize,
}

// Why nothing is told of a cell.
#[derive(Clone, Copy, Debug, PartialEq, Eq)]
pub enum Untold {
    // 18: the index is at or above H.
    NoCell,
    // 19: the chain is longer than the room.
    RoomShort,
    Image(Refusal),
}

impl From<Refusal> for Untold {
    ghost from_gives = { λ refusal r. r ≡ untold.Image refusal };

    fn from(refusal: Refusal) -> Untold {
        Untold::Image(refusal)
    }
}

// The answer for a cell that the search has met.
fn held_by(
    view: View<'_>,
    work: &[u32],
    tail: usize,
    x: usize,
    room: &mut [u32],
) -> Result<Held, Untold>
    requires { Searched view.control.now view.stack.now view.heap.now work.now tail x }
    ensures { Holds view.entry.control.now view.entry.stack.now view.entry.heap.now work.now tail x room.old result room.new }
{
    let j = chain::place_of(work, tail, x).unwrap();
    let length = chain::depth(work, j);
    if room.len() < length {
        return Err(Untold::RoomShort);
    }
    chain::trace(view.heap, work, j, length, room);
    let root = root::root_of(view, work, room[0] as usize);
    Ok(Held { root, length })
}

// The answer for a cell of an admitted image, or nothing for a dead one.
fn explain(
    view: View<'_>,
    work: &mut [u32],
    x: usize,
    room: &mut [u32],
) -> Result<Option<Held>, Untold>
    requires { Reachable (seen view) work.old }
    ensures { Explained (seen view.entry) x room.old work.old work.new result room.new }
{
    if view.control[H] as usize <= x {
        return Err(Untold::NoCell);
    }
    let tail = queue::fill(view, work);
    if !queue::is_met(work[x]) {
        return Ok(None);
    }
    held_by(view, work, tail, x, room).map(Some)
}

// Why the heap cell `cell` is held; nothing if it is dead. The areas are only read.
pub fn why_held(
    view: View<'_>,
    work: &mut [u32],
    cell: u32,
    room: &mut [u32],
) -> Result<Option<Held>, Untold>
    ensures { Explains (seen view.entry) work.old cell room.old result work.new room.new }
{
    admit::admit(view, work)?;
    let words = view.heap.len() + view.stack.len();
    let answer = explain(view, work, cell as usize, room);
    counts::clear(work, 0, words);
    answer
}
