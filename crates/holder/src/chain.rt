// The chain to a cell, by the queue: where the cell stands, how long the chain is, and the chain traced back level by level.
ghost use Rattle.std.specs.Prelude.{◌≡◌, suc, ◌+◌, ◌<◌, ◌≤◌, length};
ghost use Rattle.machine.specs.Lowest.{Lowest};
ghost use Rattle.order.specs.Levels.{Starts, levels};
ghost use Rattle.queue.specs.Filled.{begins_at};
ghost use Rattle.holder.specs.Tracing.{stands_at, parent_from, Places, Traceable, Traced};

// Where the cell x stands first in the queue.
#[tactic(auto, unfolding(crate::specs::Tracing::stands_at))]
pub(super) fn place_of(work: &[u32], tail: usize, x: usize) -> Option<usize>
    requires { tail ≤ length work.now }
    ensures { Lowest (stands_at work.now x) tail result }
{
    work[..tail].iter().position(|&w| queue::entry(w) == x)
}

// How many levels begin at place j or before: the length of the chain to the cell there.
pub(super) fn depth(work: &[u32], j: usize) -> usize
    requires { j < length work.now }
    ensures { result ≡ levels (begins_at work.now) (suc j) }
{
    work[..=j]
        .iter()
        .filter(|&&w| queue::begins_level(w))
        .count()
}

// Where the level of place j begins.
fn level_of(work: &[u32], j: usize) -> usize
    requires { (j < length work.now) × (begins_at work.now 0 ≡ 1) }
    ensures { Starts (begins_at work.now) result j }
{
    work[..=j]
        .iter()
        .rposition(|&w| queue::begins_level(w))
        .unwrap()
}

// The first of n cells of the queue, from place a on, that refers to x.
fn parent(heap: &[u32], work: &[u32], a: usize, n: usize, x: usize) -> Option<usize>
    requires { Places heap.now work.now (a + n) }
    ensures { Lowest (parent_from heap.now work.now a x) n result }
{
    (0..n).find(|&i| queue::refers(heap, heap[queue::entry(work[a + i])], x))
}

// Writes the chain to the cell at place j of the queue into the front of the room, from its end: each cell's parent is looked for in the level above.
pub(super) fn trace(heap: &[u32], work: &[u32], j: usize, n: usize, room: &mut [u32])
    requires traceable { Traceable heap.now work.now (suc j) × (n ≡ levels (begins_at work.now) (suc j)) }
    requires n_in_bounds { n ≤ length room.old }
    ensures { Traced heap.now work.now j room.old room.new }
{
    let mut x = queue::entry(work[j]);
    let mut level = level_of(work, j);
    for left in (1..n).rev() {
        room[left] = x as u32;
        let z = level;
        level = level_of(work, z - 1);
        let at = level + parent(heap, work, level, z - level, x).unwrap();
        x = queue::entry(work[at]);
    }
    room[0] = x as u32;
}
