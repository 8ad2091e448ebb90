// The cells of a heap, taken by a tally one at a time.
ghost use Rattle.std.specs.Prelude.{◌≡◌, ◌≤◌, length};
ghost use Rattle.tally.specs.Parts.{read_tally, kept_tally, Keepable};

use crate::Tally;

// Reads the first cells of a heap.
pub fn read_heap(heap: &[u32], count: usize) -> Tally
    requires { count ≤ length heap.now }
    ensures { result ≡ read_tally heap.now count }
{
    let mut tally = Tally::empty();
    for word in &heap[..count] {
        tally = tally.read(*word);
    }
    tally
}

// Keeps the first cells of a heap, all of which were read. A collection keeps every cell's tag, so these are the cells that it kept.
pub fn keep_heap(read: Tally, heap: &[u32], count: usize) -> Tally
    requires count_in_bounds { count ≤ length heap.now }
    requires keepable { Keepable read heap.now count }
    ensures { result ≡ kept_tally read heap.now count }
{
    let mut tally = read;
    for word in &heap[..count] {
        tally = tally.keep(*word);
    }
    tally
}
