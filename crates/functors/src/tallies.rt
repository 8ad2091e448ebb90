// What the flags tell without counts: whether the structures lie apart.
ghost use Rattle.std.specs.Prelude.{◌≡◌, true, ◌<◌, ◌≤◌, length};
ghost use Rattle.machine.specs.Layout.{heap_most};
ghost use Rattle.functors.specs.Functors.{Apart, Told};

// One of two, by a flag.
fn chosen(flag: u32, clear: usize, set: usize) -> usize
    ensures { (flag ≡ 0 → result ≡ clear) × (0 < flag → result ≡ set) }
{
    if flag == 0 { clear } else { set }
}

// Whether no flagged cell is among the arguments of another. Below `free` lie the cells of the last structure met, and so of all.
fn apart(heap: &[u32], h: usize, work: &[u32]) -> bool
    requires { (h ≤ length heap.now) × (h ≤ length work.now) × (h ≤ heap_most) }
    ensures { result ≡ true → Apart heap.now h work.now }
{
    let mut free = 0;
    for x in 0..h {
        let flag = work[x];
        let end = x + 1 + cell::arity(heap[x]) as usize;
        let from = chosen(flag, free, x);
        if from < free {
            return false;
        }
        free = chosen(flag, free, end);
    }
    true
}

// Leaves the flags where the structures lie apart, which answers for every STRUCT, and gives 0; else puts the counts in their place and
// gives how many first cells there are.
pub(super) fn tally(heap: &[u32], h: usize, work: &mut [u32]) -> u32
    requires { (h ≤ length heap.now) × (h ≤ length work.old) × (h ≤ heap_most) }
    ensures { Told heap.now h work.old work.new result }
{
    if apart(heap, h, work) {
        return 0;
    }
    counts::count(work, h)
}
