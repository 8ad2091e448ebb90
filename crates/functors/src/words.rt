// The tests of one address and of one word: whether it covers a first cell. The work words hold flags of the first cells below h, total
// being 0, or their counts.
ghost use Rattle.std.specs.Prelude.{◌≡◌, Bool, false, ◌&&◌, ℕ, ◌+◌, ◌%◌, ◌<◌, ◌≤◌, length, get_or, eqb};
ghost use Rattle.cell.specs.Word.{VAR, LIST, tag_of, value_of, stack_base, in_heap};
ghost use Rattle.counts.specs.Counts.{Low};
ghost use Rattle.functors.specs.Functors.{covers_in, Within, Odd, Tallied, Owned, Off};

use cell::Tag;

// Whether the heap cell x is counted.
fn counted(work: &[u32], x: usize) -> bool
    requires { x < length work.now }
    ensures { result ≡ eqb (get_or work.now x 0 % 2) 1 }
{
    work[x] % 2 == 1
}

// Whether an address, of a VAR or of a trail entry, names a first cell.
pub(super) fn names_first(work: &[u32], address: u32) -> bool
    requires { address < stack_base → address < length work.now }
    ensures { (firsts : ℕ → Bool) (h : ℕ) → Odd firsts h work.now → (address < stack_base → address < h) → result ≡ (in_heap address && firsts address) }
{
    address < cell::STACK_BASE && counted(work, address as usize)
}

// Whether a first cell is among the cells that a word refers to, a STRUCT's own not counted.
pub(super) fn covers_first(heap: &[u32], h: usize, work: &[u32], total: u32, word: u32) -> bool
    requires { (h ≤ length heap.now) × Low h work.now × Within h heap.now word }
    ensures { (firsts : ℕ → Bool) → Tallied firsts heap.now h work.now total → Owned firsts word → result ≡ covers_in firsts heap.now word }
{
    let v = cell::value(word);
    let x = v as usize;
    match Tag::of(word) {
        Tag::Const => false,
        Tag::Var => names_first(work, v),
        Tag::List => counted(work, x) || counted(work, x + 1),
        Tag::Struct if total == 0 => false,
        Tag::Struct => {
            let end = v + 1 + cell::arity(heap[x]);
            counts::boundary(work, h, total, v + 1) != counts::boundary(work, h, total, end)
        }
    }
}

// Whether a VAR or a LIST of the heap covers a flagged cell; a STRUCT or a CONST is looked up at 0 in vain. Tags cannot be guessed, so none
// is branched on.
pub(super) fn names_flag(work: &[u32], word: u32) -> bool
    requires { (0 < length work.now) × (tag_of word ≡ VAR → value_of word < length work.now) × (tag_of word ≡ LIST → value_of word + 1 < length work.now) }
    ensures { result ≡ false → Off work.now word }
{
    let tag = cell::tag_number(word);
    let v = cell::value(word);
    let a = if tag % 2 == 0 { v } else { 0 };
    let second = if tag == cell::LIST { 1 } else { 0 };
    let most = if tag % 2 == 0 { 0 } else { 1 };
    let x = a as usize;
    let y = (a + second) as usize;
    work[x] > most || work[y] > most
}
