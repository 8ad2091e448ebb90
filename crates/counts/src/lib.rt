// Where each kept cell goes: counts in the work words, and a word or a boundary moved by them.
#![tactic(auto)]

ghost use Rattle.std.specs.Prelude.{◌≡◌, Bool, ◌++◌, ℕ, ◌-◌, ◌≤◌, length, take, drop, replicate};
ghost use Rattle.machine.specs.Layout.{heap_most};
ghost use Rattle.machine.specs.Moved.{below, move_word};
ghost use Rattle.counts.specs.Counts.{Counting, Counted, Low, Movable};

use cell::{STACK_BASE, Tag};

// Puts the counts in the place of the marks below top, and answers how many cells are kept.
pub fn count(work: &mut [u32], top: usize) -> u32
    requires { (top ≤ length work.old) × (top ≤ heap_most) }
    ensures { Counted work.old top work.new result }
{
    let mut d = 0;
    for word in &mut work[..top] {
        let kept = u32::from(*word > 0);
        *word = d * 2 + kept;
        d += kept;
    }
    d
}

// d(h), for a boundary h at most top.
pub fn boundary(work: &[u32], top: usize, total: u32, h: u32) -> u32
    requires { (h ≤ top) × Low top work.now }
    ensures { (cells : ℕ → Bool) → Counting cells top work.now → total ≡ below cells top → result ≡ below cells h }
{
    let x = h as usize;
    if x < top { work[x] / 2 } else { total }
}

// A word with its reference moved.
pub fn moved_word(work: &[u32], top: usize, word: u32) -> u32
    requires { Low top work.now × (Movable top word) }
    ensures { (cells : ℕ → Bool) → Counting cells top work.now → result ≡ move_word (below cells) word }
{
    let v = cell::value(word);
    match Tag::of(word) {
        Tag::Const => word,
        _ if v < STACK_BASE => cell::with_value(word, work[v as usize] / 2),
        _ => word,
    }
}

// Zeros from a up to, not including, z.
pub fn clear(words: &mut [u32], a: usize, z: usize)
    requires { (a ≤ z) × (z ≤ length words.old) }
    ensures { words.new ≡ take a words.old ++ (replicate (z - a) 0 ++ drop z words.old) }
{
    words[a..z].fill(0);
}
