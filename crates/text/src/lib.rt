// Bytes, numbers in decimal and lines of numbers into a lent output, each from a place on; what has no room is left out.
// What is right stands in specs/.
#![tactic(auto)]

ghost use Rattle.std.specs.Prelude.{[], ◌∷◌, ◌≡◌, take};
ghost use Rattle.text.specs.Decimal.{decimal};
ghost use Rattle.text.specs.Line.{spaced, numbers, line};
ghost use Rattle.text.specs.Puts.{Puts, PutsShort, number_most};

// The byte of `0`, and how many digits there are.
const ZERO: u8 = 48;

const BASE: usize = 10;

// One byte.
pub fn put_byte(output: &mut [u8], at: usize, byte: u8) -> usize
    ensures { Puts output.old at (byte ∷ []) result output.new }
{
    if at < output.len() {
        output[at] = byte;
        return at + 1;
    }
    at
}

// All bytes of a text.
pub fn put_bytes(output: &mut [u8], from: usize, bytes: &[u8]) -> usize
    ensures { Puts output.old from bytes.now result output.new }
{
    let mut at = from;
    for byte in bytes {
        at = put_byte(output, at, *byte);
    }
    at
}

// A number in decimal: the digits before the last, if there are any, and the last.
pub fn put_number(output: &mut [u8], at: usize, n: usize) -> usize
    ensures { Puts output.old at (decimal n) result output.new }
{
    let last = ZERO + (n % BASE) as u8;
    if n < BASE {
        return put_byte(output, at, last);
    }
    let next = put_number(output, at, n / BASE);
    put_byte(output, next, last)
}

// A number after a space.
pub fn put_spaced(output: &mut [u8], at: usize, n: usize) -> usize
    ensures { PutsShort number_most output.old at (spaced n) result output.new }
{
    let next = put_byte(output, at, b' ');
    put_number(output, next, n)
}

// The first words of a slice, as many as counted, each after a space.
pub fn put_numbers(output: &mut [u8], from: usize, words: &[u32], count: usize) -> usize
    ensures { Puts output.old from (numbers (take count words.now)) result output.new }
{
    let end = count.min(words.len());
    let mut at = from;
    for word in &words[..end] {
        at = put_spaced(output, at, *word as usize);
    }
    at
}

// A word and the first words of a slice, as a line.
pub fn put_line(output: &mut [u8], at: usize, word: &[u8], words: &[u32], count: usize) -> usize
    ensures { Puts output.old at (line word.now (take count words.now)) result output.new }
{
    let numbers_at = put_bytes(output, at, word);
    let next = put_numbers(output, numbers_at, words, count);
    put_byte(output, next, b'\n')
}
