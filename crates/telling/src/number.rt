// The program's argument: a heap index in decimal.
ghost use Rattle.std.specs.Prelude.{◌≡◌};
ghost use Rattle.telling.specs.Number.{asked_of};

// How many digits there are.
const BASE: u64 = 10;

// No index is as large.
const WORD_LIMIT: u64 = 4294967296;

// The number that a text of digits says; nothing as soon as a byte is no digit or the number is too large.
pub fn read_index(text: &[u8]) -> Option<u32>
    ensures { result ≡ asked_of text.now }
{
    if text.is_empty() {
        return None;
    }
    let mut n = 0;
    for byte in text {
        if !byte.is_ascii_digit() {
            return None;
        }
        n = n * BASE + u64::from(byte - b'0');
        if WORD_LIMIT <= n {
            return None;
        }
    }
    Some(n as u32)
}
