// The bytes of the input that are held: a part of a buffer, moved to its front when it gets short.
ghost use Rattle.std.specs.Prelude.{◌≡◌, ◌+◌, ◌-◌, ◌≤◌, take, drop, IfOk, OnErr};
ghost use Rattle.month.specs.Holding.{Holds, Enough};

use std::io;
use std::io::Read;

// The part of the buffer that is not used up, and whether the input has ended.
#[derive(Clone, Copy)]
pub struct Held {
    pub from: usize,
    pub to: usize,
    pub ended: bool,
}

impl Held {
    // Before anything is read.
    pub fn none() -> Held
        ensures { (result.from ≡ 0) × (result.to ≡ 0) }
    {
        Held {
            from: 0,
            to: 0,
            ended: false,
        }
    }

    // So many bytes are used up.
    pub fn past(self, used: usize) -> Held
        requires { used ≤ self.to - self.from }
        ensures { (result.from ≡ self.from + used) × (result.to ≡ self.to) }
    {
        Held {
            from: self.from + used,
            ..self
        }
    }
}

// Reads on where fewer bytes are held than the longest file has, until the buffer is full or the input ends. Where a read fails, its error
// is the answer, and the bytes that were held stand at the buffer's front.
pub fn refill<R: Read>(input: &mut R, buffer: &mut [u8], held: Held) -> io::Result<Held>
    requires { Holds held buffer.old }
    ensures ok { IfOk result (λ h. Holds h buffer.new × Enough h) }
    ensures err { OnErr result (take (held.to - held.from) buffer.new ≡ take (held.to - held.from) (drop held.from buffer.old)) }
{
    if held.ended || report::FILE_MOST <= held.to - held.from {
        return Ok(held);
    }
    let kept = held.to - held.from;
    buffer.copy_within(held.from..held.to, 0);
    let count = reading::read_full(input, &mut buffer[kept..])?;
    let to = kept + count;
    Ok(Held {
        from: 0,
        to,
        ended: to < buffer.len(),
    })
}
