// The kinds of record and the table of their body lengths.
ghost use Rattle.std.specs.Prelude.{◌≡◌};
ghost use Rattle.freeze.specs.Kinds.{body_of, record_size};

pub const COUNTS: u8 = 1;

pub const CONTROL: u8 = 2;

pub const STACK: u8 = 3;

pub const HEAP: u8 = 4;

pub const TRAIL: u8 = 5;

pub const END: u8 = 6;

// The mark of a kind that is not used.
pub const UNUSED: u8 = 255;

pub const KINDS: usize = 32;

const BODIES: [u8; KINDS] = [
    UNUSED, 16, 4, 4, 4, 4, 0, UNUSED, UNUSED, UNUSED, UNUSED, UNUSED, UNUSED, UNUSED, UNUSED,
    UNUSED, UNUSED, UNUSED, UNUSED, UNUSED, UNUSED, UNUSED, UNUSED, UNUSED, UNUSED, UNUSED, UNUSED,
    UNUSED, UNUSED, UNUSED, UNUSED, UNUSED,
];

// How long the body of a kind is, or the mark.
pub fn body_length(kind: u8) -> u8
    ensures { result ≡ body_of kind }
{
    match BODIES.get(kind as usize) {
        Some(length) => *length,
        None => UNUSED,
    }
}

// The kind's byte and the body.
pub fn record_size(kind: u8) -> usize
    ensures { result ≡ record_size kind }
{
    1 + body_length(kind) as usize
}
