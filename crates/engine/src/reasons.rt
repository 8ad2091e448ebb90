// Refusals as numbers.
ghost use Rattle.std.specs.Prelude.{◌≡◌};
ghost use Rattle.machine.specs.Refusals.{refused, nowhere};
ghost use Rattle.machine.specs.Answers.{place_in, verdict_of};
ghost use Rattle.freeze.specs.Verdicts.{verdict_of as file_verdict_of};
ghost use Rattle.engine.specs.Reasons.{area_number, reason_of, file_reason_of};

use freeze::FileRefusal;
use machine::{Area, Place, Refusal};

// The areas by number; 0 is left for none.
pub const HEAP: u32 = 1;

pub const STACK: u32 = 2;

pub const CONTROL: u32 = 3;

pub const TRAIL: u32 = 4;

// Why an image is refused: the number, and the place where there is one, else zeros.
#[derive(Clone, Copy)]
pub struct Reason {
    pub number: u32,
    pub area: u32,
    pub index: u64,
}

// Why a file is refused: the number and the offset.
#[derive(Clone, Copy)]
pub struct FileReason {
    pub number: u32,
    pub offset: u64,
}

pub fn area_number(area: Area) -> u32
    ensures { result ≡ area_number area }
{
    match area {
        Area::Heap => HEAP,
        Area::Stack => STACK,
        Area::Control => CONTROL,
        Area::Trail => TRAIL,
    }
}

// A refusal that has no place.
pub fn placeless(number: u32) -> Reason
    ensures { result ≡ reason_of (refused number nowhere) }
{
    Reason {
        number,
        area: 0,
        index: 0,
    }
}

// A refusal with its place.
fn placed(number: u32, place: Place) -> Reason
    ensures { result ≡ reason_of (refused number (place_in place)) }
{
    Reason {
        number,
        area: area_number(place.area),
        index: place.index as u64,
    }
}

// The number of a refusal of the collector or of the step back, and its place.
impl From<Refusal> for Reason {
    ghost from_gives = { λ refusal r. r ≡ reason_of (verdict_of refusal) };

    fn from(refusal: Refusal) -> Reason {
        let why = refusal.reason();
        match why.place {
            Some(place) => placed(why.number, place),
            None => placeless(why.number),
        }
    }
}

// The number of a refusal of the file parts, and its offset.
impl From<FileRefusal> for FileReason {
    ghost from_gives = { λ refusal r. r ≡ file_reason_of (file_verdict_of refusal) };

    fn from(refusal: FileRefusal) -> FileReason {
        let why = refusal.fault();
        FileReason {
            number: why.number,
            offset: why.offset as u64,
        }
    }
}
