// Freeze files: one record, a file read into four lent areas, four areas written as a file. What is right stands in specs/, under
// its sentences of document 01.
#![tactic(auto)]

ghost use Rattle.std.specs.Prelude.{◌≡◌};
ghost use Rattle.freeze.specs.Verdicts.{verdict_of, fault_verdict};

pub mod held;
mod kinds;
mod reading;
mod records;
mod sizes;
mod writing;

pub use held::first_record;
pub use kinds::{CONTROL, COUNTS, END, HEAP, STACK, TRAIL, UNUSED, body_length, record_size};
pub use reading::{counts_in, thaw};
pub use records::{offset_after, record_at};
pub use sizes::within;
pub use writing::{file_length, freeze};

// Why a file is not read or not written, with the offset where it need not be 0.
#[derive(Clone, Copy, Debug, PartialEq, Eq)]
pub enum FileRefusal {
    Sizes,
    Registers,
    Cut(usize),
    Kind(usize),
    Room,
    After(usize),
    Differ,
    Output,
}

// A refusal as the paper numbers it, with its offset, which is 0 where it names none.
#[derive(Clone, Copy, Debug, PartialEq, Eq)]
pub struct Fault {
    pub number: u32,
    pub offset: usize,
}

impl FileRefusal {
    // Why a file is not read or not written.
    #[tactic(auto, unfolding(crate::specs::Verdicts::verdict_of))]
    pub fn fault(self) -> Fault
        ensures { fault_verdict result ≡ verdict_of self }
    {
        let (number, offset) = match self {
            FileRefusal::Sizes => (1, 0),
            FileRefusal::Registers => (2, 0),
            FileRefusal::Cut(at) => (10, at),
            FileRefusal::Kind(at) => (11, at),
            FileRefusal::Room => (12, 0),
            FileRefusal::After(at) => (13, at),
            FileRefusal::Differ => (14, 0),
            FileRefusal::Output => (15, 0),
        };
        Fault { number, offset }
    }
}

// One record: its kind, where its body starts, and where the next record does.
#[derive(Clone, Copy, Debug, PartialEq, Eq)]
pub struct Record {
    pub kind: u8,
    pub body: usize,
    pub next: usize,
}

// A lent file, and the offset of the record that is read next.
#[derive(Clone, Copy, Debug, PartialEq, Eq)]
pub struct Reader<'a> {
    pub file: &'a [u8],
    pub at: usize,
}

// So many words of each area.
#[derive(Clone, Copy, Debug, PartialEq, Eq)]
pub struct AreaCounts {
    pub control: usize,
    pub stack: usize,
    pub heap: usize,
    pub trail: usize,
}
