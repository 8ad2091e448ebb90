// Freeze files: the reader, the writer, one record.
ghost use Rattle.std.specs.Prelude.{◌≡◌};
ghost use Rattle.freeze.specs.Records.{record_answer_of};
ghost use Rattle.freeze.specs.Thaw.{image_of, thaw_answer_of};
ghost use Rattle.freeze.specs.Freeze.{freeze_answer_of};
ghost use Rattle.engine.specs.Files.{thawed_of, frozen_of, record_of, ThawsForC, FreezesForC, ReadsForC};

use crate::reasons::FileReason;
use crate::{BikFrozen, BikRecord, BikThawed};
use freeze::{AreaCounts, FileRefusal, Record};
use machine::View;

// The answer of the reader as a struct of numbers.
#[tactic(auto, unfolding(crate::specs::Files::thawed_of, freeze::specs::Thaw::thaw_answer_of))]
fn thawed(answer: Result<AreaCounts, FileRefusal>) -> BikThawed
    ensures { result ≡ thawed_of (thaw_answer_of answer) }
{
    match answer {
        Ok(counts) => BikThawed {
            control: counts.control as u64,
            stack: counts.stack as u64,
            heap: counts.heap as u64,
            trail: counts.trail as u64,
            ..BikThawed::default()
        },
        Err(refusal) => {
            let why = FileReason::from(refusal);
            BikThawed {
                refusal: why.number,
                offset: why.offset,
                ..BikThawed::default()
            }
        }
    }
}

// Reads a file into the fronts of four lent areas: `freeze::thaw` for C.
pub fn bik_thaw(
    file: &[u8],
    control: &mut [u32],
    stack: &mut [u32],
    heap: &mut [u32],
    trail: &mut [u32],
) -> BikThawed
    ensures { ThawsForC file.now (image_of control.old stack.old heap.old trail.old) result (image_of control.new stack.new heap.new trail.new) }
{
    thawed(freeze::thaw(file, control, stack, heap, trail))
}

// The answer of the writer as a struct of numbers.
#[tactic(auto, unfolding(crate::specs::Files::frozen_of, freeze::specs::Freeze::freeze_answer_of))]
fn frozen(answer: Result<usize, FileRefusal>) -> BikFrozen
    ensures { result ≡ frozen_of (freeze_answer_of answer) }
{
    match answer {
        Ok(bytes) => BikFrozen {
            refusal: 0,
            bytes: bytes as u64,
        },
        Err(refusal) => BikFrozen {
            refusal: FileReason::from(refusal).number,
            bytes: 0,
        },
    }
}

// Writes four areas as a file: `freeze::freeze` for C.
pub fn bik_freeze(
    control: &[u32],
    stack: &[u32],
    heap: &[u32],
    trail: &[u32],
    output: &mut [u8],
) -> BikFrozen
    ensures { FreezesForC (image_of control.now stack.now heap.now trail.now) output.old result output.new }
{
    let view = View {
        control,
        stack,
        heap,
        trail,
    };
    frozen(freeze::freeze(view, output))
}

// The answer of the record reader as a struct of numbers.
#[tactic(auto, unfolding(crate::specs::Files::record_of, freeze::specs::Records::record_answer_of))]
fn record_read(answer: Result<Record, FileRefusal>) -> BikRecord
    ensures { result ≡ record_of (record_answer_of answer) }
{
    match answer {
        Ok(record) => BikRecord {
            kind: record.kind as u32,
            body: record.body as u64,
            next: record.next as u64,
            ..BikRecord::default()
        },
        Err(refusal) => {
            let why = FileReason::from(refusal);
            BikRecord {
                refusal: why.number,
                offset: why.offset,
                ..BikRecord::default()
            }
        }
    }
}

// The record at an offset of a file: `freeze::record_at` for C.
pub fn bik_record_at(file: &[u8], offset: u64) -> BikRecord
    ensures { ReadsForC file.now offset result }
{
    record_read(freeze::record_at(file, offset as usize))
}
