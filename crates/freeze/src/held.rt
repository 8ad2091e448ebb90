// A reader that keeps the lent file and its offset together. Each function takes it apart and calls one on the file and the number.
ghost use Rattle.std.specs.Prelude.{◌≡◌};
ghost use Rattle.freeze.specs.Records.{record_answer_of, record_at};
ghost use Rattle.freeze.specs.Held.{Started, ReadsNext};

use crate::records::record_at;
use crate::{FileRefusal, Reader, Record};

// A reader of a file, at its start.
pub fn new<'a>(file: &'a [u8]) -> Reader<'a>
    ensures { Started file.entry result }
{
    Reader { file, at: 0 }
}

// The record at the reader's offset. The reader moves past a whole record, and else stays.
#[tactic(auto, unfolding(crate::proofs::RecordLaws::record_answers))]
pub fn next<'s, 'a>(r: &'s mut Reader<'a>) -> Result<Record, FileRefusal>
    ensures { ReadsNext r.old result r.new }
{
    let record = record_at(r.file, r.at)?;
    r.at = record.next;
    Ok(record)
}

// The record at the reader's offset, and nothing moves.
pub fn peek<'a>(r: Reader<'a>) -> Result<Record, FileRefusal>
    ensures { record_answer_of result ≡ record_at r.entry.file.now r.entry.at }
{
    record_at(r.file, r.at)
}

// The first record of a file: a reader is made and read. Whoever calls this needs to know nothing of a reader.
pub fn first_record(file: &[u8]) -> Result<Record, FileRefusal>
    ensures { record_answer_of result ≡ record_at file.now 0 }
{
    peek(new(file))
}
