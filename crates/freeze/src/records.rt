// One record at an offset of a file, and one word of a record's body.
ghost use Rattle.std.specs.Prelude.{◌≡◌, ◌+◌, ◌*◌, ◌≤◌, length};
ghost use Rattle.freeze.specs.Kinds.{word_body};
ghost use Rattle.freeze.specs.Records.{record_answer_of, record_at, offset_after, word_in};

use crate::kinds::{UNUSED, body_length};
use crate::{FileRefusal, Record};

// The bytes of one word.
pub const WORD: usize = 4;

// The record at an offset, or why there is none.
#[tactic(auto, unfolding(crate::proofs::RecordLaws::record_answers))]
pub fn record_at(file: &[u8], at: usize) -> Result<Record, FileRefusal>
    ensures { record_answer_of result ≡ record_at file.now at }
{
    let Some(&kind) = file.get(at) else {
        return Err(FileRefusal::Cut(file.len()));
    };
    let length = body_length(kind);
    if length == UNUSED {
        return Err(FileRefusal::Kind(at));
    }
    let body = at + 1;
    if file.len() - body < length as usize {
        return Err(FileRefusal::Cut(at));
    }
    Ok(Record {
        kind,
        body,
        next: body + length as usize,
    })
}

// Where a reader stands after it read at an offset: past a whole record, and else where it stood.
#[tactic(auto, unfolding(crate::proofs::RecordLaws::record_answers))]
pub fn offset_after(file: &[u8], at: usize) -> usize
    ensures { result ≡ offset_after file.now at }
{
    match record_at(file, at) {
        Ok(record) => record.next,
        Err(_) => at,
    }
}

// Word j of the body of the record at an offset.
#[tactic(auto, unfolding(crate::specs::Records::number_at))]
pub fn word_in(file: &[u8], at: usize, j: usize) -> u32
    requires { at + 1 + j * word_body + word_body ≤ length file.now }
    ensures { result ≡ word_in file.now at j }
{
    let i = at + 1 + j * WORD;
    u32::from_le_bytes([file[i], file[i + 1], file[i + 2], file[i + 3]])
}
