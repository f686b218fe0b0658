// Answering: a record's answer field is written where the record lies, in the middle of its book.
ghost use Rattle.std.specs.Prelude.{◌≡◌, ℕ, ◌≤◌, T, length, if◌then◌else◌};
ghost use Rattle.book.specs.Format.{answered};
ghost use Rattle.book.specs.Numbers.{answer_word, fault_number, layer_number};
ghost use Rattle.book.specs.Reading.{reading, is_record};
ghost use Rattle.book.specs.Tiling.{AnswersAlone};

use crate::reader::read;
use crate::types::{Fault, Layer, Outcome, Refusal};

impl Fault {
    pub fn number(self) -> u8
        ensures { result ≡ fault_number self }
    {
        self as u8
    }
}

impl Layer {
    pub fn number(self) -> u8
        ensures { result ≡ layer_number self }
    {
        self as u8
    }
}

// The word of the answer field.
pub fn word(outcome: Outcome) -> u16
    ensures { result ≡ answer_word outcome }
{
    match outcome {
        Ok(()) => 0,
        Err(Refusal { layer, number }) => number as u16 + 256 * layer.number() as u16,
    }
}

// Writes the answer field of the record whose bytes these are.
fn put_answer(part: &mut [u8], answer: u16)
    requires { 6 ≤ length part.old }
    ensures { part.new ≡ answered part.old 0 answer }
{
    let [low, high] = answer.to_le_bytes();
    part[4] = low;
    part[5] = high;
}

// Answers the record at this place. False, and no byte changed, where no record stands there: a yes or a no, with no
// value and only one reason, so no `Result`.
pub fn answer_at(book: &mut [u8], at: usize, outcome: Outcome) -> bool
    ensures value { result ≡ is_record (reading book.old at) }
    ensures after { book.new ≡ (if is_record (reading book.old at) then answered book.old at (answer_word outcome) else book.old) }
    ensures alone { T result → AnswersAlone book.old book.new at (answer_word outcome) }
{
    let Ok(Some(record)) = read(book, at) else {
        return false;
    };
    let size = record.size();
    put_answer(&mut book[at..at + size], word(outcome));
    true
}
