// Reading: from a place in a book to the end, a fault, or the record that stands there.
ghost use Rattle.std.specs.Prelude.{◌≡◌, ℕ, ◌+◌, ◌≤◌, length};
ghost use Rattle.book.specs.Format.{word};
ghost use Rattle.book.specs.Reading.{reading};
ghost use Rattle.book.specs.Framing.{Framed};
ghost use Rattle.book.specs.Handed.{seen, Files, frame_of, family_of};

use crate::types::{Fault, Frame, Reading, Record};
use calls::command::Family;
use calls::layout::fields_of;

// The largest book, in bytes.
pub const MAX_LEN: usize = 65_536;

// The length, the kind and the answer come before the fields.
pub const HEADER: usize = 6;

// The word whose low byte is at a place, with 0 for each byte that is not there.
pub fn word_at(bytes: &[u8], at: usize) -> u16
    ensures { result ≡ word bytes.now at }
{
    match bytes.get(at..) {
        Some([low, high, ..]) => u16::from_le_bytes([*low, *high]),
        Some([low]) => *low as u16,
        _ => 0,
    }
}

impl<'a> Record<'a> {
    fn of(family: Family, frame: Frame<'a>) -> Record<'a>
        ensures family { family_of result ≡ family }
        ensures frame { frame_of result ≡ frame.entry }
    {
        match family {
            Family::Directory => Record::Directory(frame),
            Family::Consent => Record::Consent(frame),
            Family::Session => Record::Session(frame),
            Family::Question => Record::Question(frame),
        }
    }
}

// The questions, in their order.
fn ask(book: &[u8], at: usize) -> Reading<'_>
    ensures reads { seen result ≡ reading book.now at }
    ensures filed { Files book.now at result }
{
    if book.len() > MAX_LEN {
        return Err(Fault::TooLarge);
    }
    if at >= book.len() {
        return Ok(None);
    }
    let left = book.len() - at;
    if left < HEADER {
        return Err(Fault::BadLength);
    }
    let size = word_at(book, at) as usize;
    if size < HEADER {
        return Err(Fault::BadLength);
    }
    if left < size {
        return Err(Fault::BadLength);
    }
    let kind = word_at(book, at + 2);
    let family = Family::of(kind).ok_or(Fault::UnknownKind)?;
    if size != HEADER + 2 * fields_of(kind) {
        return Err(Fault::WrongFieldCount);
    }
    let frame = Frame {
        place: at,
        kind,
        fields: &book[at + HEADER..at + size],
    };
    Ok(Some(Record::of(family, frame)))
}

// What stands at a place: any place of any book, also past its end.
pub fn read(book: &[u8], at: usize) -> Reading<'_>
    ensures reads { seen result ≡ reading book.now at }
    ensures framed { Framed book.now at (seen result) }
    ensures filed { Files book.now at result }
{
    ask(book, at)
}
