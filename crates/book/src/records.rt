// The records of a book, one after another, from its first byte to where its reading stops.
ghost use Rattle.std.specs.Prelude.{◌≡◌, ◌-◌, length};
ghost use Rattle.std.specs.Iterator.{at_most};
ghost use Rattle.book.specs.Walking.{Steps, Stopped};

use crate::reader::read;
use crate::types::{Damage, Ending, Record};

#[derive(Drop)]
pub struct Records<'a> {
    pub(crate) book: &'a [u8],
    // the place of the next record, which the length of the last one tells
    pub(crate) at: usize,
}

impl<'a> Records<'a> {
    pub fn new(book: &'a [u8]) -> Records<'a>
        ensures book { result.book.now ≡ book.now }
        ensures start { result.at ≡ 0 }
    {
        Records { book, at: 0 }
    }

    // Where the reading of the book stops, once no record is left: at its end or its damage.
    pub fn ending(&self) -> Ending
        ensures { Stopped self.now result }
    {
        match read(self.book, self.at) {
            Ok(_) => Ok(self.at),
            Err(fault) => Err(Damage {
                place: self.at,
                fault,
            }),
        }
    }
}

impl<'a> Iterator for Records<'a> {
    type Item = Record<'a>;

    ghost next_gives = { Steps };

    ghost remaining = { λ s. at_most (length s.book.now - s.at) };

    fn next(&mut self) -> Option<Record<'a>> {
        let Ok(Some(record)) = read(self.book, self.at) else {
            return None;
        };
        self.at += record.size();
        Some(record)
    }
}
