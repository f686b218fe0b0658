// What a record that was handed out says.
ghost use Rattle.std.specs.Prelude.{◌≡◌, ℕ, ◌+◌, ◌*◌, ◌≤◌, cond, T, [], length, take, is_some, IfSome, Some};
ghost use Rattle.calls.specs.declared.command.Command.{Command as AnyCommand};
ghost use Rattle.book.specs.Format.{word_bytes};
ghost use Rattle.book.specs.Handed.{frame_of, place_of, kind_of, bytes_of, size_of};
ghost use Rattle.book.specs.Commanded.{Asks, is_whole, FewFields};

use crate::reader::{HEADER, word_at};
use crate::types::{Frame, Record};
use calls::command::Command;
use calls::layout::{MAX_FIELDS, field_count, fields_of};
use std::array;

// The words that these bytes begin with, with 0 for each byte that is not there.
fn words_of(bytes: &[u8]) -> [u16; MAX_FIELDS]
    ensures { (n : ℕ) → n ≤ 4 → length bytes.now ≡ 2 * n → word_bytes (take n result) ≡ bytes.now }
{
    array::from_fn(|i| word_at(bytes, 2 * i))
}

impl<'a> Record<'a> {
    fn frame(&self) -> Frame<'a>
        ensures { result ≡ frame_of self.now }
    {
        match *self {
            Record::Directory(frame) => frame,
            Record::Consent(frame) => frame,
            Record::Session(frame) => frame,
            Record::Question(frame) => frame,
        }
    }

    pub fn place(&self) -> usize
        ensures { result ≡ place_of self.now }
    {
        self.frame().place
    }

    pub fn kind(&self) -> u16
        ensures { result ≡ kind_of self.now }
    {
        self.frame().kind
    }

    // The field bytes, a part of the book itself.
    pub fn fields(&self) -> &'a [u8]
        ensures { result.now ≡ bytes_of self.now }
    {
        self.frame().fields
    }

    // How many bytes the whole record takes.
    pub fn size(&self) -> usize
        ensures { result ≡ size_of self.now }
    {
        HEADER + 2 * fields_of(self.kind())
    }

    fn is_whole(&self) -> bool
        ensures value { result ≡ is_whole self.now }
        ensures few { T result → FewFields self.now }
    {
        let fields = self.fields();
        field_count(self.kind()).is_some_and(|count| fields.len() == 2 * count)
    }

    // The command that the record asks for. Every record that was read has one; none where a caller put together a
    // kind and field bytes that no command has.
    pub fn command(&self) -> Option<Command>
        ensures found { IfSome result (Asks self.now) }
        ensures only { (c : AnyCommand) → Asks self.now c → result ≡ Some c }
        ensures test { is_some result ≡ is_whole self.now }
    {
        if !self.is_whole() {
            return None;
        }
        let fields = self.fields();
        let words = words_of(fields);
        Command::from_fields(self.kind(), &words[..fields.len() / 2])
    }
}
