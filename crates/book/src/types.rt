// The types of the command book.

// A record as it lies in its book: the place of its first byte, the number of its kind, and its field bytes,
// which are a part of the book itself.
#[derive(Clone, Copy)]
pub struct Frame<'a> {
    pub place: usize,
    pub kind: u16,
    pub fields: &'a [u8],
}

// A record by the family of its kind, which its case says: what stands in the book is the same of each. An enum and not a
// struct with a family: a rule of the project has each family a case that holds the bytes of the book.
#[derive(Clone, Copy)]
pub enum Record<'a> {
    Directory(Frame<'a>),
    Consent(Frame<'a>),
    Session(Frame<'a>),
    Question(Frame<'a>),
}

// What stands at a place of a book: a record, none where the book ends, or a fault.
pub type Reading<'a> = Result<Option<Record<'a>>, Fault>;

// Why a book cannot be read on, by its number.
#[derive(Clone, Copy, PartialEq, Eq, Debug)]
pub enum Fault {
    // the book has more than 65,536 bytes
    TooLarge = 20,
    // fewer than six bytes remain, or the length is under six or over what remains
    BadLength = 21,
    // the kind is not one of 1 to 30
    UnknownKind = 22,
    // the length is not that of a record of the kind
    WrongFieldCount = 23,
}

// Which part of the kernel refused a command, by its number.
#[derive(Clone, Copy, PartialEq, Eq, Debug)]
pub enum Layer {
    Register = 1,
    Kernel = 2,
}

// Why a command was refused. The number is the format's: which refusals there are is said by the crates above this one.
#[derive(Clone, Copy, PartialEq, Eq, Debug)]
pub struct Refusal {
    pub layer: Layer,
    pub number: u8,
}

// What a record's answer field says: the command was accepted or refused.
pub type Outcome = Result<(), Refusal>;

// How many records of each family a book has.
#[derive(Clone, Copy, Default, PartialEq, Eq, Debug)]
pub struct Tally {
    pub directory: usize,
    pub consent: usize,
    pub session: usize,
    pub question: usize,
}

// Where a book cannot be read on, and why.
#[derive(Clone, Copy, PartialEq, Eq, Debug)]
pub struct Damage {
    pub place: usize,
    pub fault: Fault,
}

// Where the reading of a book stops: at its end, which is its length, or at its damage.
pub type Ending = Result<usize, Damage>;

// What a reading of a whole book comes to.
#[derive(Clone, Copy, PartialEq, Eq, Debug)]
pub struct Survey {
    pub tally: Tally,
    pub ending: Ending,
}
