// The output lines: one call makes each, and says exactly which bytes it holds. What is fixed in a line, its names too,
// are byte strings put into its buffer and no `Display`: that is a rule here, and `write!` promises its text only where
// it succeeds, while a line cannot fail.
#![tactic(auto)]

ghost use Rattle.std.specs.Prelude.{◌≡◌, ℕ, ◌+◌, ◌≤◌, [], ◌++◌, length, decimal};
ghost use Rattle.lines.specs.Lines.{text, layer_name, record_head, ok_line, no_line, answer_line, end_line, bad_line, command_line, family_name, count_line};

use book::types::{Damage, Layer, Outcome, Refusal};
use calls::command::{Command, Family};

pub mod line;

use line::{Head, Line, MAX_LINE};

impl Line {
    fn empty() -> Line
        ensures { text result ≡ [] }
    {
        Line {
            bytes: [0; MAX_LINE],
            len: 0,
        }
    }

    // What the line says, with its end of line.
    pub fn as_bytes(&self) -> &[u8]
        ensures { result.now ≡ text self.now }
    {
        &self.bytes[0..self.len]
    }

    fn put(&mut self, part: &[u8])
        requires { length (text self.old) + length part.now ≤ 160 }
        ensures { text self.new ≡ text self.old ++ part.now }
    {
        let at = self.len;
        let to = at + part.len();
        self.bytes[at..to].copy_from_slice(part);
        self.len = to;
    }

    fn put_digits(&mut self, n: usize)
        requires { length (text self.old) + length (decimal n) ≤ 160 }
        ensures { text self.new ≡ text self.old ++ decimal n }
    {
        if n < 10 {
            let digit = [b'0' + n as u8];
            self.put(&digit);
            return;
        }
        self.put_digits(n / 10);
        let digit = [b'0' + (n % 10) as u8];
        self.put(&digit);
    }

    // The number in decimal digits, at most 20 of them.
    fn put_number(&mut self, n: usize)
        requires { length (text self.old) + 20 ≤ 160 }
        ensures text { text self.new ≡ text self.old ++ decimal n }
        ensures short { length (text self.new) ≤ length (text self.old) + 20 }
    {
        self.put_digits(n);
    }
}

fn layer_name(layer: Layer) -> &'static [u8]
    ensures value { result.now ≡ layer_name layer }
    ensures short { length result.now ≤ 8 }
{
    match layer {
        Layer::Register => b"register",
        Layer::Kernel => b"kernel",
    }
}

impl Head {
    // "PLACE KIND "
    fn begin(self) -> Line
        ensures value { text result ≡ record_head self.place self.kind }
        ensures short { length (text result) ≤ 42 }
    {
        let mut line = Line::empty();
        line.put_number(self.place);
        line.put(b" ");
        line.put_number(self.kind as usize);
        line.put(b" ");
        line
    }

    // "PLACE KIND ok"
    pub fn ok_line(self) -> Line
        ensures { text result ≡ ok_line self.place self.kind }
    {
        let mut line = self.begin();
        line.put(b"ok");
        line.put(b"\n");
        line
    }

    // "PLACE KIND no register NUMBER" or "PLACE KIND no kernel NUMBER"
    pub fn no_line(self, refusal: Refusal) -> Line
        ensures { text result ≡ no_line self.place self.kind refusal.layer refusal.number }
    {
        let mut line = self.begin();
        line.put(b"no");
        line.put(b" ");
        line.put(layer_name(refusal.layer));
        line.put(b" ");
        line.put_number(refusal.number as usize);
        line.put(b"\n");
        line
    }

    // The line of one answered record.
    pub fn answer_line(self, outcome: Outcome) -> Line
        ensures { text result ≡ answer_line self.place self.kind outcome }
    {
        match outcome {
            Ok(()) => self.ok_line(),
            Err(refusal) => self.no_line(refusal),
        }
    }
}

// "end LENGTH", the last line of a book that was read to its end
pub fn end_line(size: usize) -> Line
    ensures { text result ≡ end_line size }
{
    let mut line = Line::empty();
    line.put(b"end");
    line.put(b" ");
    line.put_number(size);
    line.put(b"\n");
    line
}

// "bad PLACE NUMBER", the last line of a book that is damaged
pub fn bad_line(damage: Damage) -> Line
    ensures { text result ≡ bad_line damage.place damage.fault }
{
    let mut line = Line::empty();
    line.put(b"bad");
    line.put(b" ");
    line.put_number(damage.place);
    line.put(b" ");
    line.put_number(damage.fault.number() as usize);
    line.put(b"\n");
    line
}

// "PLACE KIND NAME" and the fields, as a record is shown that was only read
pub fn command_line(place: usize, command: Command) -> Line
    ensures { text result ≡ command_line place command }
{
    let encoded = command.encode();
    let kind = encoded.kind();
    let mut line = Head { place, kind }.begin();
    line.put(command.name().as_bytes());
    let fields = encoded.fields();
    for word in fields {
        line.put(b" ");
        line.put_number(*word as usize);
    }
    line.put(b"\n");
    line
}

fn family_name(family: Family) -> &'static [u8]
    ensures value { result.now ≡ family_name family }
    ensures short { length result.now ≤ 9 }
{
    match family {
        Family::Directory => b"directory",
        Family::Consent => b"consent",
        Family::Session => b"session",
        Family::Question => b"question",
    }
}

// "FAMILY COUNT", how many records of a family there are
pub fn count_line(family: Family, count: usize) -> Line
    ensures { text result ≡ count_line family count }
{
    let mut line = Line::empty();
    line.put(family_name(family));
    line.put(b" ");
    line.put_number(count);
    line.put(b"\n");
    line
}
