// The calls of the kernel: the commands of the book, and four that are made directly.
use calls::command::Command;
use ledger::place::Use;

// A permit goes by its two numbers, its owner's and its serial, which are fields of the cases: the definitions of the rules and
// of the law name them one by one. An entry and a handing back are two cases, since an entry has a question more.
#[derive(Clone, Copy)]
pub enum Call {
    Command(Command),
    Draw(Use),
    Enter { owner: u16, serial: u16 },
    HandBack { owner: u16, serial: u16 },
    Ledger { owner: u16 },
}
