// A line for each call: what was asked, what was answered, and which sessions ended by it.
use bits::set::SessionSet;
use directory_laws::turn::Turn;
use std::io;

// No `Display` of a turn: what a loop of `write!`s shows could not be said in its contract.
fn print_ended(rt: HostRuntime, ended: SessionSet) -> io::Result<()> {
    for session in 0..64u16 {
        if ended.contains(session) {
            print!(rt; ", session {session} ends")?;
        }
    }
    println!(rt; "")
}

pub fn print_turn(rt: HostRuntime, turn: Turn) -> io::Result<()> {
    let call = turn.call;
    match turn.answer {
        Ok(ended) => {
            print!(rt; "{call}: ok")?;
            print_ended(rt, ended)
        }
        Err(fault) => {
            let number = fault.number();
            println!(rt; "{call}: no {number}")
        }
    }
}
