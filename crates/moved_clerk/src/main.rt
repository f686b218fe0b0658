// A clerk who has an open session is moved out of a role. Each call is printed with its answer and with the sessions
// that ended by it.
#![tactic(auto)]

use directory_laws::run::run;
use directory_laws::turn::Turn;
use std::io;

mod printing;
mod scenario;

fn main(rt: HostRuntime) -> io::Result<()> {
    let mut turns = scenario::turns();
    let directory = run(&mut turns);
    for turn in turns {
        printing::print_turn(rt, turn)?;
    }
    let open = directory.open_sessions();
    println!(rt; "sessions still open: {open}")
}
