// Prints a morning at a pay desk: the permits that two clerks draw, enter and hand back, those that lapse, and the
// account of each owner with its sum.
#![tactic(auto)]

use permit_scenario::scenario::run;
use std::io;

fn main(rt: HostRuntime) -> io::Result<()> {
    let morning = run();
    for line in morning.lines.iter().flatten() {
        println!(rt; "{line}")?;
    }
    for account in &morning.accounts {
        println!(rt; "{account}")?;
    }
    Ok(())
}
