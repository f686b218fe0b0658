// Runs one list of calls over three consent registers and prints what they were answered, side by side: a register of
// bits, a list register of the same limit, and a list register in which an owner may have two consents.
#![tactic(auto)]

use account::entry::{Entry, Step};
use account::makes::{run_bits, run_list};
use records::kinds::Consent;
use records::record::Pair;
use std::io;

fn consent(owner: u16, purpose: u16, data_type: u16) -> Consent {
    Consent {
        owner,
        purpose,
        data_type,
    }
}

fn entry(step: Step) -> Entry {
    Entry { step, answer: None }
}

fn give(owner: u16, purpose: u16, data_type: u16) -> Entry {
    entry(Step::Give(consent(owner, purpose, data_type)))
}

fn withdraw(owner: u16, purpose: u16, data_type: u16) -> Entry {
    entry(Step::Withdraw(consent(owner, purpose, data_type)))
}

fn ask(owner: u16, purpose: u16, data_type: u16) -> Entry {
    entry(Step::Ask(consent(owner, purpose, data_type)))
}

fn strike(purpose: u16, data_type: u16) -> Entry {
    entry(Step::Strike(Pair { purpose, data_type }))
}

fn calls() -> [Entry; 32] {
    [
        give(3, 2, 1),
        give(3, 2, 1),
        give(3, 2, 4),
        give(3, 5, 1),
        give(4, 2, 1),
        give(4, 5, 1),
        give(128, 0, 0),
        give(0, 16, 0),
        give(0, 0, 16),
        withdraw(4, 2, 2),
        withdraw(4, 2, 1),
        withdraw(4, 2, 1),
        withdraw(3, 2, 4),
        give(3, 5, 1),
        give(127, 15, 15),
        give(127, 5, 1),
        strike(5, 1),
        give(4, 5, 1),
        strike(16, 1),
        entry(Step::Erase(127)),
        entry(Step::Erase(128)),
        give(126, 15, 15),
        ask(3, 2, 1),
        ask(3, 2, 4),
        ask(3, 5, 1),
        ask(4, 2, 1),
        ask(4, 5, 1),
        ask(126, 15, 15),
        ask(127, 15, 15),
        ask(127, 5, 1),
        ask(0, 0, 0),
        ask(128, 0, 0),
    ]
}

// One line: the call, and its answer from each register.
fn show(rt: HostRuntime, bits: &Entry, list: &Entry, short: &Entry) -> io::Result<()> {
    if let (Some(a), Some(b), Some(c)) = (bits.answer, list.answer, short.answer) {
        let step = bits.step;
        println!(rt; "{step}: {a} {b} {c}")?;
    }
    Ok(())
}

fn main(rt: HostRuntime) -> io::Result<()> {
    let mut bits = calls();
    let mut list = calls();
    let mut short = calls();
    run_bits(&mut bits);
    let mut many = [consent(0, 0, 0); 32_768];
    let mut few = [consent(0, 0, 0); 256];
    if run_list(&mut many, &mut list).is_err() || run_list(&mut few, &mut short).is_err() {
        return println!(rt; "too few places");
    }
    println!(rt; "registers: bits, list of 32768 places, list of 256 places")?;
    for ((bits, list), short) in bits.iter().zip(&list).zip(&short) {
        show(rt, bits, list, short)?;
    }
    println!(rt; "end")
}
