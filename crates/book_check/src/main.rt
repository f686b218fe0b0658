// Reads a command book from standard input and prints what it asks, record by record, and where it is damaged.
#![tactic(auto)]

use book_report::report;
use std::io;
use std::io::{Read, Write};

fn main(rt: HostRuntime) -> io::Result<()> {
    let mut book = Vec::new(rt.alloc());
    rt.stdin().read_to_end(&mut book)?;
    let out = report(rt.alloc(), book.as_slice())?;
    rt.stdout().write_all(out.as_slice())
}
