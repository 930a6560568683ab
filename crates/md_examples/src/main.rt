//! The worked examples and the tables of calls, read from files and compared.
//!
//! The program runs in the folder `data`: the examples below `examples` are run over the top call in memory, and the rows of
//! `tables` over the public calls of the crates below it. `docs/TESTING.md` says how such a file is written.
#![tactic(auto)]

mod examples;

use std::io;
use std::process::ExitCode;

fn main(rt: HostRuntime) -> io::Result<ExitCode> {
    let tables_agree = md_tables::run(&rt)?;
    let tally = examples::run(&rt, "examples")?;
    println!(rt; "{tally}")?;
    Ok(if tables_agree && tally.all_passed() {
        ExitCode::SUCCESS
    } else {
        ExitCode::FAILURE
    })
}
