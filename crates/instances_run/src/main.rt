// Runs the documents' instances of numbers, texts, restoring and records, others beside them, choices of two offers and special slots, and prints each with its answer.
#![tactic(auto)]

mod numbers;
mod records;
mod restoring;
mod special_slots;
mod texts;
mod winners;

use std::io;

fn main(rt: HostRuntime) -> io::Result<()> {
    let mut out = rt.stdout();
    numbers::run(&mut out)?;
    texts::run(&mut out)?;
    restoring::run(&mut out)?;
    records::run(&mut out)?;
    winners::run(&mut out)?;
    special_slots::run(&mut out)
}
