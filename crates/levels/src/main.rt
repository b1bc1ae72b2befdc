// Asks for the level of every number of 16 bits, and prints a line for each run of numbers with one level: its first, its last and the level.
#![tactic(auto)]

use histogram::level::level;
use printing::{print, print_count, print_count_after};
use std::io;
use std::io::Write;

fn main(rt: HostRuntime) -> io::Result<()> {
    let mut out = rt.stdout();
    let mut first = 0;
    for last in 0..u16::MAX {
        let next = last + 1;
        if level(next) != level(last) {
            print_run(&mut out, first, last)?;
            first = next;
        }
    }
    print_run(&mut out, first, u16::MAX)
}

fn print_run(out: &mut impl Write, first: u16, last: u16) -> io::Result<()> {
    print_count(out, usize::from(first))?;
    print_count_after(out, b" to ", usize::from(last))?;
    print_count_after(out, b": ", usize::from(level(last)))?;
    print(out, b"\n")
}
