// Prints the factory's table of flows, one entry a line, as the source holds it.
#![tactic(auto)]

use air::factory::FLOWS;
use printing::{print, print_count};
use std::io;
use std::io::Write;

fn main(rt: HostRuntime) -> io::Result<()> {
    let mut out = rt.stdout();
    for flow in FLOWS {
        print_flow(&mut out, flow)?;
    }
    Ok(())
}

fn print_flow(out: &mut impl Write, flow: u16) -> io::Result<()> {
    print_count(out, usize::from(flow))?;
    print(out, b"\n")
}
