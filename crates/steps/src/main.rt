// Searches two tables for the lowest step of every flow, and prints a line for each run of flows with one step: its first, its last and the step.
// One is the factory's table. The other has one flow for a hundred steps at a time.
#![tactic(auto)]

ghost use Rattle.std.specs.Prelude.{◌≡◌, length};
ghost use Rattle.air.specs.Inner.{LentTable, Searchable};
ghost use Rattle.steps.specs.Hundreds.{Hundreds};

use air::factory::FLOWS;
use air::search_step;
use printing::{print, print_count, print_count_after};
use std::io;
use std::io::Write;

fn main(rt: HostRuntime) -> io::Result<()> {
    let mut out = rt.stdout();
    let factory = FLOWS;
    print_runs(&mut out, &factory)?;
    let mut hundreds = [0u16; 401];
    lay_hundreds(&mut hundreds);
    print_runs(&mut out, &hundreds)
}

// A flow of 250 more at each hundredth step.
fn lay_hundreds(flows: &mut [u16])
    requires { length flows.old ≡ 401 }
    ensures { Hundreds flows.new }
{
    for (step, flow) in flows.iter_mut().enumerate() {
        *flow = (step / 100 * 250) as u16;
    }
}

// Prints the runs of flows that have one lowest step, from the flow 0 to 1,000.
fn print_runs(out: &mut impl Write, flows: &[u16]) -> io::Result<()>
    requires { LentTable flows.now }
{
    let mut first = 0;
    for last in 0..1000 {
        let next = last + 1;
        if search_step(flows, next) != search_step(flows, last) {
            print_run(out, flows, first, last)?;
            first = next;
        }
    }
    print_run(out, flows, first, 1000)
}

fn print_run(out: &mut impl Write, flows: &[u16], first: u32, last: u32) -> io::Result<()>
    requires { Searchable flows.now last }
{
    print_count(out, first as usize)?;
    print_count_after(out, b" to ", last as usize)?;
    print_count_after(out, b": ", search_step(flows, last) as usize)?;
    print(out, b"\n")
}
