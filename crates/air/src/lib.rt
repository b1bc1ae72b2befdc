// Primary air: the flow that each step of differential pressure gives, by the factory's table, and the lowest step whose flow reaches a given one.
#![tactic(auto)]

pub mod factory;

ghost use Rattle.std.specs.Prelude.{◌≡◌};
ghost use Rattle.air.specs.Flows.{FlowGiven, StepFound, lowest_step};
ghost use Rattle.air.specs.Inner.{entry_of, Searchable};

use factory::FLOWS;
use refusals::Refusal;

// The flow of a step in thousandths, by the factory's table.
pub fn flow_of_step(step: u64) -> Result<u16, Refusal>
    ensures { FlowGiven step result }
{
    if 400 < step {
        return Err(Refusal::AirBeyond);
    }
    Ok(FLOWS[step as usize])
}

// The lowest step whose flow reaches a given one. A step's flow reaches it exactly where 2,500 times the step reaches the given flow's square, so the step is computed and no table is laid out.
pub fn step_for_flow(flow: u64) -> Result<u16, Refusal>
    ensures { StepFound flow result }
{
    if 1000 < flow {
        return Err(Refusal::AirBeyond);
    }
    let flow = flow as u32;
    let step = (flow * flow + 2499) / 2500;
    Ok(step as u16)
}

// The lowest step whose flow reaches a given one, by any table: the steps before it are those whose flow does not.
pub fn search_step(flows: &[u16], flow: u32) -> u32
    requires { Searchable flows.now flow }
    ensures { result ≡ lowest_step (entry_of flows.now) flow }
{
    flows.partition_point(|entry| u32::from(*entry) < flow) as u32
}
