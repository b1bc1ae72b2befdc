// What C calls: each function of `panel`, under its name and with its promise.
#![tactic(auto)]

ghost use Rattle.std.specs.Prelude.{◌≡◌};
ghost use Rattle.panel.specs.Results.{slot_result, against_text_result, TextToRecord, LeastBandOfText, better_offer_result, flow_result, step_result};

#[unsafe(no_mangle)]
pub extern "C" fn panel_text_to_record(text: &[u8], destination: &mut [u8]) -> u64
    ensures { TextToRecord text.now destination.old destination.new result }
{
    panel::panel_text_to_record(text, destination)
}

#[unsafe(no_mangle)]
pub extern "C" fn panel_record_slot(bytes: &[u8], slot: u64) -> u64
    ensures { result ≡ slot_result bytes.now slot }
{
    panel::panel_record_slot(bytes, slot)
}

#[unsafe(no_mangle)]
pub extern "C" fn panel_record_against_text(bytes: &[u8], text: &[u8]) -> u64
    ensures { result ≡ against_text_result bytes.now text.now }
{
    panel::panel_record_against_text(bytes, text)
}

#[unsafe(no_mangle)]
pub extern "C" fn panel_least_band_of_text(text: &[u8], budget: u64) -> u64
    ensures { LeastBandOfText text.now budget result }
{
    panel::panel_least_band_of_text(text, budget)
}

#[unsafe(no_mangle)]
pub extern "C" fn panel_better_offer(text: &[u8], first: &[u8], second: &[u8]) -> u64
    ensures { result ≡ better_offer_result text.now first.now second.now }
{
    panel::panel_better_offer(text, first, second)
}

#[unsafe(no_mangle)]
pub extern "C" fn panel_flow_of_step(step: u64) -> u64
    ensures { result ≡ flow_result step }
{
    panel::panel_flow_of_step(step)
}

#[unsafe(no_mangle)]
pub extern "C" fn panel_step_for_flow(flow: u64) -> u64
    ensures { result ≡ step_result flow }
{
    panel::panel_step_for_flow(flow)
}
