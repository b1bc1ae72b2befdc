// Building the first best synopsis of a profile, and the least band for a number of terms.
// Terms are handed over in two slices of equal length, their nodes and their values; special slots come so too.
// Document 01 has slices of structs in thin functions around such code.
// Its arrays have the greatest size that can be needed: the panel has no heap.
#![tactic(auto)]

mod tree;

ghost use Rattle.std.specs.Prelude.{◌≡◌, ◌≤◌, length};
ghost use Rattle.bands.specs.Bands.{special_slots};
ghost use Rattle.bands.specs.Inner.{Least};
ghost use Rattle.histogram.specs.Terms.{paired};
ghost use Rattle.histogram.specs.Errors.{greatest_error};
ghost use Rattle.claims.specs.LeastBand.{LeastBand};
ghost use Rattle.refusals.specs.Answers.{refused_with};
ghost use Rattle.build.specs.Building.{values_refusal, scratch_short, bands_refusal, build_refusal, count_of, Built, handed_over, MemoryLeft};
ghost use Rattle.build.specs.LeastBand.{least_band_refusal, LeastBandFound};
ghost use Rattle.build.specs.Inner.{Acceptable, Buildable, Counted, Kept, FirstBuilt};

use bands::{fill, is_right, least, spread};
use histogram::terms::padded_length;
use refusals::Refusal;
use subtree::lift;
use tree::{Tree, height_over};
use verdict::judge;

// What was built: how many terms were handed over, and their greatest error.
#[derive(Clone, Copy, Debug)]
pub struct BuiltSynopsis {
    pub count: usize,
    pub error: u16,
}

// Builds the synopsis with the fewest terms that keeps the bands and, among those, the greatest least margin; of several such, the first.
// `specials` and `own` are the slots and the bands of the special slots.
pub fn build_synopsis(
    setpoints: &[i16],
    rest: i32,
    band: i32,
    specials: &[u16],
    own: &[u16],
    nodes: &mut [u16],
    values: &mut [i16],
    scratch: &mut [i16],
) -> Result<BuiltSynopsis, Refusal>
    requires { (length specials.now ≡ length own.now) × (length nodes.old ≡ length values.old) }
    ensures { Built setpoints.now rest band (special_slots specials.now own.now) (length nodes.old) (length scratch.old) result (handed_over (count_of result) nodes.new values.new)
        × MemoryLeft result nodes.old nodes.new values.old values.new scratch.old scratch.new }
{
    refuse_build(
        setpoints,
        rest,
        band,
        specials,
        own,
        nodes.len(),
        scratch.len(),
    )?;
    let slots = setpoints.len();
    let mut bands = [0u16; 512];
    spread(band as u16, specials, own, &mut bands[..slots]);
    Ok(build_first(
        setpoints,
        &bands[..slots],
        band as u32,
        specials.len(),
        rest,
        nodes,
        values,
        scratch,
    ))
}

// What building is refused for, if for anything.
fn refuse_build(
    setpoints: &[i16],
    rest: i32,
    band: i32,
    specials: &[u16],
    own: &[u16],
    places: usize,
    numbers: usize,
) -> Result<(), Refusal>
    requires { length specials.now ≡ length own.now }
    ensures { refused_with result ≡ build_refusal setpoints.now rest band (special_slots specials.now own.now) places numbers }
{
    refuse_setpoints(setpoints, rest)?;
    refuse_bands(setpoints.len(), band, specials, own)?;
    if places < padded_length(setpoints.len()) || is_scratch_short(numbers) {
        return Err(Refusal::OutputShort);
    }
    Ok(())
}

// What a common band and special slots are refused for, for a number of slots.
fn refuse_bands(slots: usize, band: i32, specials: &[u16], own: &[u16]) -> Result<(), Refusal>
    requires { length specials.now ≡ length own.now }
    ensures { refused_with result ≡ bands_refusal slots band (special_slots specials.now own.now) }
{
    if limits::is_outside_band(band) {
        return Err(Refusal::BandBeyond);
    }
    if !is_right(slots, band as u16, specials, own) {
        return Err(Refusal::SpecialsWrong);
    }
    Ok(())
}

// What setpoints and their rest value are refused for.
fn refuse_setpoints(setpoints: &[i16], rest: i32) -> Result<(), Refusal>
    ensures { refused_with result ≡ values_refusal setpoints.now rest }
{
    if limits::is_outside_slots(setpoints.len()) {
        return Err(Refusal::SlotsBeyond);
    }
    if limits::is_beyond(limits::VALUE_LIMIT, rest) || limits::is_any_beyond(setpoints) {
        return Err(Refusal::ValueBeyond);
    }
    Ok(())
}

// Whether scratch has fewer numbers than every tree is given.
fn is_scratch_short(numbers: usize) -> bool
    ensures { result ≡ scratch_short numbers }
{
    numbers < 12288
}

// Builds where nothing is refused, for the band that each slot goes by: `specials` of them are not the common one.
pub fn build_first(
    setpoints: &[i16],
    bands: &[u16],
    common: u32,
    specials: usize,
    rest: i32,
    nodes: &mut [u16],
    values: &mut [i16],
    scratch: &mut [i16],
) -> BuiltSynopsis
    requires { Buildable setpoints.now rest bands.now nodes.old values.old scratch.old × Counted common specials bands.now }
    ensures { FirstBuilt setpoints.now rest bands.now result nodes.old nodes.new values.old values.new
        × (length scratch.new ≡ length scratch.old) }
{
    let tree = Tree {
        setpoints,
        bands,
        value: lift(rest),
        height: height_over(setpoints.len()),
    };
    let top = least_of(bands, common, specials);
    let built = tree.build_tree(top, nodes, values, scratch);
    let count = built.count;
    let error = error_of(
        setpoints,
        bands,
        common,
        specials,
        built.margin,
        rest as i16,
        &nodes[..count],
        &values[..count],
    );
    BuiltSynopsis { count, error }
}

// The least band: the common one where there are no special slots.
fn least_of(bands: &[u16], common: u32, specials: usize) -> u32
    requires { (1 ≤ length bands.now) × Counted common specials bands.now }
    ensures { Least bands.now (length bands.now) result }
{
    if specials == 0 {
        common
    } else {
        u32::from(least(bands))
    }
}

// The greatest error of a synopsis whose least margin is known: what the margin leaves of the band where there is one for all slots.
fn error_of(
    setpoints: &[i16],
    bands: &[u16],
    common: u32,
    specials: usize,
    margin: u32,
    rest: i16,
    nodes: &[u16],
    values: &[i16],
) -> u16
    requires { Kept setpoints.now rest bands.now margin nodes.now values.now × Counted common specials bands.now }
    ensures { result ≡ greatest_error setpoints.now rest (paired nodes.now values.now) }
{
    if specials == 0 {
        return (common - margin) as u16;
    }
    judge(setpoints, bands, rest, nodes, values).unwrap().error
}

// Finds the least band that some synopsis of at most `budget` terms keeps.
pub fn least_band(
    setpoints: &[i16],
    rest: i32,
    budget: u32,
    scratch: &mut [i16],
) -> Result<u16, Refusal>
    ensures { LeastBandFound setpoints.now rest budget result scratch.old scratch.new }
{
    refuse_least_band(setpoints, rest, budget, scratch.len())?;
    Ok(least_band_of(setpoints, rest, budget, scratch))
}

// What the search for a least band is refused for, if for anything.
fn refuse_least_band(
    setpoints: &[i16],
    rest: i32,
    budget: u32,
    numbers: usize,
) -> Result<(), Refusal>
    ensures { refused_with result ≡ least_band_refusal setpoints.now rest budget numbers }
{
    refuse_setpoints(setpoints, rest)?;
    if 1023 < budget {
        return Err(Refusal::BudgetBeyond);
    }
    if is_scratch_short(numbers) {
        return Err(Refusal::OutputShort);
    }
    Ok(())
}

// Finds it where nothing is refused. Every profile keeps the band 400,00 with no term, and a margin of it is a narrower band.
fn least_band_of(setpoints: &[i16], rest: i32, budget: u32, scratch: &mut [i16]) -> u16
    requires { Acceptable setpoints.now rest scratch.old }
    ensures { LeastBand setpoints.now rest budget result }
{
    let slots = setpoints.len();
    let mut bands = [0u16; 512];
    fill(40000, &mut bands[..slots]);
    let tree = Tree {
        setpoints,
        bands: &bands[..slots],
        value: lift(rest),
        height: height_over(slots),
    };
    let found = tree.greatest_margin_within(budget, 40000, scratch, false);
    (40000 - found.margin) as u16
}
