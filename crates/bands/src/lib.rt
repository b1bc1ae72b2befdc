// The band that each slot of a profile goes by: the common one, or its own where the slot is special.
// Special slots come as two slices of equal length, `specials` with their slots and `own` with their bands; the bands of all slots as one, `bands`.
// Document 01 has slices of structs in thin functions around such code.
#![tactic(auto)]

ghost use Rattle.std.specs.Prelude.{◌≡◌, not, [], ◌≤◌, length};
ghost use Rattle.bands.specs.Bands.{special_slots, right_specials, slot_bands, specials_among, same_bands};
ghost use Rattle.bands.specs.Inner.{right_here, Right, RightForSome, Put, Room, Gathered, Least};

// A special slot: a slot, and the band of its own in hundredths.
#[derive(Clone, Copy, Debug, PartialEq, Eq)]
pub struct SpecialSlot {
    pub slot: u16,
    pub band: u16,
}

// Whether the slots ascend strictly below `slots` and the bands lie within 0 to 40,000, none of them the common one.
pub fn is_right(slots: usize, common: u16, specials: &[u16], own: &[u16]) -> bool
    requires { length specials.now ≡ length own.now }
    ensures { result ≡ right_specials slots common (special_slots specials.now own.now) }
{
    let mut first: usize = 0;
    for (i, special) in specials.iter().enumerate() {
        let slot = usize::from(*special);
        if is_wrong(first, slots, common, slot, own[i]) {
            return false;
        }
        first = slot + 1;
    }
    true
}

// Whether a special slot is wrong: below `first`, not below `slots`, or its band above 40,000 or the common one.
// As one `||` it costs the panel's core more instructions a special slot: each test becomes a number first.
pub fn is_wrong(first: usize, slots: usize, common: u16, slot: usize, band: u16) -> bool
    ensures { result ≡ not (right_here first slots common slot band) }
{
    if slot < first || slots <= slot || limits::is_outside_band(i32::from(band)) {
        return true;
    }
    band == common
}

// Every slot goes by the common band. By hand: firmware/audit refuses std's `fill`, which takes a pointer to the band.
pub fn fill(common: u16, bands: &mut [u16])
    ensures { bands.new ≡ slot_bands (length bands.old) common [] }
{
    for slot in 0..bands.len() {
        bands[slot] = common;
    }
}

// Every special slot goes by its own band, every other by the common one.
pub fn spread(common: u16, specials: &[u16], own: &[u16], bands: &mut [u16])
    requires { Right common specials.now own.now bands.old }
    ensures { bands.new ≡ slot_bands (length bands.old) common (special_slots specials.now own.now) }
{
    fill(common, bands);
    put_own(specials, own, bands);
}

// Puts each special slot's own band in the slot's place.
fn put_own(specials: &[u16], own: &[u16], bands: &mut [u16])
    requires { RightForSome specials.now own.now bands.old }
    ensures { Put (special_slots specials.now own.now) bands.old bands.new }
{
    for (i, slot) in specials.iter().enumerate() {
        bands[usize::from(*slot)] = own[i];
    }
}

// Lays the special slots over the front of `specials` and their bands over that of `own`.
pub fn gather(common: u16, bands: &[u16], specials: &mut [u16], own: &mut [u16])
    requires { Room (specials_among common bands.now) bands.now specials.old own.old }
    ensures { Gathered (specials_among common bands.now) specials.old own.old specials.new own.new }
{
    let mut gathered = 0;
    for (slot, band) in bands.iter().enumerate() {
        if *band != common {
            specials[gathered] = slot as u16;
            own[gathered] = *band;
            gathered += 1;
        }
    }
}

// Whether every slot goes by the same band in both. By hand: the firmware's audit refuses `==` of slices, a part of which is never inlined.
pub fn are_same(bands: &[u16], others: &[u16]) -> bool
    ensures { result ≡ same_bands bands.now others.now }
{
    if bands.len() != others.len() {
        return false;
    }
    for slot in 0..bands.len() {
        if bands[slot] != others[slot] {
            return false;
        }
    }
    true
}

// The least of some bands. By hand: the firmware's audit refuses `iter().min()`, whose items are pointers that functions return.
pub fn least(bands: &[u16]) -> u16
    requires { 1 ≤ length bands.now }
    ensures { Least bands.now (length bands.now) result }
{
    let mut least = bands[0];
    for slot in 1..bands.len() {
        least = least.min(bands[slot]);
    }
    least
}
