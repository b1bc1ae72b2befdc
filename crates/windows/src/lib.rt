// Sets of values in scratch, as sorted windows: whether a value is in a set, and what is in both or in either of two sets.
// A stretch of scratch holds two numbers and then its windows; each window is its low end and its high end.
// Places, counts and values have 32 bits, since the panel's core takes two instructions or more for each sum and comparison in 64.
#![tactic(auto)]

ghost use Rattle.std.specs.Prelude.{◌≡◌, ◌++◌, ◌+◌, ◌*◌, ◌≤◌, ◌<◌, ltb, length, set};
ghost use Rattle.windows.specs.Windows.{covers, between, meet};
ghost use Rattle.windows.specs.Scratch.{signed, at, windows_at, Listed, Placed, Joinable, Room, Copyable, Written, Joined};

// The number at a place of scratch, 0 to 65,535.
pub fn load(scratch: &[i16], place: u32) -> u32
    requires { place < length scratch.now }
    ensures { (result ≡ at scratch.now place) × (result ≤ 65535) }
{
    (i32::from(scratch[place as usize]) + 32768) as u32
}

// Puts a number at a place of scratch.
pub fn store(scratch: &mut [i16], place: u32, number: u32)
    requires { (place < length scratch.old) × (number ≤ 65535) }
    ensures { scratch.new ≡ set scratch.old place (signed number) }
{
    scratch[place as usize] = (number as i32 - 32768) as i16;
}

// Whether a value is in one of `count` sorted windows from a place on.
// Places have 32 bits, so they are counted here by hand: a part of the slice would begin and end at a `usize`, which has 64 on the panel's core.
pub fn is_covered(scratch: &[i16], mut place: u32, count: u32, value: u32) -> bool
    requires { Listed scratch.now place count }
    ensures { result ≡ covers (windows_at (at scratch.now) place count) value }
{
    for _ in 0..count {
        if value <= load(scratch, place + 1) {
            return load(scratch, place) <= value;
        }
        place += 2;
    }
    false
}

// What is left of two sets: where the next window of each is, and how many there are.
#[derive(Clone, Copy)]
pub struct Rest {
    pub left: u32,
    pub lefts: u32,
    pub right: u32,
    pub rights: u32,
}

// Writes what is in both of two sets from place 2 on; the answer is the number of its windows.
// Each turn goes on in one of the two sets, the one whose window ends first: no `for` goes over both.
pub fn write_meet(scratch: &mut [i16], mut rest: Rest) -> u32
    requires { Placed (length scratch.old) rest.left rest.lefts rest.right rest.rights }
    ensures { Written (meet (windows_at (at scratch.old) rest.left rest.lefts) (windows_at (at scratch.old) rest.right rest.rights)) (2 + 2 * (rest.lefts + rest.rights)) scratch.old scratch.new result }
{
    let mut count = 0;
    while 0 < rest.lefts && 0 < rest.rights {
        let low = load(scratch, rest.left).max(load(scratch, rest.right));
        let left_high = load(scratch, rest.left + 1);
        let right_high = load(scratch, rest.right + 1);
        if left_high < right_high {
            count = write_between(scratch, count, low, left_high);
            rest.left += 2;
            rest.lefts -= 1;
        } else {
            count = write_between(scratch, count, low, right_high);
            rest.right += 2;
            rest.rights -= 1;
        }
    }
    count
}

// Writes the window between two ends after `count` windows, unless the ends cross; the answer is how many windows there are then.
fn write_between(scratch: &mut [i16], count: u32, low: u32, high: u32) -> u32
    requires { Room (length scratch.old) count × (low ≤ 65535) × (high ≤ 65535) }
    ensures { Written (windows_at (at scratch.old) 2 count ++ between low high) (2 + 2 * count + 2) scratch.old scratch.new result }
{
    if high < low {
        return count;
    }
    store(scratch, 2 + 2 * count, low);
    store(scratch, 2 + 2 * count + 1, high);
    count + 1
}

// Writes what is in either of two sets from place 2 on, up to the first two windows that meet; the answer is what is left there.
// Nothing is left where no two windows meet.
// The end of the right set is met within the loop: with one test for both ends and another one behind it a build takes up to 10 in a hundred more.
pub fn write_join(scratch: &mut [i16], mut rest: Rest) -> Rest
    requires { Joinable scratch.old rest.left rest.lefts rest.right rest.rights }
    ensures { Joined rest.left rest.lefts rest.right rest.rights scratch.old scratch.new result.left result.lefts result.right result.rights }
{
    let mut count = 0;
    while 0 < rest.lefts {
        if rest.rights == 0 {
            copy_windows(scratch, rest.left, rest.lefts, count);
            return nothing_left(rest);
        }
        if ends_before(scratch, rest.left, rest.right) {
            copy_window(scratch, rest.left, count);
            rest.left += 2;
            rest.lefts -= 1;
        } else if ends_before(scratch, rest.right, rest.left) {
            copy_window(scratch, rest.right, count);
            rest.right += 2;
            rest.rights -= 1;
        } else {
            return rest;
        }
        count += 1;
    }
    copy_windows(scratch, rest.right, rest.rights, count);
    nothing_left(rest)
}

// Both sets at their end.
fn nothing_left(rest: Rest) -> Rest
    ensures { (result.left ≡ rest.left) × (result.lefts ≡ 0) × (result.right ≡ rest.right) × (result.rights ≡ 0) }
{
    Rest {
        lefts: 0,
        rights: 0,
        ..rest
    }
}

// Whether the window at one place ends before the window at another begins.
fn ends_before(scratch: &[i16], first: u32, second: u32) -> bool
    requires { (first + 1 < length scratch.now) × (second < length scratch.now) × (first < 65536) }
    ensures { result ≡ ltb (at scratch.now (first + 1)) (at scratch.now second) }
{
    scratch[(first + 1) as usize] < scratch[second as usize]
}

// Copies the windows from a place on behind `count` windows.
// The windows are counted down by hand: with a `for` over them a build takes up to 0.6 in a hundred more, and `copy_within` counts in 64 bits.
fn copy_windows(scratch: &mut [i16], mut place: u32, mut windows: u32, mut count: u32)
    requires { Copyable (length scratch.old) place windows count }
    ensures { Written (windows_at (at scratch.old) 2 count ++ windows_at (at scratch.old) place windows) (2 + 2 * (count + windows)) scratch.old scratch.new (count + windows) }
{
    while 0 < windows {
        copy_window(scratch, place, count);
        place += 2;
        windows -= 1;
        count += 1;
    }
}

// Copies the window at a place behind `count` windows.
fn copy_window(scratch: &mut [i16], place: u32, count: u32)
    requires { Copyable (length scratch.old) place 1 count }
    ensures { Written (windows_at (at scratch.old) 2 count ++ windows_at (at scratch.old) place 1) (2 + 2 * count + 2) scratch.old scratch.new (count + 1) }
{
    let low = load(scratch, place);
    let high = load(scratch, place + 1);
    store(scratch, 2 + 2 * count, low);
    store(scratch, 2 + 2 * count + 1, high);
}
