// Terms and special slots are both pairs of numbers: what copies them out of a slice and into one, takes them apart and puts them together is said once, for any pair.
ghost use Rattle.std.specs.Prelude.{◌≡◌, ◌<◌, ◌≤◌, ℕ, List, length, get_or, set};
ghost use Rattle.limits.specs.Answers.{laid};
ghost use Rattle.bands.specs.Bands.{special_slots};
ghost use Rattle.histogram.specs.Terms.{paired};
ghost use Rattle.synopsis.specs.Pairs.{PairLaws, PairsApart};
ghost use Rattle.synopsis.specs.Sorts.{term_of, node_of, value_of, term_laws, special_of, slot_of, band_of, special_laws};

use bands::SpecialSlot;
use histogram::Term;

// A struct of two numbers, of which the first is unsigned.
pub trait Pair: Copy {
    type Second: Copy;

    ghost make: { ℕ → Self.Second → Self };

    ghost first_of: { Self → ℕ };

    ghost second_of: { Self → Self.Second };

    ghost together: { List ℕ → List Self.Second → List Self };

    ghost laws: { PairLaws make first_of second_of together };

    // The pair's first number.
    fn first(self) -> u16
        ensures { result ≡ first_of self };

    // The pair's second number.
    fn second(self) -> Self::Second
        ensures { result ≡ second_of self };

    // The pair of two numbers.
    fn pair(first: u16, second: Self::Second) -> Self
        ensures { result ≡ make first second };
}

impl Pair for Term {
    type Second = i16;

    ghost make = { term_of };

    ghost first_of = { node_of };

    ghost second_of = { value_of };

    ghost together = { paired };

    ghost laws = { term_laws };

    fn first(self) -> u16 {
        self.node
    }

    fn second(self) -> i16 {
        self.value
    }

    fn pair(node: u16, value: i16) -> Term {
        Term { node, value }
    }
}

impl Pair for SpecialSlot {
    type Second = u16;

    ghost make = { special_of };

    ghost first_of = { slot_of };

    ghost second_of = { band_of };

    ghost together = { special_slots };

    ghost laws = { special_laws };

    fn first(self) -> u16 {
        self.slot
    }

    fn second(self) -> u16 {
        self.band
    }

    fn pair(slot: u16, band: u16) -> SpecialSlot {
        SpecialSlot { slot, band }
    }
}

// One pair, copied out of a slice.
pub fn pair_out<P: Pair>(pairs: &[P], place: usize) -> P
    requires { place < length pairs.now }
    ensures { (none : P) → result ≡ get_or pairs.now place none }
{
    pairs[place]
}

// One pair, copied into a slice.
pub fn pair_in<P: Pair>(pairs: &mut [P], place: usize, pair: P)
    requires { place < length pairs.old }
    ensures { pairs.new ≡ set pairs.old place pair }
{
    pairs[place] = pair;
}

// Takes a list of pairs apart, or as many of its first as there is room for, over the fronts of `firsts` and `seconds`; the answer is how many.
pub fn take_apart<P: Pair>(pairs: &[P], firsts: &mut [u16], seconds: &mut [P::Second]) -> usize
    requires { length firsts.old ≡ length seconds.old }
    ensures { PairsApart P.together pairs.now (length firsts.old) result firsts.new seconds.new }
{
    let count = pairs.len().min(firsts.len());
    for i in 0..count {
        let pair = pair_out(pairs, i);
        firsts[i] = pair.first();
        seconds[i] = pair.second();
    }
    count
}

// Puts pairs together, over the front of a slice.
pub fn put_together<P: Pair>(firsts: &[u16], seconds: &[P::Second], pairs: &mut [P])
    requires { (length firsts.now ≡ length seconds.now) × (length firsts.now ≤ length pairs.old) }
    ensures { pairs.new ≡ laid (P.together firsts.now seconds.now) pairs.old }
{
    for i in 0..firsts.len() {
        pair_in(pairs, i, P::pair(firsts[i], seconds[i]));
    }
}
