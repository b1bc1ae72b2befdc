// The level of a node, from the zeros above the highest set bit of its number in 16 bits.
ghost use Rattle.std.specs.Prelude.{◌≡◌};
ghost use Rattle.histogram.specs.Tree.{level_answer};

// The level of a node: 0 for the number 0, which has no set bit, and for numbers above 1,023.
#[tactic(auto, using(crate::proofs::Powers::level_by_zeros), unfolding(crate::specs::Tree::level_of))]
pub fn level(node: u16) -> u8
    ensures { result ≡ level_answer node }
{
    match node {
        1..=1023 => (15 - node.leading_zeros()) as u8,
        _ => 0,
    }
}
