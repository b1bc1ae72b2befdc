// The compact hierarchical histogram: the level of a node, valid lists of terms, and the setpoints that a list of terms restores.
// Terms come as two slices of equal length, their nodes and their values.
#![tactic(auto)]

pub mod level;
pub mod restore;
pub mod terms;

// A term of a synopsis: a node number and a value in hundredths.
#[derive(Clone, Copy, Debug, PartialEq, Eq)]
pub struct Term {
    pub node: u16,
    pub value: i16,
}
