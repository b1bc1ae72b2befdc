// Numbers as text, in hundredths: `14,50` is 1450.
#![tactic(auto)]

pub mod read;
pub mod write;
