// Document 01's starred instances, proved of the definitions: see specs/Instances.antt and proofs/Hold.antt. No code.
#![tactic(auto)]
