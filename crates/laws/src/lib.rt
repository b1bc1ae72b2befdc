// Laws of what building promises, for those who plan with it: see specs/ and proofs/. No code.
#![tactic(auto)]
