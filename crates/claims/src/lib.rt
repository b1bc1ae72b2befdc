// What building and the least band promise, as definitions: see specs/. No code.
#![tactic(auto)]
