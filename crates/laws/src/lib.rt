// Laws that several proofs cite: see specs/. No code.
#![tactic(auto)]
