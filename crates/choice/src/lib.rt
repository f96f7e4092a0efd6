// Laws on tests and choices, which the proofs of every other crate cite. It has no code.
#![tactic(auto)]
