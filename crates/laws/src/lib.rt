// Laws of tests and of the order of numbers that serve several crates: no code.

#![tactic(auto)]
