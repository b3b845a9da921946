// Laws of integers, lists and tests that the kit's libraries lack, in proofs/.
#![tactic(auto)]
