// The plans of document 01 with known times, as rows (specs/), shown by one proof to follow from the definitions (proofs/).
#![tactic(auto)]
