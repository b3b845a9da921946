// Earliest times, pass number and chain of a plan with its marker's book: definitions, in specs/.
#![tactic(auto)]
