// Greatest sums over walks of a graph with weighted arcs: definitions, in specs/.
#![tactic(auto)]
