// That over a plain window the timeline, its totals and the point answers agree at every instant. It is in specs/ and proofs/.

#![tactic(auto)]
