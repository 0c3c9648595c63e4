// A theory of point answers and timelines over any venue: spans, the point, the walk, joining, totals. It is in specs/ and proofs/.
#![tactic(auto)]
