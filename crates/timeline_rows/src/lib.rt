// That a window's answer, as bytes, is a good row, and reads back as the window's timeline. It is in specs/ and proofs/.

#![tactic(auto)]
