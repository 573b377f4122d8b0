// A small frame that meets the hypotheses of demand 3, and its samples after each pass. No code: its data is in specs/, what is computed of
// it in proofs/.
#![tactic(auto)]
