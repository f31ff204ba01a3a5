// What is shown of setting a clock back, document 02, W-207, beside demand 3: definitions (specs/) and theorems (proofs/), and no code.
#![tactic(auto)]
