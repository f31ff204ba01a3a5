// What is shown of shorter barriers, document 02, W-204, beside demand 3: definitions (specs/) and theorems (proofs/), and no code.
#![tactic(auto)]
