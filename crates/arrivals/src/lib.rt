// What is shown of the order of arrival, document 02, W-206: definitions (specs/) and theorems (proofs/), and no code.
#![tactic(auto)]
