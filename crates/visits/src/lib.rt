// What document 02, W-202, says of the visits of the test for ready, and of traces: definitions (specs/) and theorems (proofs/), and no code.
#![tactic(auto)]
