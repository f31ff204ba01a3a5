// What document 01 says of one panel and of a farm: definitions (specs/) and theorems (proofs/). The code that keeps to them stands in the
// crates above.
#![tactic(auto)]
