// No code: that the panel's calls keep the three demands. What is claimed stands in specs/, and
// `demands` in proofs/Demands.antt holds it all.
#![tactic(auto)]
