#![tactic(auto)]

// A sheet as definitions (specs/) and laws (proofs/); no function runs here.
