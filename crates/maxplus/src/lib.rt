// Max-plus algebra as definitions (specs/) and laws (proofs/); no function runs here.
