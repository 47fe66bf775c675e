// The method over a cue's tables as definitions (specs/) and theorems (proofs/); no function runs here.
