// Runs of the code: chains of the machine's steps over events, from its own fresh tables. No code stands here.
#![tactic(auto)]
