// The rules of the machine: definitions in specs/ and what is proved of them in proofs/. No code stands here.
#![tactic(auto)]
