// Runs of the machine by its rules: what holds after every one of them. No code stands here.
#![tactic(auto)]
