// Runs of the bench: the events that it hands on from record to record, from its fresh record on. No code stands here.
#![tactic(auto)]
