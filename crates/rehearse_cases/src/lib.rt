// The rehearsal's worked input, computed from the definitions: definitions and theorems alone.
#![tactic(auto)]
