// Every rehearsal is a run of the link: definitions (specs/) and theorems alone (proofs/).
#![tactic(auto)]
