// The link theorem for a dump: what it says (specs/) and theorems alone (proofs/).
#![tactic(auto)]
