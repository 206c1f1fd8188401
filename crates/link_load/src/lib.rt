// The link theorem for a load: what it says (specs/) and theorems alone (proofs/).
#![tactic(auto)]
