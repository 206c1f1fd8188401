// The link: its model (specs/) and theorems alone (proofs/), over the very definitions that the calls of both ends promise.
#![tactic(auto)]
