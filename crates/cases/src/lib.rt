// The set cases K1 to K12 of PROTOCOL 9, 'Set cases', and its worked examples, as theorems (specs/).
#![tactic(auto)]
