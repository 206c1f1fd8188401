// The shape of every call of an end: definitions and laws (specs/).
#![tactic(auto)]
