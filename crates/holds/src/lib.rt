// What it means that a machine's record holds a parameter string's values: definitions and laws (specs/).
#![tactic(auto)]
