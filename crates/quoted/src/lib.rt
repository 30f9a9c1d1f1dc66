// C-22: what a text keeps of the strings and the prefabs of its source. Laws only; the definitions stand in crate
// rules.
#![tactic(auto)]
