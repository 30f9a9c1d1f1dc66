// Is this source formatted already (C-19): definitions and laws.
#![tactic(auto)]
