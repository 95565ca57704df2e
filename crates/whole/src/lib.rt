// Whole commands, read where nothing is waited for. No code: laws about the definitions of `printer`.
#![tactic(auto)]
