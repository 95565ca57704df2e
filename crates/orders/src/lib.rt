// Document 02, E8: which settings may be sent in either order. No code: theorems about the definitions of `printer`.
#![tactic(auto)]
