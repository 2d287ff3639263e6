// The rules that proofs share which walk a function's code statement by statement: `proofs/` has them. There is no code here.

#![tactic(auto)]
