// Which words are in the log, as a row of 64-bit numbers: `specs/` has what a mark is and the laws on it. There is no code here.

#![tactic(auto)]
