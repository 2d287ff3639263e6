// Document 01's worked histories P1 to P14, as one table. There is no code here.

#![tactic(auto)]
