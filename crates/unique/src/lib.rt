// That every promise settles the outcome: any two outcomes that it allows are equal. There is no code here.

#![tactic(auto)]
