// Document 01 as definitions (specs/) and the theorems about them (proofs/). There is no code here.
#![tactic(auto)]
