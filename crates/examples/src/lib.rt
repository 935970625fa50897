// The starred examples of document 01: one table in specs/, one statement in proofs/. There is no code here.
#![tactic(auto)]
