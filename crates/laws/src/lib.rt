// Plain mathematics that the other crates cite: counting, lists and choices. There is no code here, only specs/ and proofs/.
#![tactic(auto)]
