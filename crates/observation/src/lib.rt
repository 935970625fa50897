// What the answers of `EventHistory` mean on every history that calls reached: definitions in specs/, proofs in proofs/. There is no code here.
#![tactic(auto)]
