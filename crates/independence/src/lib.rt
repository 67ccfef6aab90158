// Demand 3, independence between ids, stands in specs/ and is proved in proofs/. There is no code.
#![tactic(auto)]
