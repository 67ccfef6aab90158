// The worked examples of document 01 stand in specs/ and are evaluated in proofs/. There is no code.
#![tactic(auto)]
