// What holds of import and export together stands in specs/ and is proved in proofs/. There is no code.
#![tactic(auto)]
