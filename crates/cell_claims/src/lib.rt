// What is known of an index that the build wrote stands in specs/ and is proved in proofs/. There is no code.
#![tactic(auto)]
