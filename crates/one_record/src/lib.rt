// The customer's third demand, "One record, one encoding", of what the reader answers (specs/ and proofs/); no code.
#![tactic(auto)]
