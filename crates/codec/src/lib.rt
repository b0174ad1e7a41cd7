// DER's definitions and the laws of reading and writing it (specs/ and proofs/); no code. The crate der has the functions.
#![tactic(auto)]
