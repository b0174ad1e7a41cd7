// Document 01's cases marked (P), "entries of a single list carrying one theorem" (specs/ and proofs/); no code.
#![tactic(auto)]
