// DER, read in place: element headers, and the first pass over nested elements. Nothing here allocates, and no public function
// asks anything of its caller.
#![tactic(auto)]

pub mod header;
pub mod walk;
