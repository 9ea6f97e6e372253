// What is claimed of lists of calls at both ends of a link. The claims are about the definitions of crates/mppe alone, which its calls are proved
// to follow: specs/ states them, proofs/ proves them.
#![tactic(auto)]
