// The laws that auditors ask for. They are about the definitions of crates/rc4, crates/mppe_keys and crates/mppe, which the calls there are proved
// to follow: specs/ states them, proofs/ proves them.
#![tactic(auto)]
