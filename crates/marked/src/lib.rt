// The fourteen marked cases of 01. They are about the definitions alone: specs/Marked.antt states them, proofs/Proved.antt proves them.
#![tactic(auto)]
