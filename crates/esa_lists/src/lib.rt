//! Definitions and laws on lists and finite maps that several crates share. It has no code: what it
//! gives is in specs/ (what contracts cite) and proofs/ (their laws).
#![tactic(auto)]
