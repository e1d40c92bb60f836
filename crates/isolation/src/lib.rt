// Guests leave the owner untouched (document 02, A3): no code. What is supposed and claimed stands in
// specs/Isolation.antt, its proof for the rules' own runs in proofs/; of the code it is proved in
// crates/unit.
#![tactic(auto)]
