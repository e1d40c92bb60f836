// What a journal prints: no code. specs/Journal.antt says it of a whole journal, record by record, and
// specs/Blocks.antt of one that is played in blocks; proofs/Cuts.antt shows that both are the same,
// however its input is cut. The code is crates/playback.
#![tactic(auto)]
