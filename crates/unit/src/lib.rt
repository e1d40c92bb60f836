// The third demand of the code, and that guests leave the owner untouched: no code of its own. What is
// claimed of calls of make, deliver, step, vote and count_halts stands in specs/Unit.antt and
// specs/Isolation.antt, the proofs in proofs/Unit.antt and proofs/Isolation.antt. All that they know of
// those functions is what their contracts say.
#![tactic(auto)]
