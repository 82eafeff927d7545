#![tactic(auto)]

// The read call and the write call undo each other. Theory only: specs/ has the two statements, proofs/ proves them.
