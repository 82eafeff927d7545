#![tactic(auto)]

// What the plan call and the sheet call write, the gate accepts. Theory only: specs/ has the statement, proofs/ proves it.
