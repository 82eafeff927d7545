#![tactic(auto)]

// What a plan is and which one is meant. Theory only: specs/ has the definitions, proofs/ the laws.
