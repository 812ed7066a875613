#![tactic(auto)]

// What follows from the promises of the calls alone, from end to end. There is no code here: specs/ has the statements, and proofs/ the proofs.
