#![tactic(auto)]

// The demands, statement by statement, and their proofs. There is no code here.
