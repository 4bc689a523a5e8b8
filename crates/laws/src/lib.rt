#![tactic(auto)]

// Definitions and laws that several crates share, with no word of the domain. There is no code here.
