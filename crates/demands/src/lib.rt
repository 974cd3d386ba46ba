#![tactic(auto)]

// The demands: theorems alone, no code.
