// Laws of IEEE 754 binary64 arithmetic that the invariants of the client need: bounds that hold with every rounding
// included. There is no code here; other crates cite the laws in their proofs.
#![tactic(auto)]
