// The statement about any list of calls, its proof, and its tie to the contracts. There is no code.
#![tactic(auto)]
