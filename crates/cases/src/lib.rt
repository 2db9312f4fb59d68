// The cases that document 01 marks P, as one table about the definitions: specs/Table states it, proofs/Table proves it as a whole. There is no code.
#![tactic(auto)]
