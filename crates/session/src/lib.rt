// The calls of a client: open, update, issue and report. It answers to `Client` and src/client/stage*.rs of crystalorb.
// `in_place` has those that change a session that the caller lends, `calls` those that take it by value and return it. A refused call leaves it as it is.
#![tactic(auto)]

pub mod calls;
pub mod in_place;
