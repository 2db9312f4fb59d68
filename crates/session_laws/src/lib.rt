// Laws about the definitions of client, fixed_timestepper and session, for `demand`: Sound* say that sound sessions stay sound, Trace* what frames and skips do
// to stamps and steps, Ledger* that the ledgers balance. They stand apart from the code, so that a change of one is not checked with the other. There is no
// code.
#![tactic(auto)]
