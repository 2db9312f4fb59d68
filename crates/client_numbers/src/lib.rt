// Laws of frames and skips: what each does to the numbers of a scene follows from these alone, whatever its buffers hold. There is no code here.
#![tactic(auto)]
