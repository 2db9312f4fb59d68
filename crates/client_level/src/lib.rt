// Laws of level frames: frames that change the stamps of both worlds, the weight and the published states alone. There is no code here.
#![tactic(auto)]
