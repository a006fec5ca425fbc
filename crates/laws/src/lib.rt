// Mathematics that the kit lacks: definitions in specs/, their laws in proofs/. No byte of any format.

#![tactic(auto)]
