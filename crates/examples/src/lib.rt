// The worked examples of the paper, M1 to M11, as one theorem: statement in specs/, proof in proofs/. No code.
#![tactic(auto)]
