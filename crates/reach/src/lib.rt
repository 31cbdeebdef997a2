// What the reach of a read means. No code: the laws are in proofs.
#![tactic(auto)]
