// What every public contract determines: statements in proofs/, and no code.
#![tactic(auto)]
