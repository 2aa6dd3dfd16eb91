// The format of a recording (02, ticket 10): definitions in specs/ and their laws in proofs/, and no function.
#![tactic(auto)]
