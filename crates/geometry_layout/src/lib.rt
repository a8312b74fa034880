// Where things lie in a geometry, and the bounds of every answer of the geometry step. No functions: see specs/ and proofs/.
#![tactic(auto)]
