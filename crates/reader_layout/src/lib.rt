// The structures that a run leaves, by the public document's offsets, and the checksums of its root chunk. No functions: see specs/ and
// proofs/.
#![tactic(auto)]
