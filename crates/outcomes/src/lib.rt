// What holds of the definitions that the promises of the public calls cite, and which outcome an answer tells. No function: the statements are in specs/,
// and crates/barleyhood/proofs carries them over to the calls' own contracts.
#![tactic(auto)]
