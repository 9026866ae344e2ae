// The round trip of the writer: what is written is accepted and read back as the same. There is no code here; the claim is in
// lxt_written/specs/RoundTrip, and proofs/RoundTripped is its proof.
#![tactic(auto)]
