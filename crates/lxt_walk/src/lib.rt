// Starting a walk and carrying on, over a walk record in two slices of 32-bit numbers: one holds the
// numbers of the pairs, the other their pending offsets. lxt_record has the public calls, over a slice of
// pairs. The theorems about them stand in proofs/: demand 3 (Demand, in the words of specs/Calls), wider
// walks (Wider), and the full list (Full).
#![tactic(auto)]

pub mod carry;
pub mod start;
