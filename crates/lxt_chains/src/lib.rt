// The chains of all roots: refusals 15 to 17, and the changes of a file by falling offset. `sweep` accepts
// a file in one pass, and counts the bytes that lie in no change on the way; of the others `groups` and
// `lowest` find the refusal. Laws of the order of changes (Sorted, Step), of check 17 by neighbours (Check17,
// Accepted) and of stray bytes (StrayLaws) stand in proofs/.
#![tactic(auto)]

pub mod chains;
pub mod free;
pub mod groups;
pub mod lowest;
pub mod next;
pub mod roots;
pub mod stray;
pub mod sweep;
pub mod tree;
pub mod whole;
pub mod window;
