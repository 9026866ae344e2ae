// The lines of a printed trace, and all of them put into lent buffers.
#![tactic(auto)]

pub mod changes;
pub mod lines;
pub mod printing;
pub mod text;
