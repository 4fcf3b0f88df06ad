// The index beside a token list: where a token starts in it, walks along it, an index checked and built, places found by it, and a list with its
// index as one type.

#![tactic(auto)]

pub mod building;
pub mod checking;
pub mod finding;
pub mod hashing;
pub mod listed;
pub mod walking;
