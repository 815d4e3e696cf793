//! Tests of public calls: boards, ends of bytes, and plays: by bytes and answers, over pipes and links, and at once.
//!
//! They stand in a crate of their own, since a crate with tests is proved twice.
#![tactic(auto)]

#[cfg(test)]
mod boards;
#[cfg(test)]
mod ends;
#[cfg(test)]
mod links;
#[cfg(test)]
mod pipes;
#[cfg(test)]
mod players;
#[cfg(test)]
mod runs;
