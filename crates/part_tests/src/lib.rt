//! Tests of public calls on the parts of a play: lists of bits, texts and the steps that they become, and descriptions.
//!
//! They stand in a crate of their own, since a crate with tests is proved twice.
#![tactic(auto)]

#[cfg(test)]
mod bits;
#[cfg(test)]
mod descriptions;
#[cfg(test)]
mod faults;
#[cfg(test)]
mod runs;
#[cfg(test)]
mod texts;
