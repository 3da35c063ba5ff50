//! What the stores over files and the sinks over a writer and over files do, and how much one pull asks for: tests
//! alone, in a crate of their own, since a crate with tests is proved twice.
#![tactic(auto)]

#[cfg(test)]
mod tests;
