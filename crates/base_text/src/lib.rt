//! The edge of a program, and what passes over it: stores of files and sinks of text with counted
//! faults, and texts made of lines.
//!
//! - `store`: pulls and pushes, over files, over memory, over the streams of the system.
//! - `pieces`: texts of pieces, one after another.
//! - `lines`: lines one after another, numbers and times in them, and what it means that lines stand
//!   where they are expected.
#![tactic(auto)]

pub mod lines;
pub mod pieces;
pub mod store;
