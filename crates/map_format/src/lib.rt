// The format of a map file, and the reader of its edits' targets.
#![tactic(auto)]

pub mod format;
pub mod reader;
