// Opening a connection of a store.
#![tactic(auto)]

pub mod remove;
