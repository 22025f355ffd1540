// Linking two points of a store.
#![tactic(auto)]

pub mod connect;
