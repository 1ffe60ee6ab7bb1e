//! A register of links. References are resolved against their bases, and those with equivalent
//! targets are one link.
#![tactic(auto)]

pub mod links;
mod search_tree;
