// The service channel over any store: steps, transfers, commands and checks.
#![tactic(auto)]

mod active;
pub mod changes;
pub mod checks;
mod commands;
pub mod kept;
pub mod link;
pub mod service;
mod steps;
mod writes;
