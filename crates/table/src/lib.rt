// Stores over memory that the caller lends: tables that change, catalogues that do not.
#![tactic(auto)]

pub mod catalogue;
pub mod table;
