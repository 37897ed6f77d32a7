// The drive over any store: making, phases, telegrams, misses and reports.
#![tactic(auto)]

mod answer;
pub mod drive;
mod entry;
mod make;
mod phases;
mod report;
mod telegrams;
