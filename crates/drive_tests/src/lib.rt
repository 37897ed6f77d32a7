// Exchanges with a drive, word by word; each is proved and then run.
#![tactic(auto)]

#[cfg(test)]
mod answers;
#[cfg(test)]
mod commands;
#[cfg(test)]
mod elements;
#[cfg(test)]
mod makings;
pub mod mdt_record;
#[cfg(test)]
mod play;
#[cfg(test)]
mod reports;
#[cfg(test)]
mod sample;
