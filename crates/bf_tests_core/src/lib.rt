//! Tests of the core and of what stands between it and graphs: pulls and words, and the events of a run, chosen by hand.
//!
//! A clause needs no test. What stands here is what no clause says: values worked out by hand.
#![tactic(auto)]

#[cfg(test)]
mod deciding;
#[cfg(test)]
mod events;
#[cfg(test)]
mod orders;
#[cfg(test)]
mod pools;
#[cfg(test)]
mod pulls;
#[cfg(test)]
mod steps;
#[cfg(test)]
mod tries;
#[cfg(test)]
mod words_of_a_command;
