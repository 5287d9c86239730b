//! Tests of hands: one that plays by itself on a hub, and those that a search has beside its conductor.
#![tactic(auto)]

#[cfg(test)]
mod alone;
#[cfg(test)]
mod beside;
#[cfg(test)]
mod meeting;
#[cfg(test)]
mod opening;
#[cfg(test)]
mod plans;
