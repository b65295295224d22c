//! Tests of prefixes, routes and policies, on examples worked out by hand.
#![tactic(auto)]

#[cfg(test)]
mod actions;
#[cfg(test)]
mod conditions;
#[cfg(test)]
mod examples;
#[cfg(test)]
mod policies;
#[cfg(test)]
mod prefixes;
#[cfg(test)]
mod routes;
