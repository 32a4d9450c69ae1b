//! A made-up roll-out of a seed as requests: policies that come, go and change while 8 workers ask.
#![tactic(auto)]

mod asked;
mod declared;
mod generator;
mod requests;

pub use requests::make_requests;
