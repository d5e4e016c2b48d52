//! Tests with real threads: callers and crews at one desk, displays beside them, clients that reconnect.
//!
//! A test asserts once, what a helper tells. What owns a warehouse is dropped by name: a drop at the end of a scope would be proved
//! anew, part by part, in each function that has one.
#![tactic(auto)]

#[cfg(test)]
mod boards;
#[cfg(test)]
mod callers;
#[cfg(test)]
mod crews;
#[cfg(test)]
mod desks;
#[cfg(test)]
mod gates;
#[cfg(test)]
mod hosting;
#[cfg(test)]
mod houses;
#[cfg(test)]
mod joining;
#[cfg(test)]
mod parts;
#[cfg(test)]
mod screens;
#[cfg(test)]
mod serving;
#[cfg(test)]
mod stage;
#[cfg(test)]
mod swaps;
