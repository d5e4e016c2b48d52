//! Tests of the libraries of tasks, states, planners, judges and late vehicles, a file for each.
#![tactic(auto)]

#[cfg(test)]
mod claims;
#[cfg(test)]
mod drive;
#[cfg(test)]
mod order;
#[cfg(test)]
mod planner;
#[cfg(test)]
mod planners;
#[cfg(test)]
mod shared;
#[cfg(test)]
mod snapshot;
#[cfg(test)]
mod state;
#[cfg(test)]
mod tasks;
#[cfg(test)]
mod vehicles;
#[cfg(test)]
mod verify;
