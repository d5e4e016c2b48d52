//! Tests of the libraries of texts, lines, words, events, logs, states and the edge, a file for each.
#![tactic(auto)]

#[cfg(test)]
mod edge;
#[cfg(test)]
mod event;
#[cfg(test)]
mod front;
#[cfg(test)]
mod lines;
#[cfg(test)]
mod log;
#[cfg(test)]
mod restore;
#[cfg(test)]
mod resume;
#[cfg(test)]
mod text;
#[cfg(test)]
mod words;
