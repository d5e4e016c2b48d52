//! Tests across crates: readers and writers that fail, the machine command by command, the command line.
#![tactic(auto)]

#[cfg(test)]
mod answers;
#[cfg(test)]
mod devices;
#[cfg(test)]
mod machine;
#[cfg(test)]
mod options;
#[cfg(test)]
mod serve_options;
