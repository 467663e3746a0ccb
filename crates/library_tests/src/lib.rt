//! The tests of the libraries: values from outside, and each call that allocates once where it succeeds.
#![tactic(auto)]

#[cfg(test)]
mod cycles;
#[cfg(test)]
mod encodings;
#[cfg(test)]
mod executables;
#[cfg(test)]
mod files;
#[cfg(test)]
mod flow;
#[cfg(test)]
mod heaps;
#[cfg(test)]
mod machine;
#[cfg(test)]
mod numbers;
#[cfg(test)]
mod selected;
#[cfg(test)]
mod stacks;
