//! The tests of the libraries that read assemblies: values from outside, and each call that allocates once where it
//! succeeds.
#![tactic(auto)]

#[cfg(test)]
mod bodies;
#[cfg(test)]
mod core_classes;
#[cfg(test)]
mod images;
#[cfg(test)]
mod layouts;
#[cfg(test)]
mod listings;
#[cfg(test)]
mod members;
mod names;
#[cfg(test)]
mod signatures;
#[cfg(test)]
mod texts;
#[cfg(test)]
mod told;
#[cfg(test)]
mod types;
#[cfg(test)]
mod world;
#[cfg(test)]
mod writing;
