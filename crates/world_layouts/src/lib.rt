//! The definitions of a world, as a layout of its types asks for them.
#![tactic(auto)]

mod asked;
mod fields;
mod world;

pub use world::WorldTypes;
