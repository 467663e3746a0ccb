//! What a refusal of a token names: the reference to a type by its name, or the token.
#![tactic(auto)]

mod references;
mod refused;
mod tokens;

pub use references::push_reference;
pub use refused::push_refused;
pub use tokens::push_token;
