//! The transform as callers have it: a transformer that keeps what is wrong, and two modules beside each other, with the law of two worlds.
#![tactic(auto)]

mod pair;
mod transformer;

pub use pair::transform_pair;
pub use transformer::FastCheckTransformer;
