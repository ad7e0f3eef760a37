//! The files of a folder: which are read, by what paths they are found, and the small formats of their configurations.
#![tactic(auto)]

pub mod files;
pub mod globs;
pub mod jsonc;
pub mod languages;
pub mod messages;
pub mod pnpm;
