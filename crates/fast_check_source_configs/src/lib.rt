//! What the configurations of a folder say: of packages, of the members of a workspace, and of TypeScript's compiler.
#![tactic(auto)]

mod checks;
pub mod comments;
pub mod config;
pub mod messages;
pub mod options;
pub mod paths;
pub mod patterns;
pub mod tsconfig;
pub mod workspace;
