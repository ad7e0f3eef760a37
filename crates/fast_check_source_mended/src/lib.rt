//! A tree without what no rule of the program looks at, and without what the program would take for something else than TypeScript's compiler does: values that
//! name another type than they have, and declarations that stand where the program looks for none. It asks for a type where such a value goes. What is exported
//! without a word has it.
#![tactic(auto)]

mod edits;
mod exports;
mod local;
mod members;
mod restored;
mod returns;
mod short;
mod statements;
mod unsaid;
mod values;

pub use exports::with_exports;
pub use restored::restored_skeleton;
pub use short::short_tree;
pub use values::mended;
