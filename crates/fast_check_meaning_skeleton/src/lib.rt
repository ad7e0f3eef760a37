//! The skeleton of a module, and its faults: the definitions that the transform is proved against; the grammar of skeletons; when two modules agree
//! but for hidden code; and the law that both are answered alike.
#![tactic(auto)]

mod changes;
mod rules;
mod worlds;

pub use changes::hidden_changes;
pub use fast_check_meaning_expandos as expandos;
pub use fast_check_meaning_signatures as signatures;
pub use fast_check_meaning_signatures::{Fault, FaultKind, FunctionKind};
pub use rules::{DeclRule, DefaultRule, ImportExportRule, ItemRule, decl_rule, item_rule};
pub use worlds::{hash_mark, hidden_items, two_worlds};
