//! Prints names, literals, types and patterns.
#![tactic(auto)]

mod members;
mod names;
mod patterns;
mod types;

use fast_check_text_writer::Printer;
use fast_check_tree_syntax::Part;
pub use members::member_lines;
pub use names::template;
pub use types::keyword;

/// Prints the parts of a name, a literal, a type, a member of one, or a pattern. Answers false for other nodes.
pub fn print_type<'a>(printer: &mut Printer<'a>, node: Part<'a>) -> bool {
    names::name(printer, node)
        || types::type_of(printer, node)
        || members::member(printer, node)
        || patterns::pattern(printer, node)
}
