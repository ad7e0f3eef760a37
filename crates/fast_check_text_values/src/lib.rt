//! Prints expressions, functions and classes.
#![tactic(auto)]

mod classes;
mod expressions;
mod functions;
mod operators;

pub use classes::named_class;
use fast_check_text_writer::Printer;
use fast_check_tree_syntax::Part;

/// Prints the parts of an expression, a function, a class, or a part of one. Answers false for other nodes.
pub fn print_value<'a>(printer: &mut Printer<'a>, node: Part<'a>) -> bool {
    classes::class_part(printer, node)
        || functions::function_part(printer, node)
        || expressions::value(printer, node)
        || operators::operation(printer, node)
}
