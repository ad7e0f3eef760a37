//! Prints declarations, imports, exports and modules: the text of a skeleton.
#![tactic(auto)]

mod declarations;
mod imports;
mod items;
mod reserved;

use crate::declarations::declaration;
use crate::items::{item, module};
use fast_check_text_types::print_type;
use fast_check_text_values::print_value;
use fast_check_text_writer::Printer;
use fast_check_tree_comments::Comments;
use fast_check_tree_syntax::{Part, Tree};
use std::alloc::{AllocError, Global};

const DECLARATION_FILES: [&str; 3] = [".d.ts", ".d.mts", ".d.cts"];
// Files in which `<T>` before an arrow function is an element, or is reserved for one.
const ANGLE_RESERVED_FILES: [&str; 3] = [".tsx", ".mts", ".cts"];

fn print_node<'a>(printer: &mut Printer<'a>, node: Part<'a>) {
    let is_printed = print_type(printer, node)
        || item(printer, node)
        || declaration(printer, node)
        || print_value(printer, node);
    printer.text_if(!is_printed, "/* invalid */")
}

/// The text of a skeleton, from its program and its comments. The name of its file tells whether its declarations are ambient, and how type parameters of arrow functions
/// are written. The text ends with the end of a line. It is an error if memory runs out.
pub fn text_of(
    alloc: Global,
    program: &Tree,
    comments: &Comments,
    name: &str,
) -> Result<String, AllocError> {
    let is_ambient = DECLARATION_FILES
        .iter()
        .any(|ending| name.ends_with(*ending));
    let is_angle_reserved = ANGLE_RESERVED_FILES
        .iter()
        .any(|ending| name.ends_with(*ending));
    let mut printer = Printer::new(alloc, comments, is_ambient, is_angle_reserved);
    module(&mut printer, program.read());
    for _turn in 0..u64::MAX {
        let Some(node) = printer.next_node() else {
            break;
        };
        print_node(&mut printer, node);
    }
    printer.finish(alloc)
}
