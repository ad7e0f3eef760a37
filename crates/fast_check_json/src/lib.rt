//! The JSON of trees, comments, graphs and tables in one place, as the program reads and writes it: docs/FORMATS.md says its forms. It offers the calls of
//! the crates that read and write, and holds the laws of places, of their order and number, of words and of variants. `serde_json` has the values, and `json` the writer.
#![tactic(auto)]

mod law;

pub use fast_check_json_tables::{read_graph, read_module_tables};
pub use fast_check_print::{print_comments, print_tree};
pub use fast_check_read::schema::{Choice, Form};
pub use fast_check_read::{InputFault, ReadError, read_comments, read_input, read_tree};
pub use law::{counts, order, places, variants, words};
