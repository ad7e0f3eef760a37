//! Helpers of the transform, under the names of deno_graph's `swc_helpers`: new nodes, and the types that values show by themselves.
#![tactic(auto)]

mod builders;
mod fields;
mod global_calls;
mod infer_type;
mod keywords;
mod literal_type;
mod named_bodies;
mod optional_params;
pub mod ranges;
mod return_class;
mod simple_type;
mod template_type;

pub use builders::{
    IdentTypeRef, any_type_ann, is_void_type, never_value, new_ident, regex_type, ts_keyword_type,
    ts_lit_type, ts_readonly, ts_tuple_element, type_ann, type_ref,
};
pub use global_calls::{is_global, object_freeze_call_arg};
pub use infer_type::{maybe_infer_type, shows_type};
pub use keywords::TsKeywordTypeKind;
pub use literal_type::{DeclMutabilityKind, maybe_lit_to_ts_type};
pub use named_bodies::{named_return, single_return_arg};
pub use optional_params::ParamsOptionalStartIndex;
pub use return_class::{ReturnStatementAnalysis, analyze_return_stmts_in_function_body};
pub use simple_type::is_simple_type;
pub use template_type::tpl_to_ts_type;
