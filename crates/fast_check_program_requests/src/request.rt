//! What the commands are asked, read from JSON.

ghost use Rattle.std.specs.Prelude.{◌≡◌, option_map, codes, IfErr};
ghost use Rattle.std.specs.Result.{result_ok};
ghost use Rattle.serde_json.specs.Find.{get};
ghost use Rattle.serde_json.specs.View.{view};
ghost use Rattle.fast_check_read.specs.Comments.{comments_of};
ghost use Rattle.fast_check_read.specs.Each.{Answers};
ghost use Rattle.fast_check_json_tables.specs.graph.Reads.{Reads, needed};
ghost use Rattle.fast_check_program_requests.specs.Request.{request_of, members_of_request};
ghost use Rattle.fast_check_program_requests.specs.Request.{program_of, source_of, module_of, source, es_module, Makes, IsRequest};

use fast_check_json_tables::{
    read_flag, read_graph, read_list, read_member, read_member_or, read_module_tables,
};
use fast_check_read::schema::{Choice, Form};
use fast_check_read::{ReadError, has_float, read_comments, read_text, read_tree};
use fast_check_tables_diagnostics::parsed_source::{ModuleSpecifier, ParsedSource};
use fast_check_tables_graph::ModuleGraph;
use fast_check_tables_modules::ModuleTables;
use fast_check_tables_modules::diagnostics::ModulePublicRanges;
use fast_check_tree_comments::Comments;
use fast_check_tree_syntax::{SyntaxContext, Tree};
use serde_json::Value;
use std::alloc::Global;
use std::rc::RcStr;

/// An ECMAScript module as it is handed in. Nothing has checked its tables.
#[derive(Drop)]
pub struct EsModuleParts {
    pub specifier: ModuleSpecifier,
    pub source: ParsedSource,
    pub tables: ModuleTables,
}

/// What `transform` is asked: a module in the graph of modules, what is public of it, and whether its first fault is answered alone.
#[derive(Drop)]
pub struct TransformRequest {
    pub graph: ModuleGraph,
    pub es_module: EsModuleParts,
    pub public_ranges: ModulePublicRanges,
    pub should_error_on_first_diagnostic: bool,
}

/// Reads `{"graph": {..}, "module": {..}, "ranges": [..], "impls": [..], "first": false}`. Other members are passed over, but no number
/// anywhere may have a fraction or an exponent.
pub fn read_transform_request(alloc: Global, value: &Value) -> Result<TransformRequest, ReadError>
    ensures { Makes IsRequest (request_of (view value.now)) result }
{
    if has_float(value) {
        return Err(ReadError::BadForm);
    }
    read_members(alloc, value)
}

fn read_members(alloc: Global, value: &Value) -> Result<TransformRequest, ReadError>
    ensures { Makes IsRequest (members_of_request (view value.now)) result }
{
    let ranges = read_list(alloc, value, "ranges")?;
    let implementations = read_list(alloc, value, "impls")?;
    let should_error_on_first_diagnostic = read_flag(value, "first")?;
    let graph = read_graph(alloc, value)?;
    let es_module = read_es_module(alloc, member(value, "module")?)?;
    let public_ranges = ModulePublicRanges::from_parts(
        alloc,
        ranges,
        implementations,
        Vec::new(alloc),
    )?;
    Ok(TransformRequest {
        graph,
        es_module,
        public_ranges,
        should_error_on_first_diagnostic,
    })
}

/// A member that has no default.
pub fn member<'a>(value: &'a Value, name: &str) -> Result<&'a Value, ReadError>
    ensures member { option_map (λ v. view v.now) (result_ok result) ≡ get name.now (view value.now) }
    ensures err { IfErr result (λ error. error ≡ ReadError.BadForm) }
{
    value.get(name).ok_or(ReadError::BadForm)
}

/// Reads an object of the members `specifier` and `source`, and of those of tables.
pub fn read_es_module(alloc: Global, value: &Value) -> Result<EsModuleParts, ReadError>
    ensures { Reads es_module (module_of (view value.now)) result }
{
    Ok(EsModuleParts {
        specifier: read_member(alloc, value, "specifier")?,
        source: read_source(alloc, member(value, "source")?)?,
        tables: read_module_tables(alloc, value)?,
    })
}

fn read_source(alloc: Global, value: &Value) -> Result<ParsedSource, ReadError>
    ensures { Reads source (source_of (view value.now)) result }
{
    let media_type = read_member(alloc, value, "media_type")?;
    let text = read_text(member(value, "text")?)?;
    let program = read_program(alloc, value)?;
    let comments = read_source_comments(alloc, value)?;
    let unresolved_context = read_member_or(alloc, value, "unresolved_context", SyntaxContext(0))?;
    Ok(ParsedSource {
        media_type,
        text: RcStr::from_str(alloc, text)?,
        program,
        comments,
        unresolved_context,
    })
}

/// The tree of a source.
fn read_program(alloc: Global, value: &Value) -> Result<Tree, ReadError>
    ensures { Answers (needed program_of (codes "program") (view value.now)) result }
{
    read_tree(
        alloc,
        member(value, "program")?,
        Form::Choice(Choice::Program),
    )
}

/// The comments of a source.
fn read_source_comments(alloc: Global, value: &Value) -> Result<Comments, ReadError>
    ensures { Answers (needed comments_of (codes "comments") (view value.now)) result }
{
    read_comments(alloc, member(value, "comments")?)
}
