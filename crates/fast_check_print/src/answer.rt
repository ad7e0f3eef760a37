//! The answers of `transform`, as JSON.

ghost use Rattle.std.specs.Prelude.{OnOk};
ghost use Rattle.fast_check_print.specs.Writing.{WritesData};
ghost use Rattle.fast_check_print.specs.Answer.{answer_data, module_data, sources_data, source_data};

use crate::comments::print_comments;
use crate::diagnostic::print_diagnostics;
use crate::pieces::print_range;
use crate::tree::print_tree;
use fast_check_read::schema::Form;
use fast_check_tables_diagnostics::FastCheckDiagnostic;
use fast_check_tables_diagnostics::parsed_source::{FastCheckModule, ModuleInfo, StaticSource};
use fast_check_tree_syntax::Kind;
use json::Writer;
use std::alloc::{AllocError, Global};

/// `{"Ok": module}`, or `{"Err": [diagnostic, ..]}`.
pub fn print_answer(
    alloc: Global,
    out: &mut Writer,
    answer: &Result<FastCheckModule, Vec<FastCheckDiagnostic>>,
) -> Result<(), AllocError>
    ensures { OnOk result (WritesData (answer_data answer.now) out.old out.new) }
{
    out.begin_object()?;
    match answer {
        Ok(made) => {
            out.key("Ok")?;
            print_module(out, made)?;
        }
        Err(diagnostics) => {
            out.key("Err")?;
            print_diagnostics(alloc, out, diagnostics.as_slice())?;
        }
    }
    out.end_object()
}

fn print_module(out: &mut Writer, made: &FastCheckModule) -> Result<(), AllocError>
    ensures { OnOk result (WritesData (module_data made.now.comments made.now.module_info.sources.items made.now.program) out.old out.new) }
{
    out.begin_object()?;
    out.key("comments")?;
    print_comments(out, &made.comments)?;
    out.key("module_info")?;
    print_module_info(out, &made.module_info)?;
    out.key("program")?;
    print_tree(out, &made.program, Form::Struct(Kind::Module))?;
    out.end_object()
}

fn print_module_info(out: &mut Writer, info: &ModuleInfo) -> Result<(), AllocError>
    ensures { OnOk result (WritesData (sources_data info.now.sources.items) out.old out.new) }
{
    out.begin_object()?;
    out.key("sources")?;
    out.begin_array()?;
    for source in info.sources.as_slice() {
        print_static_source(out, source)?;
    }
    out.end_array()?;
    out.end_object()
}

fn print_static_source(out: &mut Writer, source: &StaticSource) -> Result<(), AllocError>
    ensures { OnOk result (WritesData (source_data source.now) out.old out.new) }
{
    out.begin_object()?;
    out.key("is_export")?;
    out.boolean(source.is_export)?;
    out.key("range")?;
    print_range(out, source.range)?;
    out.key("specifier")?;
    out.string(source.specifier.as_str())?;
    out.key("type_only")?;
    out.boolean(source.type_only)?;
    out.end_object()
}
