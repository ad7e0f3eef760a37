//! What a package is answered, as lines of text.

use anyhow::Result;
use fast_check::build::ModuleAnswer;
use fast_check::diagnostics::{Diagnostic, FastCheckDiagnostic};
use fast_check::tree::Tree;
use fast_check::tree::forms::{
    BindingIdent, ExportDecl, Ident, Module, Str, TsLitType, TsTypeAnn, VarDecl, VarDeclarator,
};

/// The name that the first item of a skeleton declares, and the string that its type consists of.
fn name_and_type(skeleton: &Tree) -> (&str, &str) {
    let item = ExportDecl::of(Module::of(skeleton.read()).body.part(0));
    let declarator = VarDeclarator::of(VarDecl::of(item.decl).decls.part(0));
    let name = BindingIdent::of(declarator.name);
    let written = TsLitType::of(TsTypeAnn::of(name.type_ann).type_ann);
    (Ident::of(name.id).sym, Str::of(written.lit).value)
}

fn print_diagnostic(rt: &HostRuntime, diagnostic: &FastCheckDiagnostic) -> Result<()> {
    println!(rt; "  {}: {diagnostic}", diagnostic.code())?;
    if let Some(place) = diagnostic.range() {
        println!(rt; "  at {} to {}", place.range.start.0, place.range.end.0)?;
    }
    Ok(())
}

/// Prints the type of a skeleton's first name, or what is wrong.
pub fn print_answer(rt: &HostRuntime, answer: &ModuleAnswer) -> Result<()> {
    println!(rt; "  {}", answer.0.as_str())?;
    match &answer.1 {
        Ok(module) => {
            let (name, written) = name_and_type(&module.program);
            println!(rt; "  {name} is a {written:?}")?;
        }
        Err(diagnostics) => {
            for diagnostic in diagnostics.as_slice() {
                print_diagnostic(rt, diagnostic)?;
            }
        }
    }
    Ok(())
}
