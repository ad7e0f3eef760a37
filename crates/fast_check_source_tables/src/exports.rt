//! Imports and exports.
use crate::builder::{Binds, Flags, PLAIN, SymbolNo, Tables, Target};
use crate::declarations::Setting;
use fast_check_source_references::dependencies::Dependencies;
use fast_check_source_references::names::{entity_chain, id_of, text_of};
use fast_check_tables_symbols::{FileDepName, ReExportAllNode};
use fast_check_tree_forms_expressions::{ClassExpr, FnExpr};
use fast_check_tree_forms_programs::{
    ExportAll, ExportDefaultDecl, ExportDefaultExpr, ExportNamedSpecifier,
    ExportNamespaceSpecifier, ImportDecl, ImportDefaultSpecifier, ImportNamedSpecifier,
    ImportStarAsSpecifier, NamedExport, Str, TsExternalModuleRef, TsImportEqualsDecl,
};
use fast_check_tree_syntax::{Atom, Id, Kind, Part, SourceRange, SyntaxContext};
use std::alloc::{AllocError, Global};

fn named(alloc: Global, name: &str) -> Result<FileDepName, AllocError> {
    Ok(FileDepName::Name(String::from_str(alloc, name)?))
}

fn file(alloc: Global, source: &str, name: FileDepName) -> Result<Target, AllocError> {
    Ok(Target::File(String::from_str(alloc, source)?, name))
}

// What an import specifier imports, its range and its name here.
fn imported<'a>(
    alloc: Global,
    specifier: Part<'a>,
) -> Result<(FileDepName, SourceRange, Part<'a>), AllocError> {
    match specifier.kind() {
        Kind::ImportDefaultSpecifier => {
            let ImportDefaultSpecifier { span, local } = ImportDefaultSpecifier::of(specifier);
            Ok((named(alloc, "default")?, span, local))
        }
        Kind::ImportStarAsSpecifier => {
            let ImportStarAsSpecifier { span, local } = ImportStarAsSpecifier::of(specifier);
            Ok((FileDepName::Star, span, local))
        }
        _ => {
            let ImportNamedSpecifier {
                span,
                local,
                imported,
                ..
            } = ImportNamedSpecifier::of(specifier);
            let name = if imported.is_absent() {
                local
            } else {
                imported
            };
            Ok((named(alloc, text_of(name))?, span, local))
        }
    }
}

impl Tables {
    pub fn import(&mut self, decl: Part<'_>, parent: SymbolNo) -> Result<(), AllocError> {
        let ImportDecl {
            specifiers,
            src,
            ..
        } = ImportDecl::of(decl);
        for specifier in specifiers.parts() {
            let (name, span, local) = imported(self.alloc, specifier.read())?;
            if let Some(id) = id_of(self.alloc, local)? {
                let symbol = self.symbol_of(&id, parent);
                let target = file(self.alloc, Str::of(src).value, name)?;
                self.alias(symbol, span, target);
            }
        }
        Ok(())
    }

    // One name of an export, with what it stands for.
    fn export_name(
        &mut self,
        shown: Part<'_>,
        span: SourceRange,
        target: Target,
        parent: SymbolNo,
    ) -> Result<(), AllocError> {
        let name = Atom::from_str(self.alloc, text_of(shown))?;
        let symbol = self.push_named(parent, name.as_str());
        self.alias(symbol, span, target);
        self.export(parent, &name, symbol);
        Ok(())
    }

    fn local_target(&self, orig: Part<'_>) -> Result<Target, AllocError> {
        match id_of(self.alloc, orig)? {
            Some(id) => Ok(Target::Name(id)),
            None => Ok(Target::Name(Id(
                Atom::from_str(self.alloc, text_of(orig))?,
                SyntaxContext(0),
            ))),
        }
    }

    fn export_specifier(
        &mut self,
        specifier: Part<'_>,
        src: Part<'_>,
        parent: SymbolNo,
    ) -> Result<(), AllocError> {
        if specifier.kind() == Kind::ExportNamespaceSpecifier {
            let ExportNamespaceSpecifier { span, name } = ExportNamespaceSpecifier::of(specifier);
            let target = file(self.alloc, Str::of(src).value, FileDepName::Star)?;
            return self.export_name(name, span, target, parent);
        }
        if specifier.kind() != Kind::ExportNamedSpecifier {
            return Ok(());
        }
        let ExportNamedSpecifier {
            span,
            orig,
            exported,
            ..
        } = ExportNamedSpecifier::of(specifier);
        let target = if src.is_absent() {
            self.local_target(orig)?
        } else {
            let name = named(self.alloc, text_of(orig))?;
            file(self.alloc, Str::of(src).value, name)?
        };
        let shown = if exported.is_absent() { orig } else { exported };
        self.export_name(shown, span, target, parent)
    }

    pub fn export_named(&mut self, decl: Part<'_>, parent: SymbolNo) -> Result<(), AllocError> {
        let NamedExport {
            specifiers,
            src,
            ..
        } = NamedExport::of(decl);
        for specifier in specifiers.parts() {
            self.export_specifier(specifier.read(), src, parent)?;
        }
        Ok(())
    }

    pub fn export_all(&mut self, decl: Part<'_>) -> Result<(), AllocError> {
        let ExportAll { span, src, .. } = ExportAll::of(decl);
        let specifier = String::from_str(self.alloc, Str::of(src).value)?;
        self.re_exports.push(ReExportAllNode {
            range: span,
            specifier,
        })?;
        Ok(())
    }

    fn equals_target(&self, module_ref: Part<'_>) -> Result<Target, AllocError> {
        if module_ref.kind() == Kind::TsExternalModuleRef {
            let source = Str::of(TsExternalModuleRef::of(module_ref).expr).value;
            return file(self.alloc, source, FileDepName::Star);
        }
        let chain = entity_chain(self.alloc, module_ref)?;
        let Some(id) = id_of(self.alloc, chain.first)? else {
            return self.local_target(chain.first);
        };
        if chain.names.is_empty() {
            return Ok(Target::Name(id));
        }
        let mut names = Vec::new(self.alloc);
        for name in chain.names.iter() {
            names.push(String::from_str(self.alloc, *name)?)?;
        }
        Ok(Target::Part(id, names))
    }

    /// `import a = b.c` or `import a = require("b")`
    pub fn import_equals(&mut self, decl: Part<'_>, parent: SymbolNo) -> Result<(), AllocError> {
        let TsImportEqualsDecl {
            span,
            is_export,
            id,
            module_ref,
            ..
        } = TsImportEqualsDecl::of(decl);
        let target = self.equals_target(module_ref)?;
        if let Some(name) = self.id(id) {
            let symbol = self.symbol_of(&name, parent);
            self.alias(symbol, span, target);
            if is_export {
                self.export(parent, &name.0, symbol);
            }
        }
        Ok(())
    }

    /// `export default` of a class, a function or an interface.
    pub fn default_declaration(&mut self, decl: Part<'_>, parent: SymbolNo) {
        let ExportDefaultDecl { span, decl } = ExportDefaultDecl::of(decl);
        let symbol = match decl.kind() {
            Kind::ClassExpr => {
                let ClassExpr { ident, class } = ClassExpr::of(decl);
                let setting = Setting {
                    parent,
                    is_ambient: false,
                    exported: None,
                };
                self.class(ident, class, span, setting, PLAIN)
            }
            Kind::FnExpr => {
                let FnExpr { ident, function } = FnExpr::of(decl);
                self.function(ident, function, span, parent, PLAIN)
            }
            _ => self.interface(decl, span, parent, PLAIN),
        };
        self.export_default(parent, symbol);
    }

    /// `export default` of a value.
    pub fn default_expression(&mut self, decl: Part<'_>, parent: SymbolNo) {
        let ExportDefaultExpr { span, expr } = ExportDefaultExpr::of(decl);
        let symbol = self.unnamed_default(parent);
        match self.id(expr) {
            Some(id) => self.alias(symbol, span, Target::Name(id)),
            None => {
                let flags = Flags {
                    is_default_class_expr: expr.kind() == Kind::ClassExpr,
                    ..PLAIN
                };
                let mut dependencies = Dependencies::new(self.alloc);
                dependencies.value(expr);
                self.define(symbol, span, Binds::Both, flags, dependencies);
            }
        }
        self.export_default(parent, symbol);
    }
}
