//! The items of a module or of a namespace.
use crate::builder::{Binds, MODULE, PLAIN, SymbolNo, Tables};
use crate::declarations::Setting;
use fast_check_source_references::declared::{
    declaration_of, declared_names, is_declaration, says_exports,
};
use fast_check_source_references::dependencies::Dependencies;
use fast_check_source_references::names::text_of;
use fast_check_source_walks::Waiting;
use fast_check_tree_forms_expressions::{AssignExpr, MemberExpr};
use fast_check_tree_forms_statements::ExprStmt;
use fast_check_tree_syntax::{Atom, Kind, Part, SourceRange};
use std::alloc::AllocError;

/// What a part is looked at as.
#[derive(Clone, Copy, PartialEq, Eq)]
pub enum Way {
    /// The body of a namespace.
    Body,
    /// The items of a body.
    Items,
    Item,
    /// An item of a body that exports all that it declares.
    Exported,
    /// A value that may add a property to a function.
    Expando,
}

/// What is still to be looked at, in a module or a namespace.
#[derive(Clone, Copy)]
pub struct Task<'a> {
    pub part: Part<'a>,
    pub symbol: SymbolNo,
    pub is_ambient: bool,
    pub way: Way,
}

// The items of a body, behind them what may add properties to functions.
fn push_items<'a>(task: Task<'a>, waiting: &mut Waiting<Task<'a>>) {
    let items = task.part;
    for item in items.parts().iter().rev() {
        if item.read().kind() == Kind::ExprStmt {
            waiting.push(Task {
                part: ExprStmt::of(item.read()).expr,
                way: Way::Expando,
                ..task
            });
        }
    }
    let way = if task.is_ambient && !says_exports(items) {
        Way::Exported
    } else {
        Way::Item
    };
    for item in items.parts().iter().rev() {
        waiting.push(Task {
            part: item.read(),
            way,
            ..task
        });
    }
}

impl Tables {
    /// The items of a module.
    pub fn items(&mut self, items: Part<'_>, is_ambient: bool) {
        let first = Task {
            part: items,
            symbol: MODULE,
            is_ambient,
            way: Way::Items,
        };
        let mut waiting = Waiting::new(self.alloc);
        waiting.push(first);
        for _turn in 0..u64::MAX {
            let Some(task) = waiting.pop() else {
                break;
            };
            match task.way {
                Way::Body => self.namespace_body(task, &mut waiting),
                Way::Items => push_items(task, &mut waiting),
                Way::Item => self.item(task, false, &mut waiting),
                Way::Exported => self.item(task, true, &mut waiting),
                Way::Expando => self.expando(task.part),
            }
        }
        self.lacks |= waiting.lacks;
    }

    fn item<'a>(&mut self, task: Task<'a>, all_exported: bool, waiting: &mut Waiting<Task<'a>>) {
        let (decl, exported) = declaration_of(task.part);
        if !is_declaration(decl) {
            return self.module_item(task.part, task.symbol);
        }
        let setting = Setting {
            parent: task.symbol,
            is_ambient: task.is_ambient,
            exported,
        };
        let shown = exported.is_some() || all_exported;
        let done = self.declare_item(decl, setting, shown, waiting);
        self.note(done);
    }

    fn declare_item<'a>(
        &mut self,
        decl: Part<'a>,
        setting: Setting,
        shown: bool,
        waiting: &mut Waiting<Task<'a>>,
    ) -> Result<(), AllocError> {
        if shown && setting.parent != MODULE {
            self.join_names(decl, setting.parent)?;
        }
        let mut made = Vec::new(self.alloc);
        if matches!(decl.kind(), Kind::VarDecl | Kind::UsingDecl) {
            self.variables(decl, setting, &mut made)?;
        } else if let Some(symbol) = self.single(decl, setting, waiting) {
            made.push(symbol)?;
        }
        if shown {
            for symbol in made.iter() {
                self.export_by_name(setting.parent, *symbol)?;
            }
        }
        Ok(())
    }

    // Joins the names that a declaration declares.
    fn join_names(&mut self, decl: Part<'_>, namespace: SymbolNo) -> Result<(), AllocError> {
        for id in declared_names(self.alloc, decl)?.iter() {
            self.join(id, namespace);
        }
        Ok(())
    }

    fn export_by_name(&mut self, from: SymbolNo, symbol: SymbolNo) -> Result<(), AllocError> {
        let name = match self.drafts.get(symbol.0) {
            Some(draft) => match &draft.name {
                Some(name) => Atom::from_str(self.alloc, name.as_str())?,
                None => return Ok(()),
            },
            None => return Ok(()),
        };
        self.export(from, &name, symbol);
        Ok(())
    }

    fn module_item(&mut self, item: Part<'_>, parent: SymbolNo) {
        let done = match item.kind() {
            Kind::ImportDecl => self.import(item, parent),
            Kind::NamedExport => self.export_named(item, parent),
            Kind::ExportAll => self.export_all(item),
            Kind::TsImportEqualsDecl => self.import_equals(item, parent),
            Kind::ExportDefaultDecl => return self.default_declaration(item, parent),
            Kind::ExportDefaultExpr => return self.default_expression(item, parent),
            _ => return,
        };
        self.note(done);
    }

    // The function to which a property is assigned, `a.b = c;`, and the name of the property.
    fn assigned<'a>(&mut self, left: Part<'a>) -> Option<(SymbolNo, &'a str)> {
        if left.kind() != Kind::MemberExpr {
            return None;
        }
        let MemberExpr { obj, prop, .. } = MemberExpr::of(left);
        if prop.kind() != Kind::IdentName {
            return None;
        }
        let id = self.id(obj)?;
        let symbol = self.by_name.get(&id).copied()?;
        if self.drafts.get(symbol.0)?.is_function {
            Some((symbol, text_of(prop)))
        } else {
            None
        }
    }

    // A property that is assigned to a function is an export of the function.
    fn expando(&mut self, expr: Part<'_>) {
        if expr.kind() != Kind::AssignExpr {
            return;
        }
        let AssignExpr {
            span,
            op,
            left,
            right,
        } = AssignExpr::of(expr);
        if op == "="
            && let Some((symbol, name)) = self.assigned(left)
        {
            let done = self.property(symbol, name, span, right);
            self.note(done);
        }
    }

    fn property(
        &mut self,
        owner: SymbolNo,
        name: &str,
        span: SourceRange,
        value: Part<'_>,
    ) -> Result<(), AllocError> {
        let name = Atom::from_str(self.alloc, name)?;
        if self.export_of(owner, &name).is_none() {
            let made = self.push_named(owner, name.as_str());
            let mut dependencies = Dependencies::new(self.alloc);
            dependencies.value(value);
            self.define(made, span, Binds::Value, PLAIN, dependencies);
            self.export(owner, &name, made);
        }
        Ok(())
    }
}
