//! The module `export const x = 1;` with a deeper tree: so many parentheses around its value, or a type of so many arrays. The text stays that of
//! the module that is read, so each level has the range of the value.

use fast_check_cases::Said;
use fast_check_tree_forms_expressions::ParenExpr;
use fast_check_tree_forms_programs::{BindingIdent, ExportDecl, Ident, Module, Number};
use fast_check_tree_forms_statements::{VarDecl, VarDeclarator};
use fast_check_tree_forms_types::{TsKeywordType, TsTypeAnn};
use fast_check_tree_syntax::{
    Atom, Items, Kind, SourcePos, SourceRange, SyntaxContext, Tree, Word,
};
use std::alloc::{AllocError, Global};

fn range(start: u32, end: u32) -> SourceRange {
    SourceRange {
        start: SourcePos(start),
        end: SourcePos(end),
    }
}

/// The tree that was made. If memory runs out, nothing is a text any more.
fn noted(made: Result<Tree, AllocError>, said: &mut Said) -> Tree {
    match made {
        Ok(tree) => tree,
        Err(_) => {
            said.lack();
            Tree::Absent
        }
    }
}

fn number(alloc: Global, span: SourceRange) -> Result<Tree, AllocError> {
    let raw = Atom::from_str(alloc, "1")?;
    Number { span, raw }.into_tree(alloc)
}

/// The value, in so many parentheses.
fn value(alloc: Global, parentheses: u32, said: &mut Said) -> Tree {
    let span = range(18, 19);
    let mut expr = noted(number(alloc, span), said);
    for _ in 0..parentheses {
        expr = noted(ParenExpr { span, expr }.into_tree(alloc), said);
    }
    expr
}

/// The type of so many arrays of numbers, or nothing.
fn written_type(alloc: Global, arrays: u32, said: &mut Said) -> Tree {
    if arrays == 0 {
        return Tree::Absent;
    }
    let span = range(18, 19);
    let kind = Tree::Word(Word::TsNumberKeyword);
    let mut type_ann = noted(TsKeywordType { span, kind }.into_tree(alloc), said);
    for _ in 0..arrays {
        let made = Tree::node(alloc, Kind::TsArrayType, [Tree::Range(span), type_ann]);
        type_ann = noted(made, said);
    }
    noted(TsTypeAnn { span, type_ann }.into_tree(alloc), said)
}

fn ident(alloc: Global) -> Result<Tree, AllocError> {
    let sym = Atom::from_str(alloc, "x")?;
    Ident {
        span: range(14, 15),
        ctxt: SyntaxContext(0),
        sym,
        optional: false,
    }
    .into_tree(alloc)
}

/// The name with its type.
fn name(alloc: Global, arrays: u32, said: &mut Said) -> Tree {
    let id = noted(ident(alloc), said);
    let type_ann = written_type(alloc, arrays, said);
    noted(BindingIdent { id, type_ann }.into_tree(alloc), said)
}

fn list_of(alloc: Global, tree: Tree, said: &mut Said) -> Tree {
    let mut items = Items::new(alloc);
    said.note(items.push(tree));
    Tree::list(items)
}

fn declarator(alloc: Global, parentheses: u32, arrays: u32, said: &mut Said) -> Tree {
    let name = name(alloc, arrays, said);
    let init = value(alloc, parentheses, said);
    let declarator = VarDeclarator {
        span: range(14, 19),
        name,
        init,
        definite: false,
    };
    noted(declarator.into_tree(alloc), said)
}

fn variable(alloc: Global, declarator: Tree, said: &mut Said) -> Tree {
    let variable = VarDecl {
        span: range(8, 20),
        ctxt: SyntaxContext(0),
        kind: Tree::Word(Word::Const),
        declare: false,
        decls: list_of(alloc, declarator, said),
    };
    noted(variable.into_tree(alloc), said)
}

fn module(alloc: Global, decl: Tree, said: &mut Said) -> Tree {
    let span = range(1, 20);
    let export = noted(ExportDecl { span, decl }.into_tree(alloc), said);
    let module = Module {
        span,
        body: list_of(alloc, export, said),
        shebang: Tree::Absent,
    };
    noted(module.into_tree(alloc), said)
}

/// The module, whose value stands in so many parentheses, and whose variable has a type of so many arrays, none where there are none.
pub fn deep_module(alloc: Global, parentheses: u32, arrays: u32, said: &mut Said) -> Tree {
    let declarator = declarator(alloc, parentheses, arrays, said);
    let variable = variable(alloc, declarator, said);
    module(alloc, variable, said)
}
