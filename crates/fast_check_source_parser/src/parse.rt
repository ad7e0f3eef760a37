//! All rules together.
ghost use Rattle.std.specs.Prelude.{◌≡◌, ◌≤◌, ◌+◌, IfOk, length, true};
ghost use Rattle.fast_check_tree_syntax.specs.Height.{height};
ghost use Rattle.fast_check_source_walks.specs.Ranges.{is_nested as lies};

use fast_check_source_expressions::Expressions;
use fast_check_source_grammar::{Grammar, MAX_HEIGHT, ParseError, Rule, Tokens, Trees};
use fast_check_source_lexer::TokenKind;
use fast_check_source_statements::Statements;
use fast_check_source_types::Types;
use fast_check_source_values::Values;
use fast_check_source_walks::{is_at_most, is_nested};
use fast_check_tree_forms_programs::{Module, Script};
use fast_check_tree_syntax::{Atom, Kind, SourcePos, SourceRange, Tree};
use std::alloc::{AllocError, Global};

/// How deep rules may nest, which bounds the stack.
const MAX_DEPTH: usize = 500;

fn parse(alloc: Global, tokens: &mut Tokens<'_>, depth: usize, rule: Rule) -> Tree {
    if depth == 0 {
        tokens.refuse_depth();
        return Tree::Absent;
    }
    let grammar = Grammar {
        alloc,
        depth: depth - 1,
        parse,
    };
    let types = Types { grammar };
    let values = Values { types };
    let expressions = Expressions { values };
    let statements = Statements { expressions };
    match rule {
        Rule::Type => types.any_type(tokens),
        Rule::Operated => types.operated(tokens),
        Rule::Element => types.element(tokens),
        Rule::TypeParam => types.type_param(tokens),
        Rule::Member => types.member(tokens),
        Rule::SignatureParam => types.param(tokens),
        Rule::ElementPattern => types.element_pattern(tokens),
        Rule::PropertyPattern => types.property_pattern(tokens),
        Rule::Param => values.function_param(tokens),
        Rule::Assigned => expressions.assigned(tokens, false),
        Rule::Branch => expressions.assigned(tokens, true),
        Rule::Expression => expressions.expression(tokens),
        Rule::Operand(least) => expressions.operand(tokens, least),
        Rule::Unary => expressions.unary(tokens),
        Rule::Postfixed => expressions.postfixed(tokens),
        Rule::Decorated => expressions.decorated(tokens),
        Rule::Constructed => expressions.constructor_value(tokens),
        Rule::Heir => expressions.heir(tokens),
        Rule::Argument => expressions.argument(tokens),
        Rule::Property => values.property(tokens),
        Rule::TargetElement => values.target_element(tokens),
        Rule::TargetProperty => values.target_property(tokens),
        Rule::Jsx => values.nested_jsx(tokens),
        Rule::ClassValue => statements.class_value(tokens),
        Rule::ConstructorParam => statements.constructor_param(tokens),
        Rule::Statement => statements.statement(tokens),
        Rule::Item => statements.item(tokens),
        Rule::Body => statements.block(tokens),
        Rule::EnumMember => statements.enum_member(tokens),
        Rule::ClassMember => statements.class_member(tokens),
    }
}

// Whether an item makes a module of its file.
fn is_module_item(item: &Tree) -> bool {
    match item {
        Tree::Node(kind, _) => matches!(
            *kind,
            Kind::ImportDecl
                | Kind::ExportDecl
                | Kind::NamedExport
                | Kind::ExportDefaultDecl
                | Kind::ExportDefaultExpr
                | Kind::ExportAll
                | Kind::TsImportEqualsDecl
                | Kind::TsExportAssignment
                | Kind::TsNamespaceExportDecl
        ),
        _ => false,
    }
}

// The first line behind `#!`, if the text begins with these.
fn shebang(alloc: Global, text: &str) -> Result<Tree, AllocError> {
    if !text.starts_with("#!") {
        return Ok(Tree::Absent);
    }
    let end = match text.find("\n") {
        Some(end) => end,
        None => text.len(),
    };
    let line = match text.get(2..end) {
        Some(line) => line,
        None => "",
    };
    Ok(Tree::Text(Atom::from_str(alloc, line.trim_end_matches('\r'))?))
}

fn file(
    alloc: Global,
    span: SourceRange,
    body: Tree,
    shebang: Tree,
    is_module: bool,
) -> Result<Tree, AllocError> {
    if is_module {
        Module {
            span,
            body,
            shebang,
        }
        .into_tree(alloc)
    } else {
        Script {
            span,
            body,
            shebang,
        }
        .into_tree(alloc)
    }
}

// The items of a file as they were read, or why the text is not parsed.
#[derive(Drop)]
struct Parsed {
    span: SourceRange,
    body: Tree,
    is_module: bool,
    // Whether `await` was read as a name outside of functions.
    names_await: bool,
    fault: Option<ParseError>,
}

impl Parsed {
    // Whether the text has to be read again with `await` as an operator outside of functions: it is a module, or not known to be none.
    fn ask_for_await(&self) -> bool {
        self.names_await
            && match self.fault {
                None => self.is_module,
                Some(fault) => fault != ParseError::Memory,
            }
    }

    // Of the items of a text without and with `await` as an operator outside of functions, those that stand. Where both are at fault the first fault is said.
    fn or(self, again: Parsed) -> Parsed {
        let stands = match again.fault {
            None => again.is_module,
            Some(fault) => fault == ParseError::Memory || self.fault.is_none(),
        };
        if stands { again } else { self }
    }
}

// Reads the items of a file, or answers nothing where its text is too long.
fn items(alloc: Global, text: &str, jsx: bool, awaits: bool) -> Option<Parsed> {
    let mut tokens = Tokens::new(alloc, text, jsx, awaits)?;
    let is_empty = tokens.at.is(TokenKind::End);
    let start = if is_empty {
        SourcePos(1)
    } else {
        tokens.at.start()
    };
    let mut items = Trees::new(alloc);
    let mut is_module = false;
    for _turn in 0..tokens.at.left() {
        if tokens.at.is(TokenKind::End) {
            break;
        }
        let item = parse(alloc, &mut tokens, MAX_DEPTH, Rule::Item);
        is_module = is_module || is_module_item(&item);
        items.push(item);
    }
    let span = if is_empty {
        SourceRange { start, end: start }
    } else {
        tokens.at.from(start)
    };
    Some(Parsed {
        span,
        body: tokens.list(items),
        is_module: is_module || tokens.is_module(),
        names_await: tokens.names_await(),
        fault: tokens.fault(),
    })
}

// Reads the items of a file: in a module `await` is an operator outside of functions, and in a script it may be a name.
fn read(alloc: Global, text: &str, jsx: bool) -> Option<Parsed> {
    let found = items(alloc, text, jsx, false)?;
    if !found.ask_for_await() {
        return Some(found);
    }
    let again = items(alloc, text, jsx, true)?;
    Some(found.or(again))
}

/// The tree of a file that has this text, which may hold JSX or not. It is no higher than 4,000 nodes. Each range lies in the text and in that of the
/// node around it, and the items of each list stand behind one another; the decorators of a class may stand before it.
pub fn parse_program(alloc: Global, text: &str, jsx: bool) -> Result<Tree, ParseError>
    ensures low { IfOk result (λ tree. height tree ≤ 4000) }
    ensures nested { IfOk result (λ tree. lies tree 1 (length text.now + 1) ≡ true) }
{
    if text.len() >= 4294967295 {
        return Err(ParseError::TooLong);
    }
    let Some(
        Parsed {
            span,
            body,
            is_module,
            fault,
            ..
        },
    ) = read(alloc, text, jsx)
    else {
        return Err(ParseError::TooLong);
    };
    if let Some(fault) = fault {
        return Err(fault);
    }
    let tree = file(alloc, span, body, shebang(alloc, text)?, is_module)?;
    if !is_at_most(&tree, MAX_HEIGHT) {
        return Err(ParseError::TooDeep(span.start));
    }
    let end = (text.len() + 1) as u32;
    if !is_nested(&tree, 1, end) {
        return Err(ParseError::Unexpected(span.start));
    }
    Ok(tree)
}
