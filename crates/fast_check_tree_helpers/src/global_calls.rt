//! Calls of names that nothing in the module binds: `Object.freeze(x)`, `Symbol("x")`.
ghost use Rattle.std.specs.Prelude.{◌≡◌};
ghost use Rattle.fast_check_tree_syntax.specs.Part.{seen};
ghost use Rattle.fast_check_tree_helpers.specs.GlobalCalls as globals;

use fast_check_tree_forms_expressions::{CallExpr, ExprOrSpread, MemberExpr};
use fast_check_tree_forms_programs::{Ident, IdentName};
use fast_check_tree_syntax::{Kind, Part, SyntaxContext, Tree};

/// Whether an expression, or the name of a type, is an identifier of this name that nothing in the module binds.
/// `unresolved` is the scope number of such names. It takes no memory.
pub fn is_global(name: &str, unresolved: SyntaxContext, expr: Part<'_>) -> bool
    ensures { result ≡ globals.is_global name.now unresolved (seen expr.entry) }
{
    if expr.kind() != Kind::Ident {
        return false;
    }
    let ident = Ident::of(expr);
    ident.sym == name && ident.ctxt.0 == unresolved.0
}

/// Whether a member's property is this name.
fn is_plain_name(name: &str, prop: Part<'_>) -> bool
    ensures { result ≡ globals.is_plain_name name.now (seen prop.entry) }
{
    prop.kind() == Kind::IdentName && IdentName::of(prop).sym == name
}

/// Whether an expression is `object.name`, the object global.
fn is_global_member(object: &str, name: &str, unresolved: SyntaxContext, expr: Part<'_>) -> bool
    ensures { result ≡ globals.is_global_member object.now name.now unresolved (seen expr.entry) }
{
    if expr.kind() != Kind::MemberExpr {
        return false;
    }
    let member = MemberExpr::of(expr);
    is_global(object, unresolved, member.obj) && is_plain_name(name, member.prop)
}

/// The argument, where there is exactly one and it is no spread.
fn sole_argument<'a>(args: &'a [Tree]) -> Option<ExprOrSpread<Part<'a>>>
    ensures { globals.ReadsArgument result (globals.sole_argument args.entry.now) }
{
    match args {
        [arg] => {
            let arg = ExprOrSpread::of(arg.read());
            if arg.spread.is_absent() {
                Some(arg)
            } else {
                None
            }
        }
        _ => None,
    }
}

/// The argument of a call of the form `Object.freeze(x)`, where `Object` is the global object and `x` no spread; `None`
/// for every other call. `unresolved` is the scope number of the names that nothing in the module binds. It takes no
/// memory.
pub fn object_freeze_call_arg<'a>(
    call: &CallExpr<Part<'a>>,
    unresolved: SyntaxContext,
) -> Option<ExprOrSpread<Part<'a>>>
    ensures { globals.ReadsArgument result (globals.object_freeze_call_arg unresolved (seen call.now.callee) (seen call.now.args)) }
{
    if is_global_member("Object", "freeze", unresolved, call.callee) {
        sole_argument(call.args.parts())
    } else {
        None
    }
}

/// Whether arguments can describe a symbol: none, or one text.
fn is_symbol_description(args: &[Tree]) -> bool
    ensures { result ≡ globals.is_symbol_description args.now }
{
    match args {
        [] => true,
        [arg] => ExprOrSpread::of(arg.read()).expr.kind() == Kind::Str,
        _ => false,
    }
}

/// Whether a call makes a symbol: `Symbol()`, `Symbol("a")` or `Symbol.for("a")`, where `Symbol` is the global one.
pub(crate) fn is_symbol_call(call: &CallExpr<Part<'_>>, unresolved: SyntaxContext) -> bool
    ensures { result ≡ globals.is_symbol_call unresolved (seen call.now.callee) (seen call.now.args) }
{
    let is_symbol_function = is_global("Symbol", unresolved, call.callee)
        || is_global_member("Symbol", "for", unresolved, call.callee);
    is_symbol_function && is_symbol_description(call.args.parts())
}
