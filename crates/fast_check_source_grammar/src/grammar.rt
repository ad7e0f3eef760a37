//! The rules that hold one another take the parser of all of them as a parameter, so that each is proved by itself.
ghost use Rattle.fast_check_source_grammar.specs.Nests.{Nests};

use crate::cursor::Within;
use crate::tokens::Tokens;
use crate::trees::Trees;
use fast_check_source_lexer::TokenKind;
use fast_check_tree_syntax::Tree;
use std::alloc::Global;

/// What to parse.
#[derive(Clone, Copy, PartialEq, Eq)]
pub enum Rule {
    Type,
    /// A type with its operators, as `keyof A`.
    Operated,
    /// An element of a tuple type.
    Element,
    TypeParam,
    /// A member of an interface or an object type.
    Member,
    /// A parameter of a signature: a pattern with its type and its value.
    SignatureParam,
    /// A parameter of a function, with its decorators.
    Param,
    /// A parameter of a constructor, which may be a property too.
    ConstructorParam,
    ElementPattern,
    PropertyPattern,
    /// An expression without a comma.
    Assigned,
    /// The same between `?` and `:`.
    Branch,
    Expression,
    /// Operators that bind as tight as this, or tighter.
    Operand(u8),
    /// A value with an operator before it or behind it.
    Unary,
    /// A value with members and calls behind it.
    Postfixed,
    /// The same behind `@`, with no brackets behind it.
    Decorated,
    /// The callee of `new`: a value with members behind it.
    Constructed,
    /// What stands behind `extends` of a class, without its type arguments.
    Heir,
    Argument,
    Property,
    /// An element of an array that something is assigned to.
    TargetElement,
    /// A property of an object that something is assigned to.
    TargetProperty,
    /// A class as a value.
    ClassValue,
    /// An element of JSX within another.
    Jsx,
    Statement,
    /// An item of a module or of a namespace.
    Item,
    /// The body of a function.
    Body,
    EnumMember,
    ClassMember,
}

impl Rule {
    // Whether the rule goes on with the expression that it stands in, and not within brackets of it.
    fn goes_on(self) -> bool {
        matches!(
            self,
            Rule::Assigned | Rule::Branch | Rule::Operand(_) | Rule::Unary | Rule::Postfixed
        )
    }
}

/// How high a tree may be, which bounds the stack that its drop takes.
pub const MAX_HEIGHT: usize = 4000;

// How many of its own nodes a rule puts upon one another, but for a chain of them.
const OWN: usize = 8;

fn set_no_in(tokens: &mut Tokens<'_>, no_in: bool) {
    let within = tokens.at.within();
    let _ = tokens.at.enter(Within { no_in, ..within });
}

/// The rules, with the parser of those that nest.
#[derive(Clone, Copy)]
pub struct Grammar<F> {
    pub alloc: Global,
    /// How deep rules may still nest.
    pub depth: usize,
    pub parse: F,
}

impl<F: Fn(Global, &mut Tokens<'_>, usize, Rule) -> Tree> Grammar<F> {
    /// The tree of a nested rule.
    pub fn again(&self, tokens: &mut Tokens<'_>, rule: Rule) -> Tree
        requires { Nests self.now.depth (F.pre self.now.parse) }
    {
        let outer = tokens.at.set_high(0);
        let no_in = tokens.at.within().no_in;
        set_no_in(tokens, no_in && rule.goes_on());
        let found = (self.parse)(self.alloc, tokens, self.depth, rule);
        set_no_in(tokens, no_in);
        let high = tokens.at.high().saturating_add(OWN);
        let _ = tokens.at.set_high(outer.max(high));
        if high > MAX_HEIGHT {
            tokens.refuse_depth();
        }
        if tokens.is_stopped() {
            Tree::Absent
        } else {
            found
        }
    }

    /// The trees of a rule up to a closing mark, with a mark between them.
    pub fn list(
        &self,
        tokens: &mut Tokens<'_>,
        rule: Rule,
        between: TokenKind,
        close: TokenKind,
    ) -> Tree
        requires { Nests self.now.depth (F.pre self.now.parse) }
    {
        let mut items = Trees::new(self.alloc);
        for _turn in 0..tokens.at.left() {
            if tokens.at.is(close) {
                break;
            }
            items.push(self.again(tokens, rule));
            if !tokens.at.eat(between) {
                break;
            }
        }
        tokens.expect(close);
        tokens.list(items)
    }
}

impl<'a> Tokens<'a> {
    /// Counts one more node upon what the rule at hand has made, as in `a.b.c`.
    pub fn link(&mut self) {
        let high = self.at.high().saturating_add(1);
        let _ = self.at.set_high(high);
        if high > MAX_HEIGHT {
            self.refuse_depth();
        }
    }
}
