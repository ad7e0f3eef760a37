//! What a function is of: a declaration, an expression or a member.
/// How a function came to be, which decides what an empty return class says of it.
#[derive(Clone, Copy, PartialEq, Eq, Debug)]
pub enum FunctionKind {
    /// A function declaration or a method: with no `return`, its type is `void`.
    DeclarationLike,
    /// A function expression or an arrow: with no `return`, its type may be `void` or `never`.
    ExpressionLike,
    /// A getter: its type has to be written, or named by the only `return` of its body.
    Getter,
    /// A setter: it has no type.
    Setter,
}
