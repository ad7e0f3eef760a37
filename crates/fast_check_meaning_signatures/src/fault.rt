//! A fault of the transform: its kind and its range.
use fast_check_tree_syntax::{Atom, SourceRange};

/// What is wrong with an item of a module, so that it has no skeleton.
#[derive(PartialEq, Eq, Debug, Drop)]
pub enum FaultKind {
    /// A public symbol has no type that is written, or that its value shows.
    MissingExplicitType,
    /// A public function has no return type that is written, or that its body shows.
    MissingExplicitReturnType {
        /// Whether it is a function expression or an arrow without return statement, so that it returns no value.
        is_definitely_void_or_never: bool,
        is_async: bool,
    },
    /// A pattern takes a value apart, where a public variable, a parameter or a parameter property has to have a name.
    UnsupportedDestructuring,
    /// A public class extends an expression that is no name and no chain of members on one.
    UnsupportedSuperClassExpr,
    /// A public default export is an expression that gives no type by itself.
    UnsupportedDefaultExportExpr,
    /// `using` declares something public.
    UnsupportedUsing,
    /// `import x = require(..)`.
    UnsupportedRequire,
    /// `export = x`.
    UnsupportedTsExportAssignment,
    /// `export as namespace x`.
    UnsupportedTsNamespaceExport,
    /// `declare global {}`.
    UnsupportedGlobalModule,
    /// `declare module "x" {}`, or a namespace without a body.
    UnsupportedAmbientModule,
    /// The value of an expando property mentions a name that its object exports, as in `f.a = 1; f.b = a;`.
    UnsupportedExpandoProperty {
        object_name: Atom,
        /// The name that the value mentions.
        reference_name: Atom,
    },
}

/// A fault with its place in the source.
#[derive(PartialEq, Eq, Debug, Drop)]
pub struct Fault {
    pub kind: FaultKind,
    pub range: SourceRange,
}
