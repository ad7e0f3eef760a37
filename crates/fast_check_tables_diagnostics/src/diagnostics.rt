//! Why a module has no skeleton, and how that is reported.
ghost use Rattle.std.specs.Prelude.{◌≡◌, Some};
ghost use Rattle.std.specs.Option.{option_copied};

mod copies;
mod range;
mod shown;
mod texts;
mod view;

use crate::diagnostics::texts::Texts;
pub use range::FastCheckDiagnosticRange;
use std::alloc::AllocError;
use std::error::Error;
use std::fmt;
use url::Url;
pub use view::{Diagnostic, DiagnosticLevel, DiagnosticLocation, DiagnosticSnippet};

/// Why a module has no skeleton. It prints as its message.
#[derive(Debug, Drop)]
pub enum FastCheckDiagnostic {
    /// A public declaration refers to a member of a class or a namespace that is not there.
    NotFoundReference {
        /// The first declaration of the class or the namespace.
        range: FastCheckDiagnosticRange,
        /// The whole name, as `C.prototype.m`.
        name: String,
        /// The whole name of what refers to it.
        referrer: String,
    },
    /// A public declaration without written type, from whose value none is inferred.
    MissingExplicitType {
        range: FastCheckDiagnosticRange,
    },
    /// A public function without written return type, from whose body none is inferred.
    MissingExplicitReturnType {
        range: FastCheckDiagnosticRange,
        /// Whether it is a function expression or an arrow without return statement, so that it returns no value.
        is_definitely_void_or_never: bool,
        is_async: bool,
    },
    /// A module that is declared by a text, as in `declare module "name" {}`.
    UnsupportedAmbientModule {
        range: FastCheckDiagnosticRange,
    },
    /// A public declaration refers to a part of a class's member.
    UnsupportedComplexReference {
        /// The first declaration of the class.
        range: FastCheckDiagnosticRange,
        /// The whole name, as `C.prototype.m.x`.
        name: String,
        /// The whole name of what refers to it.
        referrer: String,
    },
    /// A default export of an expression, from which no type is inferred.
    UnsupportedDefaultExportExpr {
        range: FastCheckDiagnosticRange,
    },
    /// A pattern that takes a value apart, where a public variable, a parameter or a parameter property has to have a name.
    UnsupportedDestructuring {
        range: FastCheckDiagnosticRange,
    },
    /// The value of an expando property mentions a name that the same object has as such a property, as in `f.a = 1; f.b = a;`.
    UnsupportedExpandoProperty {
        /// The name in the value.
        range: FastCheckDiagnosticRange,
        object_name: String,
        /// The name that the value mentions.
        reference_name: String,
    },
    /// A `declare global {}`.
    UnsupportedGlobalModule {
        range: FastCheckDiagnosticRange,
    },
    /// An `import name = require("..")`.
    UnsupportedRequire {
        range: FastCheckDiagnosticRange,
    },
    /// A public declaration refers to a private member of a class.
    UnsupportedPrivateMemberReference {
        /// The member's first declaration.
        range: FastCheckDiagnosticRange,
        /// The member's whole name.
        name: String,
        /// The whole name of what refers to it.
        referrer: String,
    },
    /// A public class extends an expression that is not followed.
    UnsupportedSuperClassExpr {
        range: FastCheckDiagnosticRange,
    },
    /// An `export = name;`.
    UnsupportedTsExportAssignment {
        range: FastCheckDiagnosticRange,
    },
    /// An `export as namespace name;`.
    UnsupportedTsNamespaceExport {
        range: FastCheckDiagnosticRange,
    },
    /// A public `using` declaration.
    UnsupportedUsing {
        range: FastCheckDiagnosticRange,
    },
    /// A typed module depends on a JavaScript module that has no declarations.
    UnsupportedNestedJavaScript {
        specifier: Url,
    },
    /// An entry point of a package is a JavaScript module that has no declarations.
    UnsupportedJavaScriptEntrypoint {
        specifier: Url,
    },
    /// The text of a skeleton could not be written.
    Emit {
        specifier: Url,
        /// The text of the error.
        inner: String,
    },
    /// An entry point is not found.
    ExportNotFound {
        specifier: Url,
    },
    /// A cache item says of the module that it had a diagnostic, and not which.
    Cached {
        specifier: Url,
    },
}

/// What a diagnostic speaks of: a part of a module's source text, or a module as a whole.
enum Subject<'a> {
    Range(&'a FastCheckDiagnosticRange),
    Module(&'a Url),
}

impl FastCheckDiagnostic {
    ghost use Rattle.fast_check_tables_diagnostics.specs.KindTexts.{shown_texts, texts_of};
    ghost use Rattle.fast_check_tables_diagnostics.specs.Subject.{shown_subject};
    ghost use Rattle.fast_check_tables_diagnostics.specs.Diagnostic.{specifier_of, range_of, report_of};

    /// The module that it speaks of.
    pub fn specifier(&self) -> &Url
        ensures { result.now ≡ specifier_of self.now }
    {
        match self.subject() {
            Subject::Range(range) => &range.specifier,
            Subject::Module(specifier) => specifier,
        }
    }

    /// The part of the source text that it speaks of, if it speaks of one.
    pub fn range(&self) -> Option<&FastCheckDiagnosticRange>
        ensures { option_copied result ≡ range_of self.now }
    {
        match self.subject() {
            Subject::Range(range) => Some(range),
            Subject::Module(_) => None,
        }
    }

    /// What that part of the source text is to the reader. None where nothing is to be said, or where there is no such part.
    pub fn range_description(&self) -> Option<&'static str>
        ensures { option_copied result ≡ (report_of self.now).range_description }
    {
        self.texts().range_description
    }

    fn subject(&self) -> Subject<'_>
        ensures { shown_subject result ≡ (report_of self.now).subject }
    {
        match self {
            Self::NotFoundReference { range, .. }
            | Self::MissingExplicitType { range }
            | Self::MissingExplicitReturnType { range, .. }
            | Self::UnsupportedAmbientModule { range }
            | Self::UnsupportedComplexReference { range, .. }
            | Self::UnsupportedDefaultExportExpr { range }
            | Self::UnsupportedDestructuring { range }
            | Self::UnsupportedExpandoProperty { range, .. }
            | Self::UnsupportedGlobalModule { range }
            | Self::UnsupportedRequire { range }
            | Self::UnsupportedPrivateMemberReference { range, .. }
            | Self::UnsupportedSuperClassExpr { range }
            | Self::UnsupportedTsExportAssignment { range }
            | Self::UnsupportedTsNamespaceExport { range }
            | Self::UnsupportedUsing { range } => Subject::Range(range),
            Self::UnsupportedNestedJavaScript { specifier }
            | Self::UnsupportedJavaScriptEntrypoint { specifier }
            | Self::Emit { specifier, .. }
            | Self::ExportNotFound { specifier }
            | Self::Cached { specifier } => Subject::Module(specifier),
        }
    }

    fn texts(&self) -> &'static Texts
        ensures { shown_texts result.now ≡ texts_of self.now }
    {
        match self {
            Self::NotFoundReference { .. } => &texts::NOT_FOUND_REFERENCE,
            Self::MissingExplicitType { .. } => &texts::MISSING_EXPLICIT_TYPE,
            Self::MissingExplicitReturnType { .. } => &texts::MISSING_EXPLICIT_RETURN_TYPE,
            Self::UnsupportedAmbientModule { .. } => &texts::UNSUPPORTED_AMBIENT_MODULE,
            Self::UnsupportedComplexReference { .. } => &texts::UNSUPPORTED_COMPLEX_REFERENCE,
            Self::UnsupportedDefaultExportExpr { .. } => &texts::UNSUPPORTED_DEFAULT_EXPORT_EXPR,
            Self::UnsupportedDestructuring { .. } => &texts::UNSUPPORTED_DESTRUCTURING,
            Self::UnsupportedExpandoProperty { .. } => &texts::UNSUPPORTED_EXPANDO_PROPERTY,
            Self::UnsupportedGlobalModule { .. } => &texts::UNSUPPORTED_GLOBAL_MODULE,
            Self::UnsupportedRequire { .. } => &texts::UNSUPPORTED_REQUIRE,
            Self::UnsupportedPrivateMemberReference { .. } =>
                &texts::UNSUPPORTED_PRIVATE_MEMBER_REFERENCE,
            Self::UnsupportedSuperClassExpr { .. } => &texts::UNSUPPORTED_SUPER_CLASS_EXPR,
            Self::UnsupportedTsExportAssignment { .. } => &texts::UNSUPPORTED_TS_EXPORT_ASSIGNMENT,
            Self::UnsupportedTsNamespaceExport { .. } => &texts::UNSUPPORTED_TS_NAMESPACE_EXPORT,
            Self::UnsupportedUsing { .. } => &texts::UNSUPPORTED_USING,
            Self::UnsupportedNestedJavaScript { .. } => &texts::UNSUPPORTED_NESTED_JAVASCRIPT,
            Self::UnsupportedJavaScriptEntrypoint { .. } =>
                &texts::UNSUPPORTED_JAVASCRIPT_ENTRYPOINT,
            Self::Emit { .. } => &texts::EMIT,
            Self::ExportNotFound { .. } => &texts::EXPORT_NOT_FOUND,
            Self::Cached { .. } => &texts::CACHED,
        }
    }
}

impl fmt::Display for FastCheckDiagnostic {
    ghost use Rattle.fast_check_tables_diagnostics.specs.Diagnostic.{report_of};

    ghost output = { λ diagnostic. Some (report_of diagnostic).message };

    // Written by forms/write.py from forms/diagnostics.txt, up to the closing bracket.
    fn fmt<W: fmt::Write>(&self, f: &mut fmt::Formatter<W>) -> fmt::Result {
        match self {
            Self::NotFoundReference { name, referrer, .. } => write!(
                f,
                "could not resolve '{name}' referenced from '{referrer}'"
            ),
            Self::UnsupportedComplexReference { name, referrer, .. } => write!(
                f,
                "the reference '{name}' from '{referrer}' was too complex"
            ),
            Self::UnsupportedExpandoProperty {
                object_name,
                reference_name,
                ..
            } => write!(
                f,
                "expando property referencing '{reference_name}' conflicts with '{object_name}.{reference_name}'"
            ),
            Self::UnsupportedPrivateMemberReference { name, referrer, .. } => write!(
                f,
                "public API member ({referrer}) is referencing or transitively referencing a class private member ({name})"
            ),
            Self::Emit { inner, .. } => write!(f, "failed to emit fast check module: {inner}"),
            Self::ExportNotFound { specifier } => write!(f, "export not found: {specifier}"),
            _ => f.write_str(self.texts().message),
        }
    }
}

impl Error for FastCheckDiagnostic {}
