//! The texts that every diagnostic of a kind has.

/// The texts of a kind that are the same for each of its diagnostics.
pub(crate) struct Texts {
    /// The name of the kind, in lower case with hyphens.
    pub code: &'static str,
    /// What is wrong. Empty where it goes by what the diagnostic holds.
    pub message: &'static str,
    /// What the range is to the reader. None where nothing is to be said, or where there is no range.
    pub range_description: Option<&'static str>,
    /// What can be done about it. None where it goes by what the diagnostic holds.
    pub hint: Option<&'static str>,
    /// Lines that say more. None where they go by what the diagnostic holds.
    pub info: &'static [&'static str],
}

// What follows is written by forms/write.py from forms/diagnostics.txt.

pub(crate) const MAY_BE_A_BUG: &str =
    "this error may be the result of a bug in Deno - if you think this is the case, please open an issue";

pub(crate) const IS_A_BUG: &str =
    "this error is the result of a bug in Deno and you don't be seeing it - please open an issue if one doesn't exist";

pub(crate) const NEEDS_INFERENCE: &str =
    "JavaScript files with no corresponding declaration require type inference to be type checked";

pub(crate) const DECLARE_OR_REWRITE: &str =
    "add a type declaration (d.ts) for the JavaScript module, or rewrite it to TypeScript";

pub(crate) const IS_REFERENCE: &str = "this is the reference";

pub(crate) const RETURN_TYPE: &str = "add an explicit return type to the function";

pub(crate) const RETURN_NOTHING: &str =
    "add an explicit return type of 'void' or 'never' to the function";

pub(crate) const RETURN_PROMISE: &str =
    "add an explicit return type of 'Promise<void>' or 'Promise<never>' to the function";

pub(crate) const NEEDS_RETURN_TYPE: &str =
    "all functions in the public API must have an explicit return type";

pub(crate) const NO_RETURNS: &str =
    "this function has no return statements, so a return type could not be inferred automatically";

pub(crate) const NOTHING_RETURNED: &str =
    "function expressions without a return statement can have a return type of either 'void' or 'never'";

pub(crate) const PROMISE_RETURNED: &str =
    "async function expressions without a return statement can have a return type of either 'Promise<void>' or 'Promise<never>'";

pub(crate) static NOT_FOUND_REFERENCE: Texts = Texts {
    code: "not-found-reference",
    message: "",
    range_description: Some(IS_REFERENCE),
    hint: Some("fix the reference to point to a symbol that exists"),
    info: &[MAY_BE_A_BUG],
};

pub(crate) static MISSING_EXPLICIT_TYPE: Texts = Texts {
    code: "missing-explicit-type",
    message: "missing explicit type in the public API",
    range_description: Some("this symbol is missing an explicit type"),
    hint: Some("add an explicit type annotation to the symbol"),
    info: &["all symbols in the public API must have an explicit type"],
};

pub(crate) static MISSING_EXPLICIT_RETURN_TYPE: Texts = Texts {
    code: "missing-explicit-return-type",
    message: "missing explicit return type in the public API",
    range_description: Some("this function is missing an explicit return type"),
    hint: None,
    info: &[],
};

pub(crate) static UNSUPPORTED_AMBIENT_MODULE: Texts = Texts {
    code: "unsupported-ambient-module",
    message: "found an ambient module, which is a global augmentation, which are not unsupported",
    range_description: None,
    hint: Some("remove the ambient module declaration"),
    info: &[
        "ambient modules are not supported because they can modify the types of a module from outside of that module",
    ],
};

pub(crate) static UNSUPPORTED_COMPLEX_REFERENCE: Texts = Texts {
    code: "unsupported-complex-reference",
    message: "",
    range_description: Some(IS_REFERENCE),
    hint: Some("extract the shared type to a type alias and reference the type alias instead"),
    info: &["the reference was too complex to be resolved by fast check"],
};

pub(crate) static UNSUPPORTED_DEFAULT_EXPORT_EXPR: Texts = Texts {
    code: "unsupported-default-export-expr",
    message: "default export expression was too complex",
    range_description: None,
    hint: Some(
        "add an 'as' clause with an explicit type after the expression, or extract to a variable",
    ),
    info: &["fast check was unable to infer the type of the default export expression"],
};

pub(crate) static UNSUPPORTED_DESTRUCTURING: Texts = Texts {
    code: "unsupported-destructuring",
    message: "found destructuring, which is not supported in the public API",
    range_description: None,
    hint: Some("separate each destructured symbol into its own export statement"),
    info: &["destructuring can not be inferred by fast check"],
};

pub(crate) static UNSUPPORTED_EXPANDO_PROPERTY: Texts = Texts {
    code: "unsupported-expando-property",
    message: "",
    range_description: None,
    hint: None,
    info: &[
        "expando properties get converted to a namespace and the reference conflicts with a namespace export",
    ],
};

pub(crate) static UNSUPPORTED_GLOBAL_MODULE: Texts = Texts {
    code: "unsupported-global-module",
    message: "found global augmentations, which are not supported",
    range_description: None,
    hint: Some("remove the 'global' augmentation"),
    info: &[
        "global augmentations are not supported because they can modify global types, which can affect other modules type checking",
    ],
};

pub(crate) static UNSUPPORTED_REQUIRE: Texts = Texts {
    code: "unsupported-require",
    message: "require statements are a CommonJS feature, which are not supported in ES modules",
    range_description: None,
    hint: Some("use an import statement instead"),
    info: &["CommonJS features such as require are not supported in ES modules"],
};

pub(crate) static UNSUPPORTED_PRIVATE_MEMBER_REFERENCE: Texts = Texts {
    code: "unsupported-private-member-reference",
    message: "",
    range_description: Some(IS_REFERENCE),
    hint: Some(
        "extract the type of the private member to a type alias and reference the type alias instead",
    ),
    info: &[
        "private members can not be referenced from public API members",
        "this is because fast check removes private members from the types",
    ],
};

pub(crate) static UNSUPPORTED_SUPER_CLASS_EXPR: Texts = Texts {
    code: "unsupported-super-class-expr",
    message: "super class expression was too complex",
    range_description: Some("this is the superclass expression"),
    hint: Some("extract the superclass expression into a variable"),
    info: &["fast check was unable to infer the type of the superclass expression"],
};

pub(crate) static UNSUPPORTED_TS_EXPORT_ASSIGNMENT: Texts = Texts {
    code: "unsupported-ts-export-assignment",
    message: "export assignments are a Common JS feature, which are not supported in ES modules",
    range_description: None,
    hint: Some("use an export statement instead"),
    info: &["CommonJS features such as export assignments are not supported in ES modules"],
};

pub(crate) static UNSUPPORTED_TS_NAMESPACE_EXPORT: Texts = Texts {
    code: "unsupported-ts-namespace-export",
    message: "found namespace export, which is a global augmentation, which are not unsupported",
    range_description: None,
    hint: Some("remove the namespace export"),
    info: &[
        "namespace exports are not supported because they can modify the types of a module from outside of that module",
    ],
};

pub(crate) static UNSUPPORTED_USING: Texts = Texts {
    code: "unsupported-using",
    message: "using declarations are not supproted in the public API",
    range_description: None,
    hint: Some("use 'const' instead of 'using'"),
    info: &[
        "using declarations have unclear semantics in the public API",
        "they are thus not supported in the public API",
    ],
};

pub(crate) static UNSUPPORTED_NESTED_JAVASCRIPT: Texts = Texts {
    code: "unsupported-nested-javascript",
    message: "referenced a JavaScript module without type declarations from a TypeScript module",
    range_description: None,
    hint: Some(DECLARE_OR_REWRITE),
    info: &[
        NEEDS_INFERENCE,
        "fast check avoids type inference, so referencing a JavaScript file with no type declarations is not supported",
    ],
};

pub(crate) static UNSUPPORTED_JAVASCRIPT_ENTRYPOINT: Texts = Texts {
    code: "unsupported-javascript-entrypoint",
    message: "used a JavaScript module without type declarations as an entrypoint",
    range_description: None,
    hint: Some(DECLARE_OR_REWRITE),
    info: &[
        NEEDS_INFERENCE,
        "fast check avoids type inference, so JavaScript entrypoints should be avoided",
    ],
};

pub(crate) static EMIT: Texts = Texts {
    code: "emit",
    message: "",
    range_description: None,
    hint: Some(MAY_BE_A_BUG),
    info: &[MAY_BE_A_BUG],
};

pub(crate) static EXPORT_NOT_FOUND: Texts = Texts {
    code: "export-not-found",
    message: "",
    range_description: None,
    hint: Some(IS_A_BUG),
    info: &[IS_A_BUG],
};

pub(crate) static CACHED: Texts = Texts {
    code: "cached",
    message: "diagnostic was cached",
    range_description: None,
    hint: Some(IS_A_BUG),
    info: &[IS_A_BUG],
};
