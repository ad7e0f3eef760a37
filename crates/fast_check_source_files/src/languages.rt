//! What files are written in.
ghost use Rattle.std.specs.Prelude.{◌≡◌, ◌↔◌, IsTrue};
ghost use Rattle.fast_check_source_files.specs.Languages.{IsDeclarations, IsTypeScript, IsJavaScript, IsLanguage};

/// What a file is written in.
#[derive(Clone, Copy, PartialEq, Eq)]
pub enum Language {
    TypeScript,
    Declarations,
    JavaScript,
    Other,
}

fn is_declarations(name: &str) -> bool
    ensures { IsTrue result ↔ IsDeclarations name.now }
{
    name.ends_with(".d.ts") || name.ends_with(".d.mts") || name.ends_with(".d.cts")
}

fn is_typescript(name: &str) -> bool
    ensures { IsTrue result ↔ IsTypeScript name.now }
{
    name.ends_with(".ts")
        || name.ends_with(".tsx")
        || name.ends_with(".mts")
        || name.ends_with(".cts")
}

fn is_javascript(name: &str) -> bool
    ensures { IsTrue result ↔ IsJavaScript name.now }
{
    name.ends_with(".js")
        || name.ends_with(".jsx")
        || name.ends_with(".mjs")
        || name.ends_with(".cjs")
}

/// What a file is written in, by its name.
pub fn language_of(name: &str) -> Language
    ensures { IsLanguage name.now result }
{
    if is_declarations(name) {
        Language::Declarations
    } else if is_typescript(name) {
        Language::TypeScript
    } else if is_javascript(name) {
        Language::JavaScript
    } else {
        Language::Other
    }
}
