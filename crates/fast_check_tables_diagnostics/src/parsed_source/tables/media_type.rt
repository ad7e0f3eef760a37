//! The media types of modules.
ghost use Rattle.std.specs.Prelude.{◌≡◌};

/// What a module is written in, by the ending of its URL or by the type that a server gave it.
#[derive(Clone, Copy, Debug, PartialEq, Eq)]
pub enum MediaType {
    TypeScript,
    Mts,
    Cts,
    Tsx,
    Dts,
    Dmts,
    Dcts,
    JavaScript,
    Mjs,
    Cjs,
    Jsx,
    Unknown,
}

impl MediaType {
    ghost use Rattle.fast_check_tables_diagnostics.specs.parsed_source.MediaType.{is_declaration, is_typed};

    /// Whether such a module has declarations alone: TypeScript's `.d.ts`, `.d.mts` and `.d.cts`.
    pub fn is_declaration(self) -> bool
        ensures { result ≡ is_declaration self }
    {
        matches!(self, MediaType::Dts | MediaType::Dmts | MediaType::Dcts)
    }

    /// Whether such a module is written in TypeScript, so that it can have types.
    pub fn is_typed(self) -> bool
        ensures { result ≡ is_typed self }
    {
        matches!(
            self,
            MediaType::TypeScript | MediaType::Mts | MediaType::Cts | MediaType::Tsx
        ) || self.is_declaration()
    }
}
