//! What the rows of the table are made of.
ghost use Rattle.std.specs.Prelude.{◌≡◌};
ghost use Rattle.fast_check_syntax_table.specs.Guards.{phrase_text};

use fast_check_tree_syntax::{Kind, Word};

/// How a form is written: as a whole, or in a way that some form asks of a part of its own.
#[derive(Clone, Copy, PartialEq, Eq)]
pub enum Slot {
    Whole,
    /// The decorators of a class or a method alone.
    Decorators,
    /// The modifiers of a class alone.
    Modifiers,
    /// The `async` of a function alone.
    Async,
    /// The `*` of a generator alone.
    Star,
    /// A class without its decorators.
    Bare,
    /// A declaration in the head of a `for`, which no `;` ends.
    Head,
    /// A name with a `!`.
    Definite,
    /// A member or a call after `?.`.
    Optional,
    /// The type parameter of a mapped type.
    In,
    /// A member of a class, where a `;` ends an index signature.
    Member,
}

/// A text that a guard compares with.
#[derive(Clone, Copy, PartialEq, Eq)]
pub enum Phrase {
    Defer,
    Source,
    NewTarget,
    ImportMeta,
    Plus,
    Minus,
}

impl Phrase {
    /// The text.
    pub fn text(self) -> &'static str
        ensures { result.now ≡ phrase_text self }
    {
        match self {
            Phrase::Defer => "defer",
            Phrase::Source => "source",
            Phrase::NewTarget => "new.target",
            Phrase::ImportMeta => "import.meta",
            Phrase::Plus => "+",
            Phrase::Minus => "-",
        }
    }
}

/// When a piece is written. A number is the place of a part of the node.
#[derive(Clone, Copy, PartialEq, Eq)]
pub enum When {
    Always,
    /// A flag is set, an option is there, a list or a text is not empty.
    Has(usize),
    Lacks(usize),
    /// An option of a list or of a range is there.
    There(usize),
    Gone(usize),
    /// The part is this word.
    Says(usize, Word),
    /// The part is this text.
    Reads(usize, Phrase),
    Is(usize, Kind),
    IsNot(usize, Kind),
    /// Neither of two flags is set.
    Neither(usize, usize),
    /// The node begins where the part does.
    Starts(usize),
    Follows(usize),
}

/// What is written. A number is the place of a part of the node.
#[derive(Clone, Copy, PartialEq, Eq)]
pub enum What {
    /// The text of the row, as one token.
    Mark,
    /// The same, which may be left out.
    May,
    /// The text that the part is, as one token.
    Text(usize),
    /// A name that means the part.
    Name(usize),
    /// The same after `#`.
    Private(usize),
    Number(usize),
    /// The text that the part is, as it is written.
    Raw(usize),
    /// The text of a template between its substitutions.
    Quasi(usize),
    /// A regular expression and its flags.
    Regex(usize, usize),
    /// The texts of a template and its substitutions.
    Template(usize, usize),
    /// A list with `,` between the items, and maybe one after the last.
    Listed(usize),
    /// A list with the text of the row between the items.
    Joined(usize),
    /// The members of a type.
    Members(usize),
    /// The items of an array, where some may be absent.
    Holes(usize),
    /// What an import brings, and `from`.
    Clause(usize),
    /// Names in braces, or `* as` one.
    Names(usize),
    /// `export`, the text of the row, and a declaration.
    Exported(usize),
    /// The parameters of an arrow function, and its return type.
    Arrow(usize, usize),
    /// `with` or `assert`.
    Attributes,
    Semicolon,
    Part(usize, Slot),
    /// What no text writes.
    Never,
}

/// A piece: when it is written, what it is, and its text.
pub type Piece = (When, What, &'static str);
