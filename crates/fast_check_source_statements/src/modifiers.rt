//! The words before a member of a class or before a parameter.
use fast_check_source_grammar::{Cursor, Tokens};
use fast_check_source_lexer::{Keyword, TokenKind};
use fast_check_tree_syntax::{Tree, Word as Form};

/// The words before a member of a class or before a parameter.
#[derive(Clone, Copy)]
pub struct Modifiers {
    pub access: Option<Form>,
    pub is_static: bool,
    pub is_abstract: bool,
    pub is_override: bool,
    pub readonly: bool,
    pub declare: bool,
    pub is_async: bool,
    pub accessor: bool,
}

const NONE: Modifiers = Modifiers {
    access: None,
    is_static: false,
    is_abstract: false,
    is_override: false,
    readonly: false,
    declare: false,
    is_async: false,
    accessor: false,
};

fn accessible(access: Form, marks: Modifiers) -> Modifiers {
    Modifiers {
        access: Some(access),
        ..marks
    }
}

impl Modifiers {
    // The modifiers with one more, if a word is one that does not stand among them.
    fn with(self, word: Keyword) -> Option<Modifiers> {
        if self.holds(word) {
            return None;
        }
        match word {
            Keyword::Public => Some(accessible(Form::Public, self)),
            Keyword::Protected => Some(accessible(Form::Protected, self)),
            Keyword::Private => Some(accessible(Form::Private, self)),
            Keyword::Static => Some(Modifiers {
                is_static: true,
                ..self
            }),
            Keyword::Abstract => Some(Modifiers {
                is_abstract: true,
                ..self
            }),
            Keyword::Override => Some(Modifiers {
                is_override: true,
                ..self
            }),
            Keyword::Readonly => Some(Modifiers {
                readonly: true,
                ..self
            }),
            Keyword::Declare => Some(Modifiers {
                declare: true,
                ..self
            }),
            Keyword::Async => Some(Modifiers {
                is_async: true,
                ..self
            }),
            Keyword::Accessor => Some(Modifiers {
                accessor: true,
                ..self
            }),
            _ => None,
        }
    }

    // Whether a word stands among the modifiers, or one that excludes it.
    fn holds(self, word: Keyword) -> bool {
        match word {
            Keyword::Public | Keyword::Protected | Keyword::Private => self.access.is_some(),
            Keyword::Static => self.is_static,
            Keyword::Abstract => self.is_abstract,
            Keyword::Override => self.is_override,
            Keyword::Readonly => self.readonly,
            Keyword::Declare => self.declare,
            Keyword::Async => self.is_async,
            Keyword::Accessor => self.accessor,
            _ => false,
        }
    }

    /// Whether a constructor can have these modifiers.
    pub fn fit_constructor(self) -> bool {
        self.fit_parameter() && !self.is_override && !self.readonly
    }

    /// Whether a parameter of a constructor can have these modifiers.
    pub fn fit_parameter(self) -> bool {
        !self.is_static && !self.is_abstract && !self.declare && !self.is_async && !self.accessor
    }

    /// Whether an index signature of a class can have these modifiers.
    pub fn fit_index(self) -> bool {
        self.access.is_none()
            && !self.is_abstract
            && !self.is_override
            && !self.declare
            && !self.is_async
            && !self.accessor
    }

    /// Whether a method, a getter or a setter can have these modifiers.
    pub fn fit_method(self, kind: Form) -> bool {
        let waits = self.is_async && kind != Form::Method;
        !self.readonly && !self.declare && !self.accessor && !waits
    }

    /// Whether a property can have these modifiers, which may be one with `accessor` or one with a private name.
    pub fn fit_property(self, is_private: bool) -> bool {
        let fits_accessor = !self.accessor || !self.readonly && !self.declare;
        let fits_private = !is_private || !self.is_abstract && !self.declare;
        !self.is_async && fits_accessor && fits_private
    }

    /// `public`, `protected` or `private`, or nothing.
    pub fn accessibility(self) -> Tree {
        match self.access {
            Some(form) => Tree::Word(form),
            None => Tree::Absent,
        }
    }

    /// Whether a parameter with these modifiers is a property too.
    pub fn declares_property(self) -> bool {
        self.access.is_some() || self.readonly || self.is_override
    }
}

// Whether a key, or what begins a method, stands behind a word, so that the word is a modifier and no key.
fn is_before_key(at: Cursor<'_>, may_break: bool) -> bool {
    let next = at.second();
    (may_break || !next.newline())
        && matches!(
            next.kind(),
            TokenKind::Name
                | TokenKind::PrivateName
                | TokenKind::String
                | TokenKind::Number
                | TokenKind::BigInt
                | TokenKind::LBracket
                | TokenKind::Star
        )
}

/// The modifiers of a member, which are passed. A word that stands among them already is its key.
pub fn member_modifiers(tokens: &mut Tokens<'_>) -> Modifiers {
    let mut found = NONE;
    for _turn in 0..tokens.at.left() {
        let Some(more) = found.with(tokens.at.word()) else {
            break;
        };
        let is_static = tokens.at.is_word(Keyword::Static);
        if !is_before_key(tokens.at, is_static) {
            break;
        }
        found = more;
        tokens.at.advance();
    }
    found
}

/// The modifiers of a parameter of a constructor, which are passed.
pub fn param_modifiers(tokens: &mut Tokens<'_>) -> Modifiers {
    let mut found = NONE;
    for _turn in 0..tokens.at.left() {
        let Some(more) = found.with(tokens.at.word()) else {
            break;
        };
        let next = tokens.at.second();
        let follows = matches!(
            next.kind(),
            TokenKind::Name | TokenKind::LBrace | TokenKind::LBracket
        );
        if next.newline() || !follows {
            break;
        }
        found = more;
        tokens.at.advance();
    }
    found
}

/// `Getter` or `Setter` behind `get` or `set`, which is passed, or `Method`.
pub fn method_kind(tokens: &mut Tokens<'_>) -> Form {
    let form = match tokens.at.word() {
        Keyword::Get => Form::Getter,
        Keyword::Set => Form::Setter,
        _ => return Form::Method,
    };
    if is_before_key(tokens.at, true) && !tokens.at.second().is(TokenKind::Star) {
        tokens.at.advance();
        form
    } else {
        Form::Method
    }
}
