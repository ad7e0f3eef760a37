//! The words that mean something somewhere in TypeScript.

/// A word of the language, or another name.
#[derive(Clone, Copy, PartialEq, Eq)]
pub enum Keyword {
    Other,
    Abstract,
    Accessor,
    Any,
    As,
    Asserts,
    Assert,
    Async,
    Await,
    Bigint,
    Boolean,
    Break,
    Case,
    Catch,
    Class,
    Const,
    Constructor,
    Continue,
    Debugger,
    Declare,
    Default,
    Delete,
    Do,
    Else,
    Enum,
    Export,
    Extends,
    False,
    Finally,
    For,
    From,
    Function,
    Get,
    Global,
    If,
    Implements,
    Import,
    In,
    Infer,
    Instanceof,
    Interface,
    Intrinsic,
    Is,
    Keyof,
    Let,
    Module,
    Namespace,
    Never,
    New,
    Null,
    Number,
    Object,
    Of,
    Out,
    Override,
    Package,
    Private,
    Protected,
    Public,
    Readonly,
    Require,
    Return,
    Satisfies,
    Set,
    Static,
    String,
    Super,
    Switch,
    Symbol,
    This,
    Throw,
    True,
    Try,
    Type,
    Typeof,
    Undefined,
    Unique,
    Unknown,
    Using,
    Var,
    Void,
    While,
    With,
    Yield,
}

// The words by their first letters.
const A: [(&[u8], Keyword); 8] = [
    (b"abstract", Keyword::Abstract),
    (b"accessor", Keyword::Accessor),
    (b"any", Keyword::Any),
    (b"as", Keyword::As),
    (b"assert", Keyword::Assert),
    (b"asserts", Keyword::Asserts),
    (b"async", Keyword::Async),
    (b"await", Keyword::Await),
];

const B: [(&[u8], Keyword); 3] = [
    (b"bigint", Keyword::Bigint),
    (b"boolean", Keyword::Boolean),
    (b"break", Keyword::Break),
];

const C: [(&[u8], Keyword); 6] = [
    (b"case", Keyword::Case),
    (b"catch", Keyword::Catch),
    (b"class", Keyword::Class),
    (b"const", Keyword::Const),
    (b"constructor", Keyword::Constructor),
    (b"continue", Keyword::Continue),
];

const D: [(&[u8], Keyword); 5] = [
    (b"debugger", Keyword::Debugger),
    (b"declare", Keyword::Declare),
    (b"default", Keyword::Default),
    (b"delete", Keyword::Delete),
    (b"do", Keyword::Do),
];

const E: [(&[u8], Keyword); 4] = [
    (b"else", Keyword::Else),
    (b"enum", Keyword::Enum),
    (b"export", Keyword::Export),
    (b"extends", Keyword::Extends),
];

const F: [(&[u8], Keyword); 5] = [
    (b"false", Keyword::False),
    (b"finally", Keyword::Finally),
    (b"for", Keyword::For),
    (b"from", Keyword::From),
    (b"function", Keyword::Function),
];

const G: [(&[u8], Keyword); 2] = [(b"get", Keyword::Get), (b"global", Keyword::Global)];

const I: [(&[u8], Keyword); 9] = [
    (b"if", Keyword::If),
    (b"implements", Keyword::Implements),
    (b"import", Keyword::Import),
    (b"in", Keyword::In),
    (b"infer", Keyword::Infer),
    (b"instanceof", Keyword::Instanceof),
    (b"interface", Keyword::Interface),
    (b"intrinsic", Keyword::Intrinsic),
    (b"is", Keyword::Is),
];

const K: [(&[u8], Keyword); 1] = [(b"keyof", Keyword::Keyof)];

const L: [(&[u8], Keyword); 1] = [(b"let", Keyword::Let)];

const M: [(&[u8], Keyword); 1] = [(b"module", Keyword::Module)];

const N: [(&[u8], Keyword); 5] = [
    (b"namespace", Keyword::Namespace),
    (b"never", Keyword::Never),
    (b"new", Keyword::New),
    (b"null", Keyword::Null),
    (b"number", Keyword::Number),
];

const O: [(&[u8], Keyword); 4] = [
    (b"object", Keyword::Object),
    (b"of", Keyword::Of),
    (b"out", Keyword::Out),
    (b"override", Keyword::Override),
];

const P: [(&[u8], Keyword); 4] = [
    (b"package", Keyword::Package),
    (b"private", Keyword::Private),
    (b"protected", Keyword::Protected),
    (b"public", Keyword::Public),
];

const R: [(&[u8], Keyword); 3] = [
    (b"readonly", Keyword::Readonly),
    (b"require", Keyword::Require),
    (b"return", Keyword::Return),
];

const S: [(&[u8], Keyword); 7] = [
    (b"satisfies", Keyword::Satisfies),
    (b"set", Keyword::Set),
    (b"static", Keyword::Static),
    (b"string", Keyword::String),
    (b"super", Keyword::Super),
    (b"switch", Keyword::Switch),
    (b"symbol", Keyword::Symbol),
];

const T: [(&[u8], Keyword); 6] = [
    (b"this", Keyword::This),
    (b"throw", Keyword::Throw),
    (b"true", Keyword::True),
    (b"try", Keyword::Try),
    (b"type", Keyword::Type),
    (b"typeof", Keyword::Typeof),
];

const U: [(&[u8], Keyword); 4] = [
    (b"undefined", Keyword::Undefined),
    (b"unique", Keyword::Unique),
    (b"unknown", Keyword::Unknown),
    (b"using", Keyword::Using),
];

const V: [(&[u8], Keyword); 2] = [(b"var", Keyword::Var), (b"void", Keyword::Void)];

const W: [(&[u8], Keyword); 2] = [(b"while", Keyword::While), (b"with", Keyword::With)];

const Y: [(&[u8], Keyword); 1] = [(b"yield", Keyword::Yield)];

// The words that begin with a letter.
fn words_with(first: u8) -> &'static [(&'static [u8], Keyword)] {
    match first {
        b'a' => &A,
        b'b' => &B,
        b'c' => &C,
        b'd' => &D,
        b'e' => &E,
        b'f' => &F,
        b'g' => &G,
        b'i' => &I,
        b'k' => &K,
        b'l' => &L,
        b'm' => &M,
        b'n' => &N,
        b'o' => &O,
        b'p' => &P,
        b'r' => &R,
        b's' => &S,
        b't' => &T,
        b'u' => &U,
        b'v' => &V,
        b'w' => &W,
        b'y' => &Y,
        _ => &[],
    }
}

/// Which word a text is.
pub fn keyword_of(text: &[u8]) -> Keyword {
    let Some(first) = text.first() else {
        return Keyword::Other;
    };
    for (word, keyword) in words_with(*first) {
        if *word == text {
            return *keyword;
        }
    }
    Keyword::Other
}
