//! The keywords that are types.
ghost use Rattle.std.specs.Prelude.{◌≡◌};
ghost use Rattle.fast_check_tree_helpers.specs.Keywords.{word_of};

use fast_check_tree_syntax::Word;

/// The keywords that are types.
#[derive(Clone, Copy, PartialEq, Eq, Debug)]
pub enum TsKeywordTypeKind {
    TsAnyKeyword,
    TsUnknownKeyword,
    TsNumberKeyword,
    TsObjectKeyword,
    TsBooleanKeyword,
    TsBigIntKeyword,
    TsStringKeyword,
    TsSymbolKeyword,
    TsVoidKeyword,
    TsUndefinedKeyword,
    TsNullKeyword,
    TsNeverKeyword,
    TsIntrinsicKeyword,
}

impl TsKeywordTypeKind {
    /// The word that stands for the keyword in a tree.
    pub fn word(self) -> Word
        ensures { result ≡ word_of self }
    {
        match self {
            TsKeywordTypeKind::TsAnyKeyword => Word::TsAnyKeyword,
            TsKeywordTypeKind::TsUnknownKeyword => Word::TsUnknownKeyword,
            TsKeywordTypeKind::TsNumberKeyword => Word::TsNumberKeyword,
            TsKeywordTypeKind::TsObjectKeyword => Word::TsObjectKeyword,
            TsKeywordTypeKind::TsBooleanKeyword => Word::TsBooleanKeyword,
            TsKeywordTypeKind::TsBigIntKeyword => Word::TsBigIntKeyword,
            TsKeywordTypeKind::TsStringKeyword => Word::TsStringKeyword,
            TsKeywordTypeKind::TsSymbolKeyword => Word::TsSymbolKeyword,
            TsKeywordTypeKind::TsVoidKeyword => Word::TsVoidKeyword,
            TsKeywordTypeKind::TsUndefinedKeyword => Word::TsUndefinedKeyword,
            TsKeywordTypeKind::TsNullKeyword => Word::TsNullKeyword,
            TsKeywordTypeKind::TsNeverKeyword => Word::TsNeverKeyword,
            TsKeywordTypeKind::TsIntrinsicKeyword => Word::TsIntrinsicKeyword,
        }
    }
}
