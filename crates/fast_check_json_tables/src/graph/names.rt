//! Numbers and names of symbols, ranges and modules.

ghost use Rattle.fast_check_json_tables.specs.graph.Reads.{symbol_id_of, context_of, id_of, url_of};
ghost use Rattle.fast_check_read.specs.Pieces.{range_of_data};

use crate::graph::from_json::FromJson;
use fast_check_read::{ReadError, read_pair, read_range, read_text, read_u32};
use fast_check_tables_symbols::SymbolId;
use fast_check_tree_syntax::{Atom, Id, SourceRange, SyntaxContext};
use serde_json::Value;
use std::alloc::Global;
use url::{ParseError, Url};

impl FromJson for SymbolId {
    ghost use Rattle.fast_check_tables_symbols.specs.declared.symbol_id.SymbolId.{SymbolId};

    ghost Seen = { SymbolId };

    ghost seen = { λ id. id };

    ghost read_of = { symbol_id_of };

    fn from_json(_alloc: Global, value: &Value) -> Result<SymbolId, ReadError> {
        Ok(SymbolId(read_u32(value)?))
    }
}

/// An array of a text and a scope number.
impl FromJson for Id {
    ghost use Rattle.fast_check_tree_syntax.specs.declared.atom.Id.{Id};

    ghost Seen = { Id };

    ghost seen = { λ id. id };

    ghost read_of = { id_of };

    fn from_json(alloc: Global, value: &Value) -> Result<Id, ReadError> {
        let (sym, context) = read_pair(value)?;
        let sym = read_text(sym)?;
        let context = SyntaxContext(read_u32(context)?);
        Ok(Id(Atom::from_str(alloc, sym)?, context))
    }
}

impl FromJson for SyntaxContext {
    ghost use Rattle.fast_check_tree_syntax.specs.declared.source.SyntaxContext.{SyntaxContext};

    ghost Seen = { SyntaxContext };

    ghost seen = { λ context. context };

    ghost read_of = { context_of };

    fn from_json(_alloc: Global, value: &Value) -> Result<SyntaxContext, ReadError> {
        Ok(SyntaxContext(read_u32(value)?))
    }
}

impl FromJson for SourceRange {
    ghost use Rattle.fast_check_tree_syntax.specs.declared.source.SourceRange.{SourceRange};

    ghost Seen = { SourceRange };

    ghost seen = { λ range. range };

    ghost read_of = { range_of_data };

    fn from_json(_alloc: Global, value: &Value) -> Result<SourceRange, ReadError> {
        read_range(value)
    }
}

/// A text that is a URL.
impl FromJson for Url {
    ghost use Rattle.url.specs.Parts.{Parts};

    ghost Seen = { Parts };

    ghost seen = { λ url. url };

    ghost read_of = { url_of };

    fn from_json(alloc: Global, value: &Value) -> Result<Url, ReadError> {
        match Url::parse(alloc, read_text(value)?) {
            Ok(url) => Ok(url),
            Err(ParseError::OutOfMemory | ParseError::Overflow) => Err(ReadError::OutOfMemory),
            Err(_) => Err(ReadError::BadForm),
        }
    }
}
