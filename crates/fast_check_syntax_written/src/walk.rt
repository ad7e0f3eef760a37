//! A walk along a text by what a tree writes.
ghost use Rattle.std.specs.Prelude.{◌≡◌, ◌≢◌, ◌+◌, ◌≤◌, length, IsTrue, IsFalse, IfSome, map, codes};
ghost use Rattle.fast_check_tree_syntax.specs.Shape.{kind_of, part as part_of, text_of, is_absent};
ghost use Rattle.fast_check_tree_syntax.specs.declared.kind.Kind.TheVariants.{Leaf};
ghost use Rattle.fast_check_syntax_table.specs.declared.piece.Slot.TheVariants.{Whole};
ghost use Rattle.fast_check_tree_syntax.specs.Part.{seen};
ghost use Rattle.fast_check_source_lexer.specs.Gaps.{IsGap};
ghost use Rattle.fast_check_syntax_table.specs.Rows.{row as row_of};
ghost use Rattle.fast_check_syntax_table.specs.Spelled.{Nothing, Gap, Bytes, Lines, Escaped, Ended, Apart, Then, Either, token, may as may_be, name as name_of, private_name, number as number_of, raw as raw_of, regex as regex_of, semicolon as semicolon_of};
ghost use Rattle.fast_check_syntax_table.specs.Lists.{each, rest as rest_of, joined as joined_of, listed as listed_of, members as members_of, comma_after as comma_after_of, holes as holes_of, braces as braces_of, is_star as it_is_star, names as names_of, after_default as after_default_of, is_default as it_is_default, with_default as with_default_of, bindings as bindings_of, clause as clause_of, texts as texts_of, template as template_of, parenthesized as parenthesized_of};
ghost use Rattle.fast_check_syntax_table.specs.Written.{ways, written, export as export_of, exported as exported_of, arrow as arrow_of, piece as piece_of, row_syntax, rows_syntax, IsWritten};
ghost use Rattle.fast_check_syntax_written.specs.Passes.{Passes, wholes, in_way};

use crate::guards::{is_lone, is_so};
use crate::place::Walk;
use crate::reads::{is_apart, is_ended, may_end, past_escaped, past_lines, reads};
use fast_check_source_lexer::Source;
use fast_check_syntax_table::{Piece, Slot, What, pieces};
use fast_check_tree_syntax::{Kind, Part, Tree};

impl<'a> Walk<'a> {
    fn new(text: &'a str) -> Option<Walk<'a>>
        ensures { IfSome result (λ walk. (walk.source.text.now ≡ text.now) × (walk.end ≡ 0)) }
    {
        let source = Source::new(text)?;
        Some(Walk { source, end: 0 })
    }

    fn go_to(&mut self, end: usize)
        requires { end ≤ length self.now.source.text.now }
        ensures source { self.new.source ≡ self.old.source }
        ensures end { self.new.end ≡ end }
    {
        *self = Walk {
            source: self.source,
            end,
        };
    }

    // Passes white space and comments.
    fn gap(&mut self)
        ensures { Passes Gap self.old self.new }
    {
        let start = self.source.scan(self.end).start;
        self.go_to(start);
    }

    // Passes these bytes, if they stand here.
    fn bytes(&mut self, s: &str) -> bool
        ensures { IsTrue result → Passes (Bytes s.now) self.old self.new }
    {
        if !reads(self.source.text().as_bytes(), self.end, s.as_bytes()) {
            return false;
        }
        self.go_to(self.end + s.len());
        true
    }

    fn ended(&self) -> bool
        ensures { IsTrue result → Passes Ended self.now self.now }
    {
        is_ended(self.source, self.end)
    }

    // Passes the next token, if it is this one.
    fn mark(&mut self, s: &str) -> bool
        ensures found { IsTrue result → Passes (token s.now) self.old self.new }
        ensures kept { IsFalse result → self.new ≡ self.old }
    {
        let start = self.source.scan(self.end).start;
        if !reads(self.source.text().as_bytes(), start, s.as_bytes()) {
            return false;
        }
        let end = start + s.len();
        if !is_apart(self.source, s.as_bytes(), end) {
            return false;
        }
        self.go_to(end);
        true
    }

    // Passes the next token, if it is this one.
    fn may(&mut self, s: &str)
        ensures { Passes (may_be s.now) self.old self.new }
    {
        let _ = self.mark(s);
    }

    // Passes a name with an escape, if one stands here.
    fn escaped(&mut self) -> bool
        ensures { IsTrue result → Passes (Then Escaped Ended) self.old self.new }
    {
        match past_escaped(self.source.text().as_bytes(), self.end) {
            Some(end) => {
                self.go_to(end);
                self.ended()
            }
            None => false,
        }
    }

    fn name(&mut self, s: &str) -> bool
        ensures { IsTrue result → Passes (name_of s.now) self.old self.new }
    {
        if self.mark(s) {
            return true;
        }
        self.gap();
        self.escaped()
    }

    // Passes these bytes, if they stand here, and no name goes on after them.
    fn apart(&mut self, s: &str) -> bool
        ensures found { IsTrue result → Passes (Then (Bytes s.now) (Apart s.now)) self.old self.new }
        ensures kept { IsFalse result → self.new ≡ self.old }
    {
        if !reads(self.source.text().as_bytes(), self.end, s.as_bytes()) {
            return false;
        }
        let end = self.end + s.len();
        if !is_apart(self.source, s.as_bytes(), end) {
            return false;
        }
        self.go_to(end);
        true
    }

    fn rest_of_private(&mut self, s: &str) -> bool
        ensures { IsTrue result → Passes (Either (Then (Bytes s.now) (Apart s.now)) (Then Escaped Ended)) self.old self.new }
    {
        self.apart(s) || self.escaped()
    }

    fn private(&mut self, s: &str) -> bool
        ensures { IsTrue result → Passes (private_name s.now) self.old self.new }
    {
        self.gap();
        self.bytes("#") && self.rest_of_private(s)
    }

    fn number(&mut self, s: &str) -> bool
        ensures { IsTrue result → Passes (number_of s.now) self.old self.new }
    {
        self.gap();
        self.bytes(s) && self.ended()
    }

    fn raw(&mut self, s: &str) -> bool
        ensures { IsTrue result → Passes (raw_of s.now) self.old self.new }
    {
        self.gap();
        self.bytes(s)
    }

    fn lines(&mut self, s: &str) -> bool
        ensures { IsTrue result → Passes (Lines s.now) self.old self.new }
    {
        match past_lines(self.source.text().as_bytes(), self.end, s.as_bytes()) {
            Some(end) => {
                self.go_to(end);
                true
            }
            None => false,
        }
    }

    fn regex(&mut self, exp: &str, flags: &str) -> bool
        ensures { IsTrue result → Passes (regex_of exp.now flags.now) self.old self.new }
    {
        self.gap();
        self.bytes("/") && self.bytes(exp) && self.bytes("/") && self.bytes(flags) && self.ended()
    }

    // The same of the texts that parts of a node are.
    fn text_at(&mut self, tree: Part<'_>, place: usize) -> bool
        ensures { IsTrue result → Passes (token (text_of (part_of place (seen tree.entry)))) self.old self.new }
    {
        self.mark(tree.part(place).text())
    }

    fn name_at(&mut self, tree: Part<'_>, place: usize) -> bool
        ensures { IsTrue result → Passes (name_of (text_of (part_of place (seen tree.entry)))) self.old self.new }
    {
        self.name(tree.part(place).text())
    }

    fn private_at(&mut self, tree: Part<'_>, place: usize) -> bool
        ensures { IsTrue result → Passes (private_name (text_of (part_of place (seen tree.entry)))) self.old self.new }
    {
        self.private(tree.part(place).text())
    }

    fn number_at(&mut self, tree: Part<'_>, place: usize) -> bool
        ensures { IsTrue result → Passes (number_of (text_of (part_of place (seen tree.entry)))) self.old self.new }
    {
        self.number(tree.part(place).text())
    }

    fn regex_at(&mut self, tree: Part<'_>, exp: usize, flags: usize) -> bool
        ensures { IsTrue result → Passes (regex_of (text_of (part_of exp (seen tree.entry))) (text_of (part_of flags (seen tree.entry)))) self.old self.new }
    {
        self.regex(tree.part(exp).text(), tree.part(flags).text())
    }

    fn semicolon(&mut self) -> bool
        ensures { IsTrue result → Passes semicolon_of self.old self.new }
    {
        self.mark(";") || may_end(self.source, self.end)
    }

    fn attributes(&mut self) -> bool
        ensures { IsTrue result → Passes (Either (token (codes "with")) (token (codes "assert"))) self.old self.new }
    {
        self.mark("with") || self.mark("assert")
    }

    fn export(&mut self, text: &str) -> bool
        ensures { IsTrue result → Passes (export_of text.now) self.old self.new }
    {
        if text.is_empty() {
            return self.mark("export");
        }
        self.mark("export") && self.mark(text)
    }

    fn separator(&mut self) -> bool
        ensures { IsTrue result → Passes (Either (token (codes ",")) semicolon_of) self.old self.new }
    {
        self.mark(",") || self.semicolon()
    }

    // Passes what stands after an item of an array.
    fn comma_after(&mut self, item: &Tree, is_last: bool) -> bool
        ensures { IsTrue result → Passes (comma_after_of (is_absent item.now) is_last) self.old self.new }
    {
        if item.read().is_absent() || !is_last {
            return self.mark(",");
        }
        self.may(",");
        true
    }

    #[cycle(walk)]
    #[tactic(auto, using(crate::proofs::Levels::one_height))]
    fn all(&mut self, items: &[Tree], slot: Slot) -> bool
        ensures { IsTrue result → Passes (each (in_way slot items.now)) self.old self.new }
    {
        for item in items {
            if !self.part(item.read(), slot) {
                return false;
            }
        }
        true
    }

    #[cycle(walk)]
    #[tactic(auto, using(crate::proofs::Levels::one_height))]
    fn rest(&mut self, sign: &str, items: &[Tree]) -> bool
        ensures { IsTrue result → Passes (rest_of sign.now (wholes items.now)) self.old self.new }
    {
        for item in items {
            if !self.mark(sign) || !self.part(item.read(), Slot::Whole) {
                return false;
            }
        }
        true
    }

    #[cycle(walk)]
    fn joined(&mut self, sign: &str, items: &[Tree]) -> bool
        ensures { IsTrue result → Passes (joined_of sign.now (wholes items.now)) self.old self.new }
    {
        match items {
            [] => true,
            [first, others @ ..] => {
                self.part(first.read(), Slot::Whole) && self.rest(sign, others)
            }
        }
    }

    #[cycle(walk)]
    fn listed(&mut self, items: &[Tree]) -> bool
        ensures { IsTrue result → Passes (listed_of (wholes items.now)) self.old self.new }
    {
        if items.is_empty() {
            return true;
        }
        if !self.joined(",", items) {
            return false;
        }
        self.may(",");
        true
    }

    #[cycle(walk)]
    #[tactic(auto, using(crate::proofs::Levels::one_height))]
    fn members(&mut self, items: &[Tree]) -> bool
        ensures { IsTrue result → Passes (members_of (wholes items.now)) self.old self.new }
    {
        for item in items {
            if !self.part(item.read(), Slot::Whole) || !self.separator() {
                return false;
            }
        }
        true
    }

    #[cycle(walk)]
    #[tactic(auto, using(crate::proofs::Levels::one_height))]
    fn holes(&mut self, items: &[Tree]) -> bool
        ensures { IsTrue result → Passes (holes_of items.now (wholes items.now)) self.old self.new }
    {
        for k in 0..items.len() {
            let item = &items[k];
            if !self.part(item.read(), Slot::Whole)
                || !self.comma_after(item, k + 1 == items.len())
            {
                return false;
            }
        }
        true
    }

    // Passes items and the token that closes them.
    #[cycle(walk)]
    fn closed(&mut self, items: &[Tree], sign: &str) -> bool
        ensures { IsTrue result → Passes (Then (listed_of (wholes items.now)) (token sign.now)) self.old self.new }
    {
        self.listed(items) && self.mark(sign)
    }

    #[cycle(walk)]
    fn braces(&mut self, items: &[Tree]) -> bool
        ensures { IsTrue result → Passes (braces_of (wholes items.now)) self.old self.new }
    {
        self.mark("{") && self.closed(items, "}")
    }

    #[cycle(walk)]
    fn parenthesized(&mut self, items: &[Tree]) -> bool
        ensures { IsTrue result → Passes (parenthesized_of (wholes items.now)) self.old self.new }
    {
        self.mark("(") && self.closed(items, ")")
    }

    #[cycle(walk)]
    fn names(&mut self, items: &[Tree]) -> bool
        ensures { IsTrue result → Passes (names_of items.now (wholes items.now)) self.old self.new }
    {
        if is_star(items) {
            self.all(items, Slot::Whole)
        } else {
            self.braces(items)
        }
    }

    #[cycle(walk)]
    fn after_default(&mut self, items: &[Tree]) -> bool
        ensures { IsTrue result → Passes (after_default_of items.now (wholes items.now)) self.old self.new }
    {
        if items.is_empty() {
            return if self.mark(",") {
                self.braces(items)
            } else {
                true
            };
        }
        self.mark(",") && self.names(items)
    }

    // Passes a default import and what follows it.
    #[cycle(walk)]
    fn with_default(&mut self, items: &[Tree]) -> bool
        ensures { IsTrue result → Passes (with_default_of items.now (wholes items.now)) self.old self.new }
    {
        match items {
            [] => true,
            [first, others @ ..] => {
                self.part(first.read(), Slot::Whole) && self.after_default(others)
            }
        }
    }

    #[cycle(walk)]
    fn bindings(&mut self, items: &[Tree]) -> bool
        ensures { IsTrue result → Passes (bindings_of items.now (wholes items.now)) self.old self.new }
    {
        if is_default(items) {
            self.with_default(items)
        } else {
            self.names(items)
        }
    }

    #[cycle(walk)]
    fn clause(&mut self, items: &[Tree]) -> bool
        ensures { IsTrue result → Passes (clause_of items.now (wholes items.now)) self.old self.new }
    {
        if items.is_empty() {
            return if self.sees("{") {
                self.braces(items) && self.mark("from")
            } else {
                true
            };
        }
        self.bindings(items) && self.mark("from")
    }

    // Whether this text comes next. What follows of that says no contract: either way is right.
    fn sees(&self, s: &str) -> bool {
        let start = self.source.scan(self.end).start;
        reads(self.source.text().as_bytes(), start, s.as_bytes())
    }

    // Passes a text of a template up to its substitution.
    #[cycle(walk)]
    fn opened(&mut self, quasi: &Tree) -> bool
        ensures { IsTrue result → Passes (Then (written quasi.now Whole) (Bytes (codes "${"))) self.old self.new }
    {
        self.part(quasi.read(), Slot::Whole) && self.bytes("${")
    }

    // Passes a substitution to its end.
    #[cycle(walk)]
    fn substituted(&mut self, expr: &Tree) -> bool
        ensures { IsTrue result → Passes (Then (written expr.now Whole) (token (codes "}"))) self.old self.new }
    {
        self.part(expr.read(), Slot::Whole) && self.mark("}")
    }

    // Passes the last text of a template.
    #[cycle(walk)]
    fn ending(&mut self, quasi: &Tree) -> bool
        ensures { IsTrue result → Passes (Then (written quasi.now Whole) (Bytes (codes "`"))) self.old self.new }
    {
        self.part(quasi.read(), Slot::Whole) && self.bytes("`")
    }

    #[cycle(walk)]
    #[tactic(auto, using(crate::proofs::Levels::one_height))]
    fn texts(&mut self, quasis: &[Tree], exprs: &[Tree]) -> bool
        requires { length quasis.now ≡ length exprs.now + 1 }
        ensures { IsTrue result → Passes (texts_of (wholes quasis.now) (wholes exprs.now)) self.old self.new }
    {
        for k in 0..exprs.len() {
            if !self.opened(&quasis[k]) || !self.substituted(&exprs[k]) {
                return false;
            }
        }
        let end = exprs.len();
        self.ending(&quasis[end])
    }

    #[cycle(walk)]
    fn template(&mut self, quasis: &[Tree], exprs: &[Tree]) -> bool
        ensures { IsTrue result → Passes (template_of (wholes quasis.now) (wholes exprs.now)) self.old self.new }
    {
        self.gap();
        self.bytes("`") && quasis.len() == exprs.len() + 1 && self.texts(quasis, exprs)
    }

    #[cycle(walk)]
    fn exported(&mut self, text: &str, decl: Part<'_>) -> bool
        ensures { IsTrue result → Passes (exported_of text.now (ways (seen decl.entry))) self.old self.new }
    {
        if self.sees("@") {
            self.part(decl, Slot::Decorators) && self.export(text) && self.part(decl, Slot::Bare)
        } else {
            self.export(text) && self.part(decl, Slot::Whole)
        }
    }

    #[cycle(walk)]
    fn arrow(&mut self, lone: bool, params: &[Tree]) -> bool
        ensures { IsTrue result → Passes (arrow_of lone (wholes params.now)) self.old self.new }
    {
        if lone && !self.sees("(") {
            self.all(params, Slot::Whole)
        } else {
            self.parenthesized(params)
        }
    }

    #[cycle(walk)]
    #[tactic(auto, using(crate::proofs::Levels::part_lower, crate::proofs::Levels::items_lower, crate::proofs::Levels::ways_items))]
    fn piece(&mut self, what: What, text: &str, tree: Part<'_>) -> bool
        requires { kind_of (seen tree) ≢ Leaf }
        ensures { IsTrue result → Passes (piece_of what text.now (seen tree.entry) (λ i. ways (part_of i (seen tree.entry)))) self.old self.new }
    {
        match what {
            What::Mark => self.mark(text),
            What::May => {
                self.may(text);
                true
            }
            What::Text(place) => self.text_at(tree, place),
            What::Name(place) => self.name_at(tree, place),
            What::Private(place) => self.private_at(tree, place),
            What::Number(place) => self.number_at(tree, place),
            What::Raw(place) => self.raw(tree.part(place).text()),
            What::Quasi(place) => self.lines(tree.part(place).text()),
            What::Regex(exp, flags) => self.regex_at(tree, exp, flags),
            What::Template(quasis, exprs) => {
                self.template(tree.part(quasis).parts(), tree.part(exprs).parts())
            }
            What::Listed(place) => self.listed(tree.part(place).parts()),
            What::Joined(place) => self.joined(text, tree.part(place).parts()),
            What::Members(place) => self.members(tree.part(place).parts()),
            What::Holes(place) => self.holes(tree.part(place).parts()),
            What::Clause(place) => self.clause(tree.part(place).parts()),
            What::Names(place) => self.names(tree.part(place).parts()),
            What::Exported(place) => self.exported(text, tree.part(place)),
            What::Arrow(params, result) => {
                let params = tree.part(params).parts();
                let lone = is_lone(params) && tree.part(result).is_absent();
                self.arrow(lone, params)
            }
            What::Attributes => self.attributes(),
            What::Semicolon => self.semicolon(),
            What::Part(place, slot) => self.part(tree.part(place), slot),
            What::Never => false,
        }
    }

    #[cycle(walk)]
    #[tactic(auto, using(crate::proofs::Passing::passes_none))]
    fn row(&mut self, row: &Piece, tree: Part<'_>) -> bool
        requires { kind_of (seen tree) ≢ Leaf }
        ensures { IsTrue result → Passes (row_syntax (row_of row.now) (seen tree.entry) (λ i. ways (part_of i (seen tree.entry)))) self.old self.new }
    {
        if is_so(row.0, tree) {
            self.piece(row.1, row.2, tree)
        } else {
            true
        }
    }

    #[cycle(walk)]
    fn rows(&mut self, rows: &[Piece], tree: Part<'_>) -> bool
        requires { kind_of (seen tree) ≢ Leaf }
        ensures { IsTrue result → Passes (rows_syntax (map row_of rows.now) (seen tree.entry) (λ i. ways (part_of i (seen tree.entry)))) self.old self.new }
    {
        for row in rows {
            if !self.row(row, tree) {
                return false;
            }
        }
        true
    }

    // Whether the next tokens are what a tree writes. They are passed.
    #[cycle(walk)]
    #[tactic(auto, using(crate::proofs::Levels::parts_high, crate::proofs::Levels::written_leaf, crate::proofs::Levels::written_list, crate::proofs::Levels::written_node))]
    fn part(&mut self, tree: Part<'_>, slot: Slot) -> bool
        ensures { IsTrue result → Passes (written (seen tree.entry) slot) self.old self.new }
    {
        let kind = tree.kind();
        if kind == Kind::Leaf {
            return true;
        }
        if kind == Kind::List {
            return self.all(tree.parts(), slot);
        }
        self.rows(pieces(kind, slot), tree)
    }
}

// Whether the first of some names is a default import.
fn is_default(items: &[Tree]) -> bool
    ensures { result ≡ it_is_default items.now }
{
    match items {
        [first, ..] => first.read().kind() == Kind::ImportDefaultSpecifier,
        [] => false,
    }
}

// Whether the first of some names is `* as` a name.
fn is_star(items: &[Tree]) -> bool
    ensures { result ≡ it_is_star items.now }
{
    match items {
        [first, ..] => {
            let kind = first.read().kind();
            kind == Kind::ImportStarAsSpecifier || kind == Kind::ExportNamespaceSpecifier
        }
        [] => false,
    }
}

/// Whether a text is what a tree writes: its tokens are those that the forms of the tree have in the table, up to what the table says may be left out.
pub fn is_written(text: &str, tree: &Tree) -> bool
    ensures { IsTrue result → IsWritten text.now tree.now }
{
    match Walk::new(text) {
        Some(mut walk) => {
            if !walk.part(tree.read(), Slot::Whole) {
                return false;
            }
            walk.gap();
            walk.end == text.len()
        }
        None => false,
    }
}
