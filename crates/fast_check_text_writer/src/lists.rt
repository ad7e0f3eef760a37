//! Lists with something between their parts.
use crate::printer::{Printer, range_of};
use fast_check_tree_forms_classes::Param;
use fast_check_tree_forms_programs::BindingIdent;
use fast_check_tree_syntax::{Kind, Part, SourcePos, SourceRange, Tree};

// Where a part of a list begins, by its name or its key where it has no range of its own.
fn start_of(part: Part<'_>) -> SourcePos {
    let SourceRange { start, .. } = match part.kind() {
        Kind::BindingIdent => range_of(BindingIdent::of(part).id),
        Kind::KeyValueProp | Kind::MethodProp => range_of(part.part(0)),
        _ => range_of(part),
    };
    start
}

fn is_rest(part: Part<'_>) -> bool {
    match part.kind() {
        Kind::RestPat => true,
        Kind::Param => Param::of(part).pat.kind() == Kind::RestPat,
        _ => false,
    }
}

/// The position after the first byte of a range; 0 for the range of no text.
pub fn after_start(range: SourceRange) -> SourcePos {
    let SourceRange { start, .. } = range;
    if start.0 == 0 {
        start
    } else {
        SourcePos(start.0.saturating_add(1))
    }
}

/// The position before the last byte of a range.
pub fn before_end(range: SourceRange) -> SourcePos {
    SourcePos(range.end.0.saturating_sub(1))
}

impl<'a> Printer<'a> {
    /// The parts of a list with a text between them.
    pub fn separated(&mut self, list: &'a [Tree], between: &'a str) {
        for (place, each) in list.iter().enumerate() {
            self.text_if(place > 0, between);
            self.node(each.read())
        }
    }

    /// The parts of a list, each on a line of its own where the group is broken: then `last` stands after the last one. On one line `padding` stands around them.
    pub fn listed(&mut self, list: &'a [Tree], padding: &'a str, last: &'a str) {
        self.indent();
        for (place, each) in list.iter().enumerate() {
            self.text_if(place > 0, ",");
            self.soft_line(if place > 0 { " " } else { padding });
            self.node(each.read())
        }
        if !list.is_empty() {
            self.if_broken(last);
        }
        self.outdent();
        if !list.is_empty() {
            self.soft_line(padding)
        }
    }

    /// Whether comments stand before a part of a list.
    pub fn has_comments(&self, list: &[Tree]) -> bool {
        list.iter()
            .any(|each| self.has_leading(start_of(each.read())))
    }

    /// Whether comments stand right within the braces of a range.
    pub fn has_comments_in_ends(&self, range: SourceRange) -> bool {
        self.has_leading(before_end(range)) || self.has_trailing(after_start(range))
    }

    /// The parameters of a function in parentheses, on lines of their own where they have comments, or where they are too long for one and `may_break`. No comma may
    /// follow a rest.
    pub fn parameters(&mut self, parameters: Part<'a>, may_break: bool) {
        let list = parameters.parts();
        let ends_in_rest = match list.last() {
            Some(last) => is_rest(last.read()),
            None => false,
        };
        let has_comments = self.has_comments(list);
        self.text("(");
        if may_break || has_comments {
            self.open(has_comments);
            self.listed(list, "", if ends_in_rest { "" } else { "," });
            self.close();
        } else {
            self.separated(list, ", ");
        }
        self.text(")")
    }

    /// Opens braces, whose lines move to the right.
    pub fn open_braces(&mut self, range: SourceRange) {
        self.text("{");
        self.trailing(after_start(range));
        self.open(true);
        self.indent()
    }

    /// Closes braces. Comments before the closing brace stay there.
    pub fn close_braces(&mut self, range: SourceRange) {
        self.line();
        self.leading(before_end(range));
        self.outdent();
        self.line();
        self.close();
        self.text("}")
    }

    /// A list in braces, each part on a line of its own, with a text after each.
    pub fn in_braces(&mut self, list: &'a [Tree], range: SourceRange, ending: &'a str) {
        if list.is_empty() && !self.has_leading(before_end(range)) {
            self.text("{}");
            return;
        }
        self.open_braces(range);
        for each in list {
            // In a class it ends with a semicolon, as a property does.
            let is_index = each.read().kind() == Kind::TsIndexSignature;
            self.line();
            self.node_then(each.read(), if is_index { ";" } else { ending });
        }
        self.close_braces(range)
    }

    /// Decorators, each in a line of its own, or in the line of what they stand before.
    pub fn decorators(&mut self, decorators: Part<'a>, has_lines: bool) {
        for each in decorators.parts() {
            self.node(each.read());
            if has_lines {
                self.line()
            } else {
                self.text(" ")
            }
        }
    }
}
