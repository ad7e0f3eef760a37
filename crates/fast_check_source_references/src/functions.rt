//! What the parts of declarations refer to: types, values, parameters and heritage.
use crate::dependencies::{Dependencies, Space};
use crate::names::{nothing, value_chain};
use crate::values::{Walk, Way};
use fast_check_tree_forms_expressions::{ArrayPat, ObjectPat, RestPat};
use fast_check_tree_forms_programs::BindingIdent;
use fast_check_tree_forms_statements::TsExprWithTypeArgs;
use fast_check_tree_syntax::{Kind, Part};

/// The type that is written behind a pattern.
pub fn type_of_pattern(pattern: Part<'_>) -> Part<'_> {
    match pattern.kind() {
        Kind::BindingIdent => BindingIdent::of(pattern).type_ann,
        Kind::ArrayPat => ArrayPat::of(pattern).type_ann,
        Kind::ObjectPat => ObjectPat::of(pattern).type_ann,
        Kind::RestPat => RestPat::of(pattern).type_ann,
        _ => nothing(pattern),
    }
}

impl Dependencies {
    fn look(&mut self, way: Way, part: Part<'_>) {
        let mut walk = Walk::new(self.alloc);
        walk.push(way, part);
        walk.run(self)
    }

    /// All that a part of a tree refers to which stands as it is written.
    pub fn written(&mut self, part: Part<'_>) {
        self.look(Way::Written, part)
    }

    /// A value.
    pub fn value(&mut self, value: Part<'_>) {
        self.look(Way::Value, value)
    }

    /// A parameter: its type, else the value that stands for it.
    pub fn parameter(&mut self, param: Part<'_>) {
        self.look(Way::Parameter, param)
    }

    /// A type if it is written, else the value.
    pub fn type_or_value(&mut self, type_ann: Part<'_>, value: Part<'_>) {
        let mut walk = Walk::new(self.alloc);
        walk.push_type_or_value(type_ann, value);
        walk.run(self)
    }

    /// The types of a function.
    pub fn function(&mut self, function: Part<'_>) {
        let mut walk = Walk::new(self.alloc);
        walk.push_function(function);
        walk.run(self)
    }

    /// The parameters of a constructor.
    pub fn constructor(&mut self, params: Part<'_>, body: Part<'_>) {
        let mut walk = Walk::new(self.alloc);
        walk.push_signature(nothing(params), params, nothing(params), body, false);
        walk.run(self)
    }

    /// Names behind `implements`, or behind `extends` of an interface.
    pub fn heritage(&mut self, names: Part<'_>) {
        for name in names.parts() {
            let TsExprWithTypeArgs {
                expr,
                type_args,
                ..
            } = TsExprWithTypeArgs::of(name.read());
            match value_chain(self.alloc, expr) {
                Ok(Some(chain)) => self.chain(chain, Space::Type),
                Ok(None) => self.value(expr),
                Err(_) => self.lacks = true,
            }
            self.written(type_args);
        }
    }
}
