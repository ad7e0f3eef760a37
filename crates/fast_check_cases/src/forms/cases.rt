//! The words of a case.

use crate::forms::fields::say_made_and_read;
use crate::forms::made::made;
use crate::forms::names::form_named;
use crate::forms::odd::odd_tree;
use crate::said::Said;
use fast_check_print::print_tree;
use fast_check_read::schema::Form;
use fast_check_read::{ReadError, read_tree};
use fast_check_tree_helpers::{ReturnStatementAnalysis, analyze_return_stmts_in_function_body};
use fast_check_tree_syntax::{Kind, Part, Tree};
use json::Writer;
use serde_json::Value;
use std::alloc::Global;

/// Says what comes of a case. A case whose JSON is not of its form is `refused`.
pub fn say_case(alloc: Global, line: &str, said: &mut Said) {
    let (word, rest) = line.split_once(' ').unwrap_or(("", line));
    match word {
        "returns" => say_returns(alloc, rest, said),
        "form" => say_form(alloc, rest, said),
        _ => say_tree_of(alloc, word, rest, said),
    }
}

fn say_form(alloc: Global, name: &str, said: &mut Said) {
    match form_named(alloc, name) {
        Ok(form) => say_made_and_read(alloc, form, said),
        Err(_) => said.lack(),
    }
}

fn say_refused(error: ReadError, said: &mut Said) {
    match error {
        ReadError::BadForm => said.say("refused"),
        ReadError::OutOfMemory => said.lack(),
    }
}

/// Says the tree of a case.
fn say_tree_of(alloc: Global, word: &str, rest: &str, said: &mut Said) {
    match tree_of(alloc, word, rest) {
        Ok((tree, form)) => say_tree(alloc, &tree, form, said),
        Err(error) => say_refused(error, said),
    }
}

/// The tree of a case, and the form that it is printed as.
fn tree_of(alloc: Global, word: &str, rest: &str) -> Result<(Tree, Form), ReadError> {
    match word {
        "print" => read_named(alloc, rest),
        "odd" => odd_tree(alloc, rest)?.ok_or(ReadError::BadForm),
        "make" => made_named(alloc, rest),
        _ => Err(ReadError::BadForm),
    }
}

/// What is read of a value where a form stands.
fn read(alloc: Global, text: &str, form: Form) -> Result<Tree, ReadError> {
    match Value::from_str(alloc, text) {
        Ok(value) => read_tree(alloc, &value, form),
        Err(_) => Err(ReadError::BadForm),
    }
}

/// Reads the value behind the name of a form where that form stands.
fn read_named(alloc: Global, rest: &str) -> Result<(Tree, Form), ReadError> {
    let (name, text) = rest.split_once(' ').ok_or(ReadError::BadForm)?;
    let form = form_named(alloc, name)?.ok_or(ReadError::BadForm)?;
    let tree = read(alloc, text, form)?;
    Ok((tree, form))
}

fn made_named(alloc: Global, name: &str) -> Result<(Tree, Form), ReadError> {
    let tree = made(alloc, name)?;
    let form = Form::Struct(tree.read().kind());
    Ok((tree, form))
}

fn say_returns(alloc: Global, text: &str, said: &mut Said) {
    match read(alloc, text, Form::Struct(Kind::BlockStmt)) {
        Ok(body) => said.say(return_class(body.read())),
        Err(error) => say_refused(error, said),
    }
}

fn return_class(body: Part<'_>) -> &'static str {
    match analyze_return_stmts_in_function_body(body) {
        ReturnStatementAnalysis::None => "none",
        ReturnStatementAnalysis::Void => "void",
        ReturnStatementAnalysis::Single => "single",
        ReturnStatementAnalysis::Multiple => "multiple",
    }
}

/// Says a tree as where the form stands.
fn say_tree(alloc: Global, tree: &Tree, form: Form, said: &mut Said) {
    let mut out = Writer::new(Vec::new(alloc));
    said.note(print_tree(&mut out, tree, form));
    match String::from_utf8(out.into_inner()) {
        Ok(text) => said.say(text.as_str()),
        Err(_) => said.say("refused"),
    }
}
