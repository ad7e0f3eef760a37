//! Calls on sets of names, and on what stands below a name.

use crate::said::Said;
use fast_check_finder_lattice::{Exports, NamedSubset};
use std::alloc::Global;

/// How deep below its first names a set is shown.
const LEVELS: u8 = 4;

/// Adds a path as it is written.
fn add_path(alloc: Global, set: &mut NamedSubset, path: &str, said: &mut Said) {
    let added = match (path.strip_suffix('.'), path.split_once('.')) {
        (Some(name), _) => { set.add_named(alloc, said.copy(alloc, name), Exports::subset(alloc)) }
        (None, None) => set.add(alloc, said.copy(alloc, path)),
        (None, Some((name, rest))) => {
            let parts = parts_of(alloc, rest, said);
            set.add_qualified(alloc, said.copy(alloc, name), parts.as_slice())
        }
    };
    said.note(added);
}

fn parts_of(alloc: Global, path: &str, said: &mut Said) -> Vec<String> {
    let mut parts = Vec::new(alloc);
    for part in path.split('.') {
        if parts.push(said.copy(alloc, part)).is_err() {
            said.lack();
        }
    }
    parts
}

/// The set of these paths.
pub fn set_of(alloc: Global, paths: &[String], said: &mut Said) -> NamedSubset {
    let mut set = NamedSubset::default(alloc);
    for path in paths {
        add_path(alloc, &mut set, path.as_str(), said);
    }
    set
}

/// Says the paths of a set in the order of their names, each behind `before`.
fn say_paths(alloc: Global, set: NamedSubset, before: &str, levels: u8, said: &mut Said) {
    let Ok(names) = set.into_names(alloc) else {
        said.lack();
        return;
    };
    for (name, exports) in names {
        match exports {
            Exports::All => said.say_path(before, name.as_str(), ""),
            Exports::Subset(below) => {
                if below.is_empty() || levels == 0 {
                    said.say_path(before, name.as_str(), ".");
                } else {
                    match format!(in alloc; "{before}{name}.") {
                        Ok(path) => say_paths(alloc, below, path.as_str(), levels - 1, said),
                        Err(_) => said.lack(),
                    }
                }
            }
        }
    }
}

/// Says the paths of a set, each behind a space.
pub fn say_set(alloc: Global, set: &NamedSubset, said: &mut Said) {
    if set.is_empty() {
        said.say(" no name");
        return;
    }
    match set.clone() {
        Ok(copy) => say_paths(alloc, copy, " ", LEVELS, said),
        Err(_) => said.lack(),
    }
}

/// What is demanded below a name, as it is written: `all`, or the paths of a subset.
fn below_of(alloc: Global, words: &[String], said: &mut Said) -> Exports {
    match words {
        [word] if word.as_str() == "all" => Exports::All,
        _ => Exports::Subset(set_of(alloc, words, said)),
    }
}

/// Says what a copy stands for.
fn say_below(alloc: Global, exports: &Exports, said: &mut Said) {
    match exports.clone() {
        Ok(Exports::All) => said.say(" all"),
        Ok(Exports::Subset(set)) => say_set(alloc, &set, said),
        Err(_) => said.lack(),
    }
}

/// The first word, and those behind it.
pub fn name_and_rest(words: &[String]) -> (&str, &[String]) {
    match words.split_first() {
        Some((name, rest)) => (name.as_str(), rest),
        None => ("", words),
    }
}

fn from_parts(alloc: Global, set: &mut NamedSubset, words: &[String], said: &mut Said) {
    match NamedSubset::from_parts(alloc, words) {
        Ok(made) => *set = made,
        Err(_) => said.lack(),
    }
}

fn add_named(alloc: Global, set: &mut NamedSubset, words: &[String], said: &mut Said) {
    let (name, below) = name_and_rest(words);
    let below = below_of(alloc, below, said);
    let added = set.add_named(alloc, said.copy(alloc, name), below);
    said.note(added);
}

fn extend(alloc: Global, set: &mut NamedSubset, words: &[String], said: &mut Said) {
    match set.extend(alloc, set_of(alloc, words, said)) {
        Ok(answer) => {
            said.say("answers");
            say_set(alloc, &answer, said);
            said.say(", ");
        }
        Err(_) => said.lack(),
    }
}

/// Changes a set as a call says, and says whether it is such a call.
fn change(
    alloc: Global,
    set: &mut NamedSubset,
    command: &str,
    words: &[String],
    said: &mut Said,
) -> bool {
    let (name, rest) = name_and_rest(words);
    match command {
        "set" => *set = set_of(alloc, words, said),
        "from_parts" => from_parts(alloc, set, words, said),
        "add" => {
            let added = set.add(alloc, said.copy(alloc, name));
            said.note(added);
        }
        "add_qualified" => {
            let added = set.add_qualified(alloc, said.copy(alloc, name), rest);
            said.note(added);
        }
        "add_named" => add_named(alloc, set, words, said),
        "extend" => extend(alloc, set, words, said),
        _ => return false,
    }
    true
}

/// Says what a call on a set answers and leaves, and says whether it is such a call.
pub fn call_on_set(
    alloc: Global,
    set: &mut NamedSubset,
    command: &str,
    words: &[String],
    said: &mut Said,
) -> bool {
    match command {
        "equals" => {
            let other = set_of(alloc, words, said);
            said.say_flag(*set == other);
        }
        "contains_name" => said.say_flag(set.contains_name(name_and_rest(words).0)),
        "is_empty" => said.say_flag(set.is_empty()),
        "node_count" => said.say_made(format!(in alloc; "{}", set.node_count())),
        _ => {
            if !change(alloc, set, command, words, said) {
                return false;
            }
            said.say("leaves");
            say_set(alloc, set, said);
        }
    }
    true
}

fn extend_below(alloc: Global, exports: &mut Exports, words: &[String], said: &mut Said) {
    match exports.extend(alloc, below_of(alloc, words, said)) {
        Ok(None) => said.say("answers nothing, "),
        Ok(Some(answer)) => {
            said.say("answers");
            say_below(alloc, &answer, said);
            said.say(", ");
        }
        Err(_) => said.lack(),
    }
}

fn add_qualified_below(alloc: Global, exports: &mut Exports, words: &[String], said: &mut Said) {
    let (name, qualified) = name_and_rest(words);
    said.note(exports.add_qualified(alloc, name, qualified));
}

/// Makes a call on the demands below a name, if the command is one, and says its answer and the demands behind it.
/// Answers whether the command is one.
pub fn call_below(
    alloc: Global,
    exports: &mut Exports,
    command: &str,
    words: &[String],
    said: &mut Said,
) -> bool {
    match command {
        "below_equals" => {
            let other = below_of(alloc, words, said);
            said.say_flag(*exports == other);
            return true;
        }
        "below_set" => *exports = below_of(alloc, words, said),
        "below_add_qualified" => add_qualified_below(alloc, exports, words, said),
        "below_extend" => extend_below(alloc, exports, words, said),
        _ => return false,
    }
    said.say("leaves");
    say_below(alloc, exports, said);
    true
}
