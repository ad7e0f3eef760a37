//! What the members of a configuration have to be.
use serde_json::Value;

fn are_texts(value: &Value) -> bool {
    match value.as_array() {
        Some(list) => list.iter().all(|it| it.as_str().is_some()),
        None => false,
    }
}

fn are_exports(value: &Value) -> bool {
    value.as_str().is_some() || value.is_null() || value.is_array() || value.is_object()
}

// A list of texts, or a map with one under a name.
fn are_members(value: &Value, name: &str) -> bool {
    if !value.is_object() {
        return are_texts(value);
    }
    match value.get(name) {
        Some(inner) => are_texts(inner),
        None => true,
    }
}

fn is_path_below(value: &Value) -> bool {
    match value.as_str() {
        Some(path) => !path.starts_with("/") && !path.split('/').any(|part| part == ".."),
        None => false,
    }
}

fn is_setting(name: &str, value: &Value) -> bool {
    match name {
        "exports" => are_exports(value),
        "allow" => are_texts(value),
        "baseline" => is_path_below(value),
        _ => false,
    }
}

fn are_settings(value: &Value) -> bool {
    let Some(map) = value.as_object() else {
        return false;
    };
    for (name, each) in map.iter() {
        if !is_setting(name.as_str(), each) {
            return false;
        }
    }
    true
}

fn is_right(name: &str, value: &Value) -> bool {
    match name {
        "name" | "version" => value.as_str().is_some(),
        "exports" => are_exports(value),
        "imports" => value.is_object(),
        "nagdrez" => are_settings(value),
        "workspace" => are_members(value, "members"),
        _ => are_members(value, "packages"),
    }
}

const WANTED: [(&str, &str); 7] = [
    ("name", "a text"),
    ("version", "a text"),
    ("exports", "a path or a map"),
    ("imports", "a map"),
    (
        "nagdrez",
        "a map of `exports` (a path or a map), `allow` (a list of codes) and `baseline` (a path below)",
    ),
    ("workspace", "a list of paths"),
    ("workspaces", "a list of paths"),
];

/// The first member of a configuration that is not what it has to be, and what that is.
pub fn unfit(config: &Value) -> Option<(&'static str, &'static str)> {
    for (name, wanted) in WANTED {
        if let Some(value) = config.get(name)
            && !is_right(name, value)
        {
            return Some((name, wanted));
        }
    }
    None
}
