// Access to the tree of a JSON text.
ghost use Rattle.std.specs.Prelude.{◌≡◌, Some, None, option_map, map};
ghost use Rattle.serde_json.specs.View.{view};
ghost use Rattle.txc_cmd_script.specs.Reading.{text_at};
ghost use Rattle.txc_cmd_script.specs.Tree.{key_count, listed, whole_at, listed_at, is_text};

use serde_json::Value;

/// Returns the number of keys of an object, or 0 if the tree is not an object.
pub(crate) fn count_keys(tree: &Value) -> usize
    ensures { result ≡ key_count (view tree.now) }
{
    match tree.as_object() {
        Some(members) => members.len(),
        None => 0,
    }
}

/// Returns the elements of the tree, if it is a list.
pub(crate) fn elements(tree: &Value) -> Option<&Vec<Value>>
    ensures { option_map (λ list. map view list.now.items) result ≡ listed (view tree.entry.now) }
{
    tree.as_array()
}

/// Returns the whole number at a key, if there is one.
pub(crate) fn number_at(tree: &Value, key: &str) -> Option<u64>
    ensures { result ≡ whole_at key.now (view tree.now) }
{
    tree.get(key)?.as_u64()
}

/// Returns the text at a key, if there is one.
pub(crate) fn text_at<'a>(tree: &'a Value, key: &str) -> Option<&'a str>
    ensures { option_map (λ text. text.now) result ≡ text_at key.now (view tree.entry.now) }
{
    tree.get(key)?.as_str()
}

/// Returns the elements of the list at a key, if there is one.
pub(crate) fn elements_at<'a>(tree: &'a Value, key: &str) -> Option<&'a Vec<Value>>
    ensures { option_map (λ list. map view list.now.items) result ≡ listed_at key.now (view tree.entry.now) }
{
    elements(tree.get(key)?)
}

/// Returns whether the tree is this text.
pub(crate) fn says(tree: &Value, text: &str) -> bool
    ensures { result ≡ is_text text.now (view tree.now) }
{
    match tree.as_str() {
        Some(found) => found == text,
        None => false,
    }
}
