//! Laws of keys of rows, each the contract of a function that does nothing.

ghost use Rattle.std.specs.Prelude.{◌≡◌, ℕ, ◌<◌, List, ◌∷◌, ◌++◌, length, Some, None, false};
ghost use Rattle.std.specs.List.{list_any};
ghost use Rattle.squall_key.specs.Keys.{top, key_of};
ghost use Rattle.squall_keymap.specs.KeyMap.{opens, closes, hashed, pair_in_front, tag_of, key_of_bytes};

/// Each hash and each row is the rank of a key: it is below the end of all keys.
pub fn rows_have_keys()
    ensures hash { (bytes : List ℕ) → hashed bytes < top }
    ensures row { (bytes : List ℕ) → key_of_bytes bytes < top }
{}

/// A text that spells a key belongs to that key, and so does each row whose bytes are that text, a
/// colon, and anything.
pub fn pairs_have_their_key()
    ensures alone { (text : List ℕ) (key : ℕ) → key_of text ≡ Some key → key_of_bytes text ≡ key }
    ensures followed { (text rest : List ℕ) (key : ℕ) → key_of text ≡ Some key → key_of_bytes (text ++ 58 ∷ rest) ≡ key }
{}

/// A tag is what is between the first `{` and the next `}`, if that is not empty. Rows of one tag
/// that begin with no pair have one key, that of the tag's hash.
pub fn tags_are_kept_together()
    ensures tag { (front tag back : List ℕ) → list_any opens front ≡ false → list_any closes tag ≡ false → 0 < length tag
        → tag_of (front ++ 123 ∷ (tag ++ 125 ∷ back)) ≡ Some tag }
    ensures hash { (row tag : List ℕ) → pair_in_front row ≡ None → tag_of row ≡ Some tag → key_of_bytes row ≡ hashed tag }
{}
