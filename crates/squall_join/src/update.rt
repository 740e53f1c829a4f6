//! Updates: what is joined into a value in place, without being made into a value first.

ghost use Rattle.std.specs.Prelude.{◌≡◌, ◌≢◌, ◌≤◌, IfOk, OnOk, OnErr, [], ◌∷◌, length};
ghost use Rattle.std.specs.List.{insert as inserted};
ghost use Rattle.squall_join.specs.Entries.{merged};

use crate::{Join, JoinMap, MapKey};
use std::alloc::{AllocError, Global};

/// A value other than the least one, in a form that is joined into another in place. It is built as
/// a value of its own only if there is none to join it into. Either way it is used up, so it can
/// give away what it owns.
pub trait Update<V: Join>: Drop {
    /// The value of the update.
    ghost value: { Self → V };

    /// Shows what holds of the value of the update. It does nothing.
    fn known(&self)
        ensures value { V.is_value (value self.now) }
        ensures kept { value self.now ≢ V.bottom };

    /// The value of the update, as a value of its own. An error means that an allocation failed.
    fn build(self, alloc: Global) -> Result<V, AllocError>
        ensures { IfOk result (λ v. v ≡ value self) };

    /// Joins the update into a value. An error means that an allocation failed: the value is then
    /// unchanged.
    fn apply(self, alloc: Global, target: &mut V) -> Result<(), AllocError>
        ensures ok { OnOk result (target.new ≡ V.join target.old (value self)) }
        ensures err { OnErr result (target.new ≡ target.old) };
}

/// A borrowed value, which is the value of the update.
#[derive(Drop)]
pub(crate) struct Borrowed<'a, V: Join> {
    pub(crate) value: &'a V,
    ghost kept: { value.now ≢ V.bottom },
}

impl<'a, V: Join> Update<V> for Borrowed<'a, V> {
    ghost value = { λ b. b.value.now };

    fn known(&self) {
        self.value.known();
    }

    fn build(self, alloc: Global) -> Result<V, AllocError> {
        self.value.copied(alloc)
    }

    fn apply(self, alloc: Global, target: &mut V) -> Result<(), AllocError> {
        target.join_in(alloc, self.value)
    }
}

/// An update of the value at a key of a map. Its value is the map of that entry alone.
#[derive(Drop)]
pub struct UpdateAt<K, U> {
    /// The key.
    pub key: K,
    /// The update of the value there.
    pub update: U,
}

impl<K, U> UpdateAt<K, U> {
    /// The update at a key.
    pub fn new(key: K, update: U) -> UpdateAt<K, U>
        ensures key { result.key ≡ key }
        ensures update { result.update ≡ update }
    {
        UpdateAt { key, update }
    }
}

impl<K: MapKey, V: Join, U: Update<V>> Update<JoinMap<K, V>> for UpdateAt<K, U> {
    ghost value = { λ e. (e.key, U.value e.update) ∷ [] };

    fn known(&self) {
        self.update.known();
    }

    fn build(self, alloc: Global) -> Result<JoinMap<K, V>, AllocError> {
        self.update.known();
        let value = self.update.build(alloc)?;
        JoinMap::single(alloc, self.key, value)
    }

    fn apply(self, alloc: Global, target: &mut JoinMap<K, V>) -> Result<(), AllocError> {
        target.update_at(alloc, self.key, self.update)
    }
}

/// Makes room for one more entry: the first gets room for itself alone, since many maps have no
/// other.
fn make_room<K: MapKey, V: Join>(entries: &mut Vec<(K, V)>) -> Result<(), AllocError>
    ensures { entries.new.items ≡ entries.old.items }
{
    if entries.is_empty() {
        return entries.reserve_exact(1);
    }
    entries.reserve(1)
}

/// Inserts an entry at an index, before those from there on.
///
/// It is used in place of `Vec::insert`, since a rotation by one compiles to one block move of what
/// follows.
fn put<K: MapKey, V: Join>(
    entries: &mut Vec<(K, V)>,
    at: usize,
    entry: (K, V),
) -> Result<(), AllocError>
    requires { at ≤ length entries.old.items }
    ensures value { OnOk result (entries.new.items ≡ inserted entries.old.items at entry) }
    ensures err { OnErr result (entries.new.items ≡ entries.old.items) }
{
    make_room(entries)?;
    entries.push(entry)?;
    entries[at..].rotate_right(1);
    Ok(())
}

impl<K: MapKey, V: Join> JoinMap<K, V> {
    /// Joins an update into the value at a key, by a binary search. If the key is absent, it
    /// inserts the value of the update. An error means that an allocation failed: the map is then
    /// unchanged.
    pub fn update_at<U: Update<V>>(
        &mut self,
        alloc: Global,
        key: K,
        update: U,
    ) -> Result<(), AllocError>
        ensures ok { OnOk result (self.new ≡ merged K.cmp V.join self.old ((key, U.value update) ∷ [])) }
        ensures err { OnErr result (self.new ≡ self.old) }
    {
        update.known();
        match self.search(key) {
            Ok(at) => {
                let entry = &mut self.entries[at];
                update.apply(alloc, &mut entry.1)
            }
            Err(at) => {
                let value = update.build(alloc)?;
                put(&mut self.entries, at, (key, value))
            }
        }
    }
}
