//! A map with a log of writes, which can be rolled back.

ghost use Rattle.std.specs.Prelude.{◌≡◌, false, IfOk, IsTrue, None, OnOk};
ghost use Rattle.std.specs.FinMap.{IsAntisymmetric, empty, insert, get};
ghost use Rattle.bsp_maps.specs.Counts.{with_one};
ghost use Rattle.bsp_maps.specs.Undo.{content, before, restored};

use std::alloc::{AllocError, Global};
use std::collections::BTreeMap;

/// A key that was written, and the value that was there.
#[derive(Clone, Copy, Drop)]
pub struct Old<K: Copy + Drop, V: Copy + Drop> {
    pub(crate) key: K,
    pub(crate) value: Option<V>,
}

impl<K: Copy + Drop, V: Copy + Drop> Old<K, V> {
    /// The key.
    pub fn key(&self) -> K
        ensures { result ≡ self.now.key }
    {
        self.key
    }
}

/// Entries by their keys, and what was at each key that was written since the last commit.
#[derive(Drop)]
pub struct Logged<K: Ord + Copy + Drop, V: Copy + Drop> {
    pub(crate) map: BTreeMap<K, V>,
    pub(crate) undo: Vec<Old<K, V>>,
}

impl<K: Ord + Copy + Drop, V: Copy + Drop> Logged<K, V> {
    /// No entries.
    pub fn new(alloc: Global) -> Self
        ensures content { content K.cmp result ≡ empty }
        ensures before { before K.cmp result ≡ empty }
    {
        Logged {
            map: BTreeMap::new(alloc),
            undo: Vec::new(alloc),
        }
    }

    /// The entries.
    pub fn map(&self) -> &BTreeMap<K, V>
        ensures { result.now ≡ self.now.map }
    {
        &self.map
    }

    /// The keys that were written since the last commit, in the order of the writes. A key that was written twice is
    /// there twice.
    pub fn written(&self) -> &[Old<K, V>]
        ensures { result.now ≡ self.now.undo.items }
    {
        &self.undo
    }

    /// The value at a key, if there is one.
    pub fn get(&self, key: K) -> Option<V>
        ensures { result ≡ get (content K.cmp self.now) key }
    {
        self.map.get(&key).copied()
    }

    /// Writes a value at a key, and gives the value that was there. It reads and writes a logarithm of the entries.
    ///
    /// # Errors
    ///
    /// Where an allocation was refused. The entries of the last commit are remembered all the same.
    pub fn replace(&mut self, key: K, value: V) -> Result<Option<V>, AllocError>
        requires { IsAntisymmetric K.cmp }
        ensures ok { OnOk result (content K.cmp self.new ≡ insert (content K.cmp self.old) key value) }
        ensures old { IfOk result (λ old. old ≡ get (content K.cmp self.old) key) }
        ensures before { before K.cmp self.new ≡ before K.cmp self.old }
    {
        self.undo.reserve(1)?;
        let old = self.map.insert(key, value)?;
        self.undo.push_reserved(Old { key, value: old });
        Ok(old)
    }

    /// Writes a value at a key. It reads and writes a logarithm of the entries.
    ///
    /// # Errors
    ///
    /// Where an allocation was refused. The entries of the last commit are remembered all the same.
    pub fn put(&mut self, key: K, value: V) -> Result<(), AllocError>
        requires { IsAntisymmetric K.cmp }
        ensures ok { OnOk result (content K.cmp self.new ≡ insert (content K.cmp self.old) key value) }
        ensures before { before K.cmp self.new ≡ before K.cmp self.old }
    {
        self.replace(key, value)?;
        Ok(())
    }

    /// Forgets what was before: the changes so far are kept.
    pub fn commit(&mut self)
        ensures content { content K.cmp self.new ≡ content K.cmp self.old }
        ensures before { before K.cmp self.new ≡ content K.cmp self.old }
    {
        self.undo.clear();
    }

    /// Puts back what was at a key.
    fn restore(&mut self, old: Old<K, V>)
        requires { IsAntisymmetric K.cmp }
        ensures content { content K.cmp self.new ≡ restored old (content K.cmp self.old) }
        ensures undo { self.new.undo ≡ self.old.undo }
    {
        match old.value {
            None => {
                let _ = self.map.remove(&old.key);
            }
            Some(value) => {
                if self.map.contains_key(&old.key) {
                    let _ = self.map.insert(old.key, value);
                }
            }
        }
    }

    /// Puts back the entries of the last commit. It takes no memory.
    pub fn roll_back(&mut self)
        requires { IsAntisymmetric K.cmp }
        ensures content { content K.cmp self.new ≡ before K.cmp self.old }
        ensures before { before K.cmp self.new ≡ before K.cmp self.old }
    {
        while let Some(old) = self.undo.pop() {
            self.restore(old);
        }
    }
}

impl<K: Ord + Copy + Drop> Logged<K, u64> {
    /// Adds one to the number at a key, and answers whether there is a number. It looks the key up once.
    ///
    /// # Errors
    ///
    /// Where an allocation was refused, and where the number is the greatest of its type.
    pub(crate) fn count_up(&mut self, key: K) -> Result<bool, AllocError>
        requires { IsAntisymmetric K.cmp }
        ensures up { IfOk result (λ up. IsTrue up → content K.cmp self.new ≡ with_one key (content K.cmp self.old)) }
        ensures none { IfOk result (λ up. up ≡ false → (content K.cmp self.new ≡ content K.cmp self.old) × (get (content K.cmp self.old) key ≡ None)) }
        ensures before { before K.cmp self.new ≡ before K.cmp self.old }
    {
        self.undo.reserve(1)?;
        let Some(count) = self.map.get_mut(&key) else {
            return Ok(false);
        };
        let old = *count;
        if old == u64::MAX {
            return Err(AllocError);
        }
        *count = old + 1;
        self.undo.push_reserved(Old {
            key,
            value: Some(old),
        });
        Ok(true)
    }
}
