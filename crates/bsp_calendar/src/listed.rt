//! Entries that are found by their keys.

ghost use Rattle.std.specs.Prelude.{◌≡◌, [], ◌++◌, false, MatchResult, OnOk};
ghost use Rattle.std.specs.List.{All, AllPairs};
ghost use Rattle.std.specs.Ordering.{eq_by_cmp};
ghost use Rattle.std.specs.BTreeMap.{get};
ghost use Rattle.bsp_calendar.specs.Listed.{IsAdded, IsJoined, IsJoinedTo, IsLastUpTo, IsListed, IsPlaceOfKey, same_key};

use crate::fault::PlanFault;
use std::alloc::Global;
use std::collections::BTreeMap;
use std::marker::Model;

/// An entry of the plan, which is found by a key.
pub(crate) trait Entry<K: Ord>: Copy + Drop {
    ghost use Rattle.std.specs.Prelude.{◌≡◌, Bool, true, false};
    ghost use Rattle.std.specs.Ordering.{eq_by_cmp};

    // Its key.
    ghost key_of: { Self → K };

    // What holds of the values of its fields.
    ghost valid: { Self → Type 0 } = { λ _. Unit {0} };

    // Whether two entries of one key differ.
    ghost differ: { Self → Self → Bool };

    fn key(&self) -> K
        ensures key { result ≡ key_of self.now }
        ensures valid_fields { valid self.now };

    fn differs_from(&self, other: &Self) -> bool
        ensures { result ≡ differ self.now other.now };

    // Entries of one key that do not differ are one entry.
    ghost alike: { (x y : Self) → eq_by_cmp K.cmp (key_of x) (key_of y) ≡ true → differ x y ≡ false → x ≡ y };

    ghost itself: { (x : Self) → differ x x ≡ false };
}

/// Entries, no two of one key, in the order in which they were published. A contract sees the list.
#[derive(Drop)]
pub(crate) struct Listed<K: Ord + Copy + Drop, E: Entry<K>> {
    list: Vec<E>,
    index: BTreeMap<K, usize>,
}

impl<K: Ord + Copy + Drop, E: Entry<K>> Model for Listed<K, E> {
    ghost use Rattle.std.specs.Prelude.{List};
    ghost use Rattle.std.specs.Ordering.{eq_by_cmp};
    ghost use Rattle.std.specs.BTreeMap.{get};
    ghost use Rattle.bsp_calendar.specs.Listed.{IsListed};

    ghost Value = { List E };

    ghost view = { λ l. l.list.items };

    ghost invariant = { λ l. IsListed (eq_by_cmp K.cmp) E.key_of E.valid l.list.items (get K.cmp l.index) };
}

impl<K: Ord + Copy + Drop, E: Entry<K>> Listed<K, E> {
    /// No entries.
    pub(crate) fn new(alloc: Global) -> Self
        ensures { result ≡ [] }
    {
        Listed {
            list: Vec::new(alloc),
            index: BTreeMap::new(alloc),
        }
    }

    /// The entries.
    pub(crate) fn list(&self) -> &[E]
        ensures { result.now ≡ self.now }
    {
        &self.list
    }

    /// The place of the entry of a key.
    pub(crate) fn place_of(&self, key: K) -> Option<usize>
        ensures { IsPlaceOfKey (eq_by_cmp K.cmp) E.key_of self.now key result }
    {
        self.index.get(&key).copied()
    }

    /// The entry with the last key that is not after a key.
    pub(crate) fn last_up_to(&self, key: K) -> Option<E>
        ensures last { IsLastUpTo K.cmp E.key_of self.now key result }
        ensures distinct { AllPairs (λ x y. same_key (eq_by_cmp K.cmp) E.key_of x y ≡ false) self.now }
        ensures all_valid { All E.valid self.now }
    {
        let Some((_, place)) = self.index.range(..=key).next_back() else {
            return None;
        };
        Some(self.list[*place])
    }

    /// The same entries.
    ///
    /// # Errors
    ///
    /// `NoMemory`.
    pub(crate) fn copied(&self, alloc: Global) -> Result<Self, PlanFault>
        ensures { MatchResult result (λ copy. copy ≡ self.now) (λ fault. fault ≡ PlanFault.NoMemory) }
    {
        // The proof knows the invariant of a struct where one of its fields is read.
        let _list = &self.list;
        self.joined(alloc, &[])
    }

    /// These entries and more, each once.
    ///
    /// # Errors
    ///
    /// `Differs` where two of one key differ, or `NoMemory`.
    pub(crate) fn joined(&self, alloc: Global, more: &[E]) -> Result<Self, PlanFault>
        ensures { IsJoined (same_key (eq_by_cmp K.cmp) E.key_of) E.differ (self.now ++ more.now) result }
    {
        let mut list = Vec::new(alloc);
        let mut index = BTreeMap::new(alloc);
        add_all(&mut list, &mut index, &self.list)?;
        add_all(&mut list, &mut index, more)?;
        Ok(Listed { list, index })
    }
}

/// Adds each of some entries whose key is new.
fn add_all<K: Ord + Copy + Drop, E: Entry<K>>(
    list: &mut Vec<E>,
    index: &mut BTreeMap<K, usize>,
    more: &[E],
) -> Result<(), PlanFault>
    requires { IsListed (eq_by_cmp K.cmp) E.key_of E.valid list.old.items (get K.cmp index.old) }
    ensures indexed { OnOk result (IsListed (eq_by_cmp K.cmp) E.key_of E.valid list.new.items (get K.cmp index.new)) }
    ensures joined { IsJoinedTo (same_key (eq_by_cmp K.cmp) E.key_of) E.differ (list.old.items ++ more.now) result list.new.items }
{
    for entry in more {
        add(list, index, *entry)?;
    }
    Ok(())
}

/// Adds an entry where its key is new.
fn add<K: Ord + Copy + Drop, E: Entry<K>>(
    list: &mut Vec<E>,
    index: &mut BTreeMap<K, usize>,
    entry: E,
) -> Result<(), PlanFault>
    requires { IsListed (eq_by_cmp K.cmp) E.key_of E.valid list.old.items (get K.cmp index.old) }
    ensures indexed { OnOk result (IsListed (eq_by_cmp K.cmp) E.key_of E.valid list.new.items (get K.cmp index.new)) }
    ensures added { IsAdded (eq_by_cmp K.cmp) E.key_of E.differ list.old.items entry result list.new.items }
{
    let key = entry.key();
    if let Some(place) = index.get(&key).copied() {
        if list[place].differs_from(&entry) {
            return Err(PlanFault::Differs);
        }
        return Ok(());
    }
    index.insert(key, list.len())?;
    list.push(entry)?;
    Ok(())
}
