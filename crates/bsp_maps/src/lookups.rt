//! Look-ups in a logged map, as functions of its content.

ghost use Rattle.std.specs.Prelude.{◌≡◌, IfOk};
ghost use Rattle.std.specs.List.{filter, list_any};
ghost use Rattle.std.specs.FinMap.{IsAntisymmetric, empty, entries, keys, values};
ghost use Rattle.bsp_maps.specs.Undo.{content};
ghost use Rattle.bsp_maps.specs.Picks.{with_keys};
ghost use Rattle.bsp_maps.specs.Windows.{entries_in, values_in};

use crate::logged::Logged;
use crate::picks;
use crate::rules::{self, Rule, Test};
use crate::windows::{self, Window};
use std::alloc::{AllocError, Global};

impl<K: Ord + Copy + Drop, V: Copy + Drop> Logged<K, V> {
    /// The keys, in their order. It reads all of them.
    ///
    /// # Errors
    ///
    /// Where an allocation was refused, as of each look-up that gives a list.
    pub fn keys(&self, alloc: Global) -> Result<Vec<K>, AllocError>
        ensures { IfOk result (λ found. found.items ≡ keys (content K.cmp self.now)) }
    {
        picks::keys(alloc, self.map())
    }

    /// The values at the keys that pass, each once, in the order of their keys. It reads those keys alone.
    pub fn picked<T: Rule<K, V>>(
        &self,
        alloc: Global,
        keys: &[K],
        rule: &T,
    ) -> Result<Vec<V>, AllocError>
        requires { IsAntisymmetric K.cmp }
        ensures { IfOk result (λ found. found.items ≡ values (with_keys {R = K.cmp} (T.holds rule.now) (content K.cmp self.now) keys.now empty)) }
    {
        picks::picked(alloc, self.map(), keys, rule)
    }

    /// The values of a window that pass a test, in the order of their keys. It reads that window alone.
    pub fn chosen<W: Window<K>, T: Test<V>>(
        &self,
        alloc: Global,
        window: &W,
        test: &T,
    ) -> Result<Vec<V>, AllocError>
        ensures { IfOk result (λ found. found.items ≡ filter (T.passes test.now) (values_in (W.has window.now) (entries (content K.cmp self.now)))) }
    {
        windows::chosen(alloc, self.map(), window, test)
    }

    /// The entries of a window, in the order of their keys. It reads that window alone.
    pub fn entries_in<W: Window<K>>(
        &self,
        alloc: Global,
        window: &W,
    ) -> Result<Vec<(K, V)>, AllocError>
        ensures { IfOk result (λ found. found.items ≡ entries_in (W.has window.now) (entries (content K.cmp self.now))) }
    {
        windows::window_entries(alloc, self.map(), window)
    }

    /// Whether a key is in the window. It reads one key.
    pub fn has_any<W: Window<K>>(&self, window: &W) -> bool
        ensures { result ≡ list_any (λ e. W.has window.now e.0) (entries (content K.cmp self.now)) }
    {
        windows::has_any(self.map(), window)
    }

    /// Whether a rule holds of some entry. It reads the entries up to the first.
    pub fn any_holds<T: Rule<K, V>>(&self, rule: &T) -> bool
        ensures { result ≡ list_any (λ e. T.holds rule.now e.0 e.1) (entries (content K.cmp self.now)) }
    {
        rules::any_holds(self.map(), rule)
    }
}
