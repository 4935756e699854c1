//! Which characters a target may have.

ghost use Rattle.std.specs.Prelude.{◌≡◌, ◌≢◌, ◌≤◌, true, false, All};
ghost use Rattle.bsp_routes.specs.Targets.{IsClean};

/// Whether a target has no `?`, no `%` and no byte above 0x7E.
pub fn is_clean(target: &[u8]) -> bool
    ensures yes { result ≡ true → IsClean target.now }
    ensures no { result ≡ false → IsClean target.now → ⊥ }
{
    for b in target {
        if *b > 126 || *b == b'?' || *b == b'%' {
            return false;
        }
    }
    true
}
