//! Ranges of numbers that have no number in common.

ghost use Rattle.std.specs.Prelude.{◌≡◌, ℕ, ◌≤◌, None, count_by};
ghost use Rattle.std.specs.Bool.{Decides};
ghost use Rattle.std.specs.List.{All};
ghost use Rattle.bsp_maps.specs.Spans.{apart_from, IsRange, contains, AreDisjoint};

/// A range, both ends included.
#[derive(Clone, Copy, PartialEq, Eq, PartialOrd, Ord)]
pub struct Span {
    /// Its first number.
    pub first: u64,
    /// Its last number.
    pub last: u64,
}

/// Whether each has a number, and begins behind the one before it.
fn are_apart(spans: &[Span]) -> bool
    ensures { result ≡ apart_from None spans.now }
{
    let mut end: Option<u64> = None;
    for span in spans {
        let behind = match end {
            None => true,
            Some(last) => last < span.first,
        };
        if !behind || span.last < span.first {
            return false;
        }
        end = Some(span.last);
    }
    true
}

/// Whether each has a number, and no number is in two. It takes no memory, and leaves them sorted.
pub fn are_disjoint(spans: &mut [Span]) -> bool
    ensures { Decides result (AreDisjoint spans.old) }
{
    spans.sort_unstable();
    are_apart(spans)
}
