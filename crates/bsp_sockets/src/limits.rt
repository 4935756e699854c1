//! How long connections may do what they do.

ghost use Rattle.std.specs.Prelude.{◌≡◌, ◌+◌, ◌-◌, ◌≤◌, ◌↔◌, ◌⊎◌, false, None, Some, IsTrue, IfSome};
ghost use Rattle.std.specs.Duration.{as_nanos};
ghost use Rattle.std.specs.declared.time.Duration.{Duration};
ghost use Rattle.std.specs.Time.{instant_nanos};

use std::time::{Duration, Instant};

/// How long connections may do what they do; none: without end.
#[derive(Clone, Copy)]
pub(crate) struct Limits {
    /// Between messages.
    pub(crate) resting: Option<Duration>,
    /// Within a message.
    pub(crate) busy: Option<Duration>,
    /// In a span while output waits.
    pub(crate) unread: Option<Duration>,
    /// After they are closed.
    pub(crate) leaving: Option<Duration>,
}

/// Whether the time is over of what began then.
pub(crate) fn is_over(since: Instant, limit: Option<Duration>, now: Instant) -> bool
    ensures endless { limit ≡ None → result ≡ false }
    ensures limited { (most : Duration) → limit ≡ Some most → IsTrue result ↔ (as_nanos most ≤ instant_nanos now - instant_nanos since) }
{
    match limit {
        Some(most) => now.duration_since(since).as_nanos() >= most.as_nanos(),
        None => false,
    }
}

/// When the time is over of what began then; none: never.
pub(crate) fn end_of(since: Instant, limit: Option<Duration>) -> Option<Instant>
    ensures endless { limit ≡ None → result ≡ None }
    ensures limited { (most : Duration) → limit ≡ Some most → IfSome result (λ end. instant_nanos end ≡ instant_nanos since + as_nanos most) }
{
    since.checked_add(limit?)
}

/// The earlier of two times; none: never.
pub(crate) fn earlier(one: Option<Instant>, other: Option<Instant>) -> Option<Instant>
    ensures one { other ≡ None → result ≡ one }
    ensures other { one ≡ None → result ≡ other }
    ensures either { (result ≡ one) ⊎ (result ≡ other) }
{
    match (one, other) {
        (Some(one), Some(other)) => Some(one.min(other)),
        (Some(one), None) => Some(one),
        (None, other) => other,
    }
}
