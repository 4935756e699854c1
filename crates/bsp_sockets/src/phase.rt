//! What a connection does, and since when.

ghost use Rattle.std.specs.Prelude.{◌≡◌, ◌≢◌, ◌+◌, ◌-◌, ◌<◌, ◌≤◌, ℕ, true, false, None, Some, IfSome};
ghost use Rattle.bsp_sockets.specs.declared.phase.Begun.{Begun};
ghost use Rattle.bsp_sockets.specs.declared.phase.Unread.{Unread};
ghost use Rattle.std.specs.declared.time.Duration.{Duration};
ghost use Rattle.std.specs.declared.time.Instant.{Instant};
ghost use Rattle.std.specs.Duration.{as_nanos};
ghost use Rattle.std.specs.Time.{instant_nanos};
ghost use Rattle.bsp_sockets.specs.Phases.{IsAgain, IsStill};

use crate::limits::is_over;
use bsp_streams::Awaited;
use std::time::{Duration, Instant};

/// The bytes that a peer must take within twice the time: half of what one reads within the time, since what it reads is
/// seen in steps.
const PIECE: usize = 32_768;

/// The spans of twice the time, each with a write at its end.
const SPANS: usize = 8;

/// A message that is begun.
#[derive(Clone, Copy)]
pub(crate) struct Begun {
    /// How many messages came before it.
    pub(crate) before: usize,
    /// Since when it is waited for.
    pub(crate) since: Instant,
}

/// Where the bytes go that are written to a peer.
#[derive(Clone, Copy)]
pub(crate) enum Stage {
    /// To the peer, or to the system's own buffer.
    Fresh,
    /// To the system's own buffer, by the write that fills it.
    Filling,
    /// To the peer, in place of bytes that it took.
    Full,
}

/// Output that waits for the peer.
#[derive(Clone, Copy)]
pub(crate) struct Unread {
    /// How many bytes the peer took of this piece.
    pub(crate) taken: usize,
    /// Since when this span lasts.
    pub(crate) since: Instant,
    /// How many spans are over.
    pub(crate) spans: usize,
    /// Where the bytes go.
    pub(crate) stage: Stage,
}

/// What came and went on a connection in one turn.
#[derive(Clone, Copy)]
pub(crate) struct Traffic {
    /// Whether bytes came.
    pub(crate) came: bool,
    /// How many bytes the peer took.
    pub(crate) sent: usize,
}

/// What a connection does, and since when.
#[derive(Clone, Copy)]
pub(crate) enum Phase {
    /// It is between messages.
    Resting(Instant),
    /// A message is begun, output waits, or its turn comes again.
    Busy {
        /// The message.
        message: Option<Begun>,
        /// The output.
        output: Option<Unread>,
    },
    /// It is closed, and what its peer sends is dropped.
    Leaving(Instant),
}

/// The message that is begun after a turn. Its time starts where another was begun before, or none: a byte of it does
/// not prolong it.
fn begun_after(before: Option<Begun>, message: Option<usize>, now: Instant) -> Option<Begun>
    ensures none { message ≡ None → result ≡ None }
    ensures same { (begun : Begun) → message ≡ Some begun.before → before ≡ Some begun → result ≡ before }
    ensures first { (count : ℕ) → message ≡ Some count → before ≡ None → result ≡ Some (record { before = count; since = now }) }
    ensures next { (count : ℕ) (other : Begun) → message ≡ Some count → before ≡ Some other → other.before ≢ count → result ≡ Some (record { before = count; since = now }) }
{
    let count = message?;
    match before {
        Some(begun) if begun.before == count => before,
        _ => Some(Begun {
            before: count,
            since: now,
        }),
    }
}

/// The message that is begun after a turn after which its connection has another: one that was waited for before. The peer
/// is not waited for, so no time starts.
fn still_begun(before: Option<Begun>, message: Option<usize>) -> Option<Begun>
    ensures same { (begun : Begun) → message ≡ Some begun.before → before ≡ Some begun → result ≡ before }
    ensures none { before ≡ None → result ≡ None }
    ensures other { (begun : Begun) → before ≡ Some begun → message ≢ Some begun.before → result ≡ None }
{
    match before {
        Some(begun) if message == Some(begun.before) => before,
        _ => None,
    }
}

/// The message that has a time after a turn.
fn message_after(before: Option<Begun>, awaited: Awaited, now: Instant) -> Option<Begun>
    ensures same { (begun : Begun) → awaited.reads ≡ true → awaited.message ≡ Some begun.before → before ≡ Some begun → result ≡ before }
    ensures first { (count : ℕ) → awaited.reads ≡ true → awaited.message ≡ Some count → before ≡ None → result ≡ Some (record { before = count; since = now }) }
    ensures again { IsAgain awaited → before ≡ None → result ≡ None }
    ensures on { (begun : Begun) → IsAgain awaited → awaited.message ≡ Some begun.before → before ≡ Some begun → result ≡ before }
    ensures next { (begun : Begun) → IsAgain awaited → awaited.message ≢ Some begun.before → before ≡ Some begun → result ≡ None }
    ensures output { awaited.reads ≡ false → awaited.writes ≡ true → result ≡ None }
{
    match (awaited.reads, awaited.writes) {
        (true, _) => begun_after(before, awaited.message, now),
        (false, false) => still_begun(before, awaited.message),
        (false, true) => None,
    }
}

/// The output that waits after a turn in which so many bytes were written. Its time starts where none waited before, and
/// again with each piece that the peer took.
fn unread_after(before: Option<Unread>, waits: bool, sent: usize, now: Instant) -> Option<Unread>
    ensures none { waits ≡ false → result ≡ None }
    ensures first { waits ≡ true → before ≡ None → result ≡ Some (record { taken = 0; since = now; spans = 0; stage = Stage.Fresh }) }
    ensures filled { (old : Unread) → waits ≡ true → before ≡ Some old → old.stage ≡ Stage.Filling → result ≡ Some (record { taken = 0; since = old.since; spans = old.spans; stage = Stage.Full }) }
    ensures less { (old : Unread) → waits ≡ true → before ≡ Some old → old.stage ≢ Stage.Filling → old.taken + sent < PIECE → result ≡ Some (record { taken = old.taken + sent; since = old.since; spans = old.spans; stage = old.stage }) }
    ensures piece { (old : Unread) → waits ≡ true → before ≡ Some old → old.stage ≢ Stage.Filling → PIECE ≤ old.taken + sent → result ≡ Some (record { taken = 0; since = now; spans = 0; stage = old.stage }) }
{
    if !waits {
        return None;
    }
    let Some(old) = before else {
        return Some(Unread {
            taken: 0,
            since: now,
            spans: 0,
            stage: Stage::Fresh,
        });
    };
    Some(unread_on(old, sent, now))
}

/// Output that waits again after a turn.
fn unread_on(old: Unread, sent: usize, now: Instant) -> Unread
    ensures filled { old.stage ≡ Stage.Filling → result ≡ record { taken = 0; since = old.since; spans = old.spans; stage = Stage.Full } }
    ensures less { old.stage ≢ Stage.Filling → old.taken + sent < PIECE → result ≡ record { taken = old.taken + sent; since = old.since; spans = old.spans; stage = old.stage } }
    ensures piece { old.stage ≢ Stage.Filling → PIECE ≤ old.taken + sent → result ≡ record { taken = 0; since = now; spans = 0; stage = old.stage } }
{
    match old.stage {
        Stage::Filling => Unread {
            taken: 0,
            stage: Stage::Full,
            ..old
        },
        _ if old.taken < PIECE && sent < PIECE - old.taken => Unread {
            taken: old.taken + sent,
            ..old
        },
        _ => Unread {
            taken: 0,
            since: now,
            spans: 0,
            stage: old.stage,
        },
    }
}

/// Whether the output that waits after a turn in which nothing was written is that before it, whatever the time.
fn is_still(before: &Option<Unread>, waits: bool) -> bool
    ensures { result ≡ true → IsStill before.now waits }
{
    match before {
        None => !waits,
        Some(unread) => waits && unread.taken < PIECE && !is_filling(unread.stage),
    }
}

/// Whether the bytes go to the system's own buffer, by the write that fills it.
fn is_filling(stage: Stage) -> bool
    ensures { result ≡ false → stage ≢ Stage.Filling }
{
    match stage {
        Stage::Filling => true,
        Stage::Fresh | Stage::Full => false,
    }
}

/// The output that waits, before one more write, after a span is over. None: the peer is late.
fn once_more(unread: Unread, now: Instant) -> Option<Unread>
    ensures span { unread.spans + 1 < SPANS → (next : Unread) × (result ≡ Some next) × (next.taken ≡ unread.taken) × (next.since ≡ now) × (next.spans ≡ unread.spans + 1) }
    ensures last { unread.spans + 1 ≡ SPANS → (next : Unread) × (result ≡ Some next) × (next.taken ≡ unread.taken) × (next.since ≡ unread.since) × (next.spans ≡ SPANS) }
    ensures over { SPANS ≤ unread.spans → result ≡ None }
    ensures full { unread.stage ≢ Stage.Fresh → IfSome result (λ next. next.stage ≡ unread.stage) }
{
    let stage = match unread.stage {
        Stage::Fresh => Stage::Filling,
        stage => stage,
    };
    if unread.spans >= SPANS {
        return None;
    }
    let spans = unread.spans + 1;
    Some(Unread {
        taken: unread.taken,
        since: if spans < SPANS { now } else { unread.since },
        spans,
        stage,
    })
}

impl Phase {
    ghost use Rattle.bsp_sockets.specs.Phases.{IsAgain, IsBetween, Stays, message_of, output_of};
    ghost use Rattle.bsp_sockets.specs.declared.phase.Phase.TheVariants.{Resting, Busy, Leaving};

    /// What a connection does whose time is over, until it is closed.
    pub(crate) const OVER: Phase = Phase::Busy {
        message: None,
        output: None,
    };

    /// The message that is begun.
    fn message(self) -> Option<Begun>
        ensures { result ≡ message_of self }
    {
        match self {
            Phase::Busy { message, .. } => message,
            Phase::Resting(_) => None,
            Phase::Leaving(_) => None,
        }
    }

    /// The output that waits.
    fn output(self) -> Option<Unread>
        ensures { result ≡ output_of self }
    {
        match self {
            Phase::Busy { output, .. } => output,
            Phase::Resting(_) => None,
            Phase::Leaving(_) => None,
        }
    }

    /// Since when a connection that is between messages after a turn has been so: since the last bytes came or went.
    fn rested(self, traffic: Traffic, now: Instant) -> Instant
        ensures still { (since : Instant) → self ≡ Resting since → traffic.came ≡ false → traffic.sent ≡ 0 → result ≡ since }
        ensures came { traffic.came ≡ true → result ≡ now }
        ensures sent { 0 < traffic.sent → result ≡ now }
    {
        match self {
            Phase::Resting(since) if !traffic.came && traffic.sent == 0 => since,
            _ => now,
        }
    }

    /// What a connection does after a turn. While output waits and nothing more is read, a message has no time: the
    /// peer cannot end it. Nor does a time start where the next turn comes in any case.
    pub(crate) fn after(self, awaited: Awaited, traffic: Traffic, now: Instant) -> Phase
        ensures between { IsBetween awaited → (since : Instant) × (result ≡ Resting since) }
        ensures still { (since : Instant) → IsBetween awaited → self ≡ Resting since → traffic.came ≡ false → traffic.sent ≡ 0 → result ≡ self }
        ensures byte { (begun : Begun) → awaited.reads ≡ true → awaited.message ≡ Some begun.before → message_of self ≡ Some begun → message_of result ≡ Some begun }
        ensures message { (count : ℕ) → awaited.reads ≡ true → awaited.message ≡ Some count → message_of self ≡ None → message_of result ≡ Some (record { before = count; since = now }) }
        ensures again { IsAgain awaited → message_of self ≡ None → result ≡ Busy None None }
        ensures on { (begun : Begun) → IsAgain awaited → awaited.message ≡ Some begun.before → message_of self ≡ Some begun → result ≡ Busy (Some begun) None }
        ensures next { (begun : Begun) → IsAgain awaited → awaited.message ≢ Some begun.before → message_of self ≡ Some begun → result ≡ Busy None None }
        ensures stays { Stays self awaited traffic → result ≡ self }
        ensures output { (old : Unread) → awaited.writes ≡ true → output_of self ≡ Some old → old.stage ≢ Stage.Filling → old.taken + traffic.sent < PIECE → output_of result ≡ Some (record { taken = old.taken + traffic.sent; since = old.since; spans = old.spans; stage = old.stage }) }
    {
        if awaited.message.is_none() && !awaited.writes && !awaited.again {
            return Phase::Resting(self.rested(traffic, now));
        }
        Phase::Busy {
            message: message_after(self.message(), awaited, now),
            output: unread_after(self.output(), awaited.writes, traffic.sent, now),
        }
    }

    /// Whether a connection does after a turn what it did before, whatever the time: its turn comes again, nothing came or
    /// went, and no message has a time.
    pub(crate) fn stays(&self, awaited: Awaited, traffic: Traffic) -> bool
        ensures { result ≡ true → Stays self.now awaited traffic }
    {
        if !awaited.again || awaited.reads || traffic.came || traffic.sent != 0 {
            return false;
        }
        match self {
            Phase::Busy {
                message: None,
                output,
            } => is_still(output, awaited.writes),
            _ => false,
        }
    }

    /// What a connection does, before one more turn, after its time is over, or a span of output that waits. None: it is
    /// late.
    pub(crate) fn once_more(self, limit: Option<Duration>, now: Instant) -> Option<Phase>
        ensures none { output_of self ≡ None → result ≡ None }
        ensures message { (begun : Begun) (most : Duration) → message_of self ≡ Some begun → limit ≡ Some most → as_nanos most ≤ instant_nanos now - instant_nanos begun.since → result ≡ None }
        ensures span { (old : Unread) → message_of self ≡ None → output_of self ≡ Some old → old.spans < SPANS → (next : Unread) × (result ≡ Some (Busy None (Some next))) × (next.taken ≡ old.taken) × (next.spans ≡ old.spans + 1) }
        ensures over { (old : Unread) → output_of self ≡ Some old → SPANS ≤ old.spans → result ≡ None }
    {
        let unread = self.output()?;
        match self.message() {
            Some(begun) if is_over(begun.since, limit, now) => None,
            message => Some(Phase::Busy {
                message,
                output: Some(once_more(unread, now)?),
            }),
        }
    }

    /// Since when it has been waited for, but for output; none: it is not waited for.
    pub(crate) fn since(self) -> Option<Instant>
        ensures resting { (since : Instant) → self ≡ Resting since → result ≡ Some since }
        ensures leaving { (since : Instant) → self ≡ Leaving since → result ≡ Some since }
        ensures busy { (begun : Begun) → message_of self ≡ Some begun → result ≡ Some begun.since }
    {
        match self {
            Phase::Resting(since) => Some(since),
            Phase::Busy { message, .. } => message.map(|it| it.since),
            Phase::Leaving(since) => Some(since),
        }
    }

    /// Since when a span of output that waits lasts; none: none waits.
    pub(crate) fn unread_since(self) -> Option<Instant>
        ensures { (unread : Unread) → output_of self ≡ Some unread → result ≡ Some unread.since }
    {
        self.output().map(|it| it.since)
    }

    /// Whether it has been busy since the same times as in another phase.
    pub(crate) fn has_times_of(self, other: Phase) -> bool {
        match (self, other) {
            (Phase::Busy { .. }, Phase::Busy { .. }) => {
                self.since() == other.since() && self.unread_since() == other.unread_since()
            }
            _ => false,
        }
    }
}
