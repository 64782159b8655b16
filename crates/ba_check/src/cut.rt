//! Cutting a piece of a text at its line feeds.

ghost use Rattle.std.specs.Prelude.{MatchOption};
ghost use Rattle.ba_check.specs.Lines.{HasNoFeed, IsCut};

use ba_bytes::lines::feed_in;

/// What precedes the first line feed, and what follows it; `None` if there is none.
pub(crate) fn cut(bytes: &[u8]) -> Option<(&[u8], &[u8])>
    ensures { MatchOption result (HasNoFeed bytes.now)
        (λ parts. IsCut bytes.now parts.0.now parts.1.now) }
{
    match feed_in(bytes) {
        Some(place) => Some((&bytes[..place], &bytes[place + 1..])),
        None => None,
    }
}
