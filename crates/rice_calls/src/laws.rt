//! Theorems on encoding and decoding together.
ghost use Rattle.rice_calls.specs.Laws.{ReturnsBytes, ReturnsBytesAndFill, RoomSuffices, PushRoomSuffices, PullsAreDecoding, EnoughIsDecoding, DrainsTellPlaces, FeedsTellPlaces};

/// Decoding what was encoded returns the same bytes, if the output has room for them.
pub fn returns_bytes()
    ensures { ReturnsBytes }
{}

/// Without a count, decoding what was encoded returns the same bytes and fewer than a segment of samples more, or finds no room.
pub fn returns_bytes_and_fill()
    ensures { ReturnsBytesAndFill }
{}

/// Encoding into `code_room` bytes never fails for want of room, nor does decoding `count` samples into `count` times their width.
pub fn room_suffices()
    ensures { RoomSuffices }
{}

/// `push` and `finish` into `push_room` bytes never fail for want of room.
pub fn push_room_suffices()
    ensures { PushRoomSuffices }
{}

/// Pulls of a code in pieces, from its start or an interval's start to its end, write the bytes that one call writes from there on. They
/// end in the same way. Lengths of pieces and room do not matter.
pub fn pulls_are_decoding()
    ensures { PullsAreDecoding }
{}

/// The first samples of the pulls, up to a count, are those of decoding with that count.
pub fn pulls_to_a_count_are_decoding()
    ensures { EnoughIsDecoding }
{}

/// At the end of an interval, a drain and a feed report the place where the next begins.
pub fn places_of_intervals_are_reported()
    ensures drains { DrainsTellPlaces }
    ensures feeds { FeedsTellPlaces }
{}
