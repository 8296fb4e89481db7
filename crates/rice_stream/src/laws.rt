//! Theorems on encoding and decoding together, and on each whole and piece by piece.
ghost use Rattle.rice_stream.specs.Laws.{ReturnsBytes, ReturnsBytesAndFill, FeedingIsEncoding, PullsAreDecoding, EnoughIsDecoding, FrontIsPlace, SeekingIsDecoding, EnoughAfterIsDecoding, StandsTellPlaces, SeamsTellPlaces};

/// With the number of samples, decoding what was encoded returns the same bytes.
pub fn returns_bytes()
    ensures { ReturnsBytes }
{}

/// Without the number of samples, decoding what was encoded returns the same bytes and fewer than a segment of samples more.
pub fn returns_bytes_and_fill()
    ensures { ReturnsBytesAndFill }
{}

/// Encoding in pieces of any lengths writes the code of encoding all samples whole.
pub fn feeding_is_encoding()
    ensures { FeedingIsEncoding }
{}

/// Pulls of a code in pieces, to its end, return the samples of decoding it whole. Lengths of pieces and room do not matter.
pub fn pulls_are_decoding()
    ensures { PullsAreDecoding }
{}

/// The first samples of the pulls, up to a count, are those of decoding with that count.
pub fn pulls_to_a_count_are_decoding()
    ensures { EnoughIsDecoding }
{}

/// Pulls of a code in pieces, from an interval's start to the end or to a count, return the samples of the whole code from there on. The
/// start of a code is such a place.
pub fn pulls_from_an_interval_are_decoding()
    ensures front { FrontIsPlace }
    ensures all { SeekingIsDecoding }
    ensures enough { EnoughAfterIsDecoding }
{}

/// At the end of an interval, a stand and a seam report the place where the next begins.
pub fn places_of_intervals_are_reported()
    ensures stands { StandsTellPlaces }
    ensures seams { SeamsTellPlaces }
{}
