//! Tables of the ends of the fundamental sequences in a byte, one for each place of the byte in a word.
ghost use Rattle.std.specs.Prelude.{◌≡◌, ◌<◌};
ghost use Rattle.rice_fast.specs.ahead.{row_of_place};

/// A row for each byte, in order, of the places of its ones: bit by bit, each row so far goes on without the bit's place, and with it.
macro_rules! rows_by_byte {
    ($place:expr, [], $([$($end:tt)*])*) => {
        [$(row_of_eight!($place, [$($end)*], [0 0 0 0 0 0 0 0], [])),*]
    };
    ($place:expr, [$bit:tt $($more:tt)*], $([$($end:tt)*])*) => {
        rows_by_byte!($place, [$($more)*], $([$($end)*] [$($end)* $bit])*)
    };
}

/// The ends of the ones of a byte at a place of a word, and then zeros.
macro_rules! row_of_eight {
    ($place:expr, [], [$($zero:tt)*], [$($end:expr,)*]) => {
        [$($end,)* $($zero),*]
    };
    ($place:expr, [$one:tt $($more:tt)*], [$zero:tt $($zeros:tt)*], [$($end:expr,)*]) => {
        row_of_eight!($place, [$($more)*], [$($zeros)*], [$($end,)* 8 * $place + $one,])
    };
}

/// For each place of a byte and each byte, the number of bits of the word up to and including each 1 of the byte, and then zeros.
static ROWS: [[[u8; 8]; 256]; 7] = [
    rows_by_byte!(0, [1 2 3 4 5 6 7 8], []),
    rows_by_byte!(1, [1 2 3 4 5 6 7 8], []),
    rows_by_byte!(2, [1 2 3 4 5 6 7 8], []),
    rows_by_byte!(3, [1 2 3 4 5 6 7 8], []),
    rows_by_byte!(4, [1 2 3 4 5 6 7 8], []),
    rows_by_byte!(5, [1 2 3 4 5 6 7 8], []),
    rows_by_byte!(6, [1 2 3 4 5 6 7 8], []),
];

/// Returns, for each 1 of `byte` at a place of a word, the number of bits of the word up to and including it, and then zeros.
#[inline(always)]
pub(crate) fn row_of_byte_at(place: usize, byte: u8) -> [u8; 8]
    requires { place < 7 }
    ensures { result ≡ row_of_place place byte }
{
    ROWS[place][byte as usize]
}
