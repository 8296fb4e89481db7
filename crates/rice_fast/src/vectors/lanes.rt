//! Vectors of numbers, with lanes of 8, 16 and 32 bits.
ghost use Rattle.std.specs.Prelude.{◌≡◌, ℕ, List, ◌+◌, ◌-◌, ◌*◌, ◌/◌, ◌%◌, ◌^◌, ◌<◌, ◌≤◌, ◌∷◌, ◌++◌, All, true, bit_and, bit_or, get_or, length, min, replicate, take, map, nat_lt, if◌then◌else◌};
ghost use Rattle.std.specs.{Int.Bits.bit_xor, Simd.Lanes.zip2, Simd.Lanes.put_chunk};

pub mod bytes;
pub mod halves;
pub mod words;

/// A vector of numbers. Sums and differences wrap.
pub trait Lanes: Copy {
    /// A number in memory.
    type Number: Copy;

    /// The number of lanes.
    const COUNT: usize;

    ghost COUNT: { ℕ };

    /// The greatest number of a lane.
    const MOST: u32;

    ghost MOST: { ℕ };

    // The bits of a lane.
    ghost bits: { ℕ };

    ghost numbers: { Self → List ℕ };

    ghost number: { Self.Number → ℕ };

    /// Returns a vector with `x` in each lane.
    fn splat(x: u32) -> Self
        requires { x < 2 ^ bits }
        ensures { numbers result ≡ replicate COUNT x };

    /// Reads a vector from numbers in memory.
    fn read(from: &[Self::Number]) -> Self
        requires { length from.now ≡ COUNT }
        ensures { numbers result ≡ map number from.now };

    /// Converts a number to its form in memory.
    fn number_of(x: u32) -> Self::Number
        requires { x < 2 ^ bits }
        ensures { number result ≡ x };

    /// Converts a number from its form in memory.
    fn value(x: Self::Number) -> u32
        ensures { result ≡ number x };

    /// Converts a difference that wraps at the bits of a lane to one that wraps at 32 bits.
    fn widened_way(x: Self::Number) -> u32
        ensures { result ≡ if nat_lt (number x) (2 ^ (bits - 1)) then number x else number x + (2 ^ 32 - 2 ^ bits) };

    /// Writes the numbers at `at`.
    fn write(self, to: &mut [u32], at: usize)
        requires { at + COUNT ≤ length to.old }
        ensures { to.new ≡ put_chunk at to.old (numbers self) };

    /// Returns the sums, lane by lane.
    fn plus(self, other: Self) -> Self
        ensures { numbers result ≡ zip2 (λ a b. (a + b) % 2 ^ bits) (numbers self) (numbers other) };

    /// Returns the differences, lane by lane.
    fn minus(self, other: Self) -> Self
        ensures { numbers result
            ≡ zip2 (λ a b. (a + (2 ^ bits - b)) % 2 ^ bits) (numbers self) (numbers other) };

    /// Returns by how much each number exceeds the other, or 0.
    fn above(self, other: Self) -> Self
        ensures { numbers result ≡ zip2 (λ a b. a - b) (numbers self) (numbers other) };

    /// Returns the lesser number of each lane.
    fn least(self, other: Self) -> Self
        ensures { numbers result ≡ zip2 min (numbers self) (numbers other) };

    /// Returns half of each number, rounded down.
    fn half(self) -> Self
        ensures { numbers result ≡ map (λ a. a / 2) (numbers self) };

    /// Returns the bits set in both numbers of a lane.
    fn and(self, other: Self) -> Self
        ensures { numbers result ≡ zip2 bit_and (numbers self) (numbers other) };

    /// Returns the bits set in either number of a lane.
    fn or(self, other: Self) -> Self
        ensures { numbers result ≡ zip2 bit_or (numbers self) (numbers other) };

    /// Returns the bits set in just one number of a lane.
    fn xor(self, other: Self) -> Self
        ensures { numbers result ≡ zip2 bit_xor (numbers self) (numbers other) };

    /// Returns the numbers times 2^`width`, if all of these fit.
    fn times_power_of_two(self, width: u32) -> Self
        requires { width < bits }
        ensures { All (λ m. m ≤ (2 ^ bits - 1) / 2 ^ width) (numbers self) →
            numbers result ≡ map (λ m. m * 2 ^ width) (numbers self) };

    /// Returns true only if all numbers are 0.
    fn is_zero(self) -> bool
        ensures { result ≡ true → numbers self ≡ replicate COUNT 0 };

    /// Returns the last number.
    fn last(self) -> u32
        ensures { result ≡ get_or (numbers self) (COUNT - 1) 0 };

    /// Returns the last number of `earlier`, and all but the last of these.
    fn before(self, earlier: Self) -> Self
        ensures { numbers result
            ≡ take COUNT (get_or (numbers earlier) (COUNT - 1) 0 ∷ numbers self) };

    /// Returns a 0, and all but the last number.
    #[inline(always)]
    fn moved_by_one(self) -> Self
        ensures { numbers result ≡ take COUNT (replicate 1 0 ++ numbers self) }
    {
        self.before(Self::splat(0))
    }

    /// Returns two zeros, and all but the last two numbers.
    #[inline(always)]
    fn moved_by_two(self) -> Self
        ensures { numbers result ≡ take COUNT (replicate 2 0 ++ numbers self) }
    {
        self.moved_by_one().moved_by_one()
    }

    /// Returns four zeros, and all but the last four numbers.
    #[inline(always)]
    fn moved_by_four(self) -> Self
        ensures { numbers result ≡ take COUNT (replicate 4 0 ++ numbers self) }
    {
        self.moved_by_two().moved_by_two()
    }

    /// Returns eight zeros, and the numbers before the last eight.
    #[inline(always)]
    fn moved_by_eight(self) -> Self
        ensures { numbers result ≡ take COUNT (replicate 8 0 ++ numbers self) }
    {
        self.moved_by_four().moved_by_four()
    }

    ghost len: { (v : Self) → length (numbers v) ≡ COUNT };

    ghost fits: { (v : Self) (i : ℕ) → get_or (numbers v) i 0 < 2 ^ bits };

    ghost some: { 0 < COUNT };

    ghost two_values: { 1 < 2 ^ bits };

    ghost most_is: { MOST ≡ 2 ^ bits - 1 };

    ghost most_bits: { bits ≤ 32 };

    ghost most: { COUNT ≤ 16 };
}
