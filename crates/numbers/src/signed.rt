// A count is a 32-bit number in two's complement; registers and memory have such a number in two words of 16 bits.
ghost use Rattle.std.specs.Prelude.{◌≡◌};
ghost use Rattle.numbers.specs.Signed.{joined};

// The number whose low and high words these are.
pub fn join(low: u16, high: u16) -> i32
    ensures { result ≡ joined low high }
{
    ((u32::from(high) << 16) | u32::from(low)).cast_signed()
}
