// A signed 32-bit number as two 16-bit words, the low one first.
ghost use Rattle.std.specs.Prelude.{◌≡◌};
ghost use Rattle.rules.specs.Signed.{bits_of, joined, low_word, high_word};

// The number of a low and a high word.
pub fn join(low: u16, high: u16) -> i32
    ensures { result ≡ joined low high }
{
    (u32::from(low) + 65536 * u32::from(high)).cast_signed()
}

// A number's 32 bits.
pub fn bits_of(z: i32) -> u32
    ensures { result ≡ bits_of z }
{
    z.cast_unsigned()
}

pub fn low_word(z: i32) -> u16
    ensures { result ≡ low_word z }
{
    (bits_of(z) % 65536) as u16
}

pub fn high_word(z: i32) -> u16
    ensures { result ≡ high_word z }
{
    (bits_of(z) / 65536) as u16
}
