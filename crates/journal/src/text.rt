// Text written into lent bytes at a place. Each function answers the place after its text; no byte before the place
// or from the answered place on is changed.
ghost use Rattle.std.specs.Prelude.{◌≡◌, [], ◌∷◌, ◌+◌, ◌<◌, ◌≤◌, length};
ghost use Rattle.rules.specs.Text.{decimal};
ghost use Rattle.rules.specs.Transcript.{deviation_text};
ghost use Rattle.journal.specs.Writing.{Wrote};

pub fn put_byte(out: &mut [u8], at: usize, byte: u8) -> usize
    requires { at + 1 ≤ length out.old }
    ensures { Wrote out.old at (byte ∷ []) out.new result }
{
    out[at] = byte;
    at + 1
}

// The bytes of a word, as they are.
pub fn put_word(out: &mut [u8], at: usize, word: &[u8]) -> usize
    requires { at + length word.now ≤ length out.old }
    ensures { Wrote out.old at word.now out.new result }
{
    let end = at + word.len();
    out[at..end].copy_from_slice(word);
    end
}

fn digit(n: u64) -> u8
    requires { n < 10 }
    ensures { result ≡ 48 + n }
{
    b'0' + n as u8
}

// A number in decimal, without leading zeros: the digits before the last are those of a tenth of it.
pub fn put_number(out: &mut [u8], at: usize, n: u64) -> usize
    requires { at + length (decimal n) ≤ length out.old }
    ensures { Wrote out.old at (decimal n) out.new result }
{
    if n < 10 {
        return put_byte(out, at, digit(n));
    }
    let last = put_number(out, at, n / 10);
    put_byte(out, last, digit(n % 10))
}

// A deviation: its number, or `-` for none.
pub fn put_deviation(out: &mut [u8], at: usize, deviation: u16) -> usize
    requires { at + length (deviation_text deviation) ≤ length out.old }
    ensures { Wrote out.old at (deviation_text deviation) out.new result }
{
    if deviation == plan::fields::NO_STATE {
        return put_byte(out, at, b'-');
    }
    put_number(out, at, deviation as u64)
}
