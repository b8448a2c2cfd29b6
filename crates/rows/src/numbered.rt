// Numbers of 64 bits in lent words, two words each: places may pass 2^32.
ghost use Rattle.std.specs.Prelude.{◌≡◌, ◌+◌, ◌*◌, ◌<◌, length};
ghost use Rattle.rows.specs.Numbered.{number, Noted};

const WORD: usize = 0x1_0000_0000;

// The i-th number.
pub fn number_at(words: &[u32], i: usize) -> usize
    requires { 2 * i + 1 < length words.now }
    ensures { result ≡ number words.now i }
{
    words[2 * i] as usize + words[2 * i + 1] as usize * WORD
}

// Writes the i-th number.
pub fn set_number(words: &mut [u32], i: usize, v: usize)
    requires { 2 * i + 1 < length words.old }
    ensures { Noted words.old words.new i v }
{
    words[2 * i] = (v % WORD) as u32;
    words[2 * i + 1] = (v / WORD) as u32;
}
