// Words of 32 bits in bytes, high byte first.
ghost use Rattle.std.specs.Prelude.{◌≡◌, ◌++◌, ◌+◌, ◌*◌, ◌/◌, ◌≤◌, drop, length, min};
ghost use Rattle.meaning.specs.Lines.{word_in, words_in};

// The word at a place.
pub(crate) fn word_at(bytes: &[u8], at: usize) -> u32
    requires { at + 4 ≤ length bytes.now }
    ensures { result ≡ word_in bytes.now at }
{
    u32::from_be_bytes([bytes[at], bytes[at + 1], bytes[at + 2], bytes[at + 3]])
}

// Fills words from the bytes at the front.
pub(crate) fn copy_words(bytes: &[u8], words: &mut [u32])
    requires { 4 * length words.old ≤ length bytes.now }
    ensures { words.new ≡ words_in bytes.now 0 (length words.old) }
{
    for (i, word) in words.iter_mut().enumerate() {
        *word = word_at(bytes, 4 * i);
    }
}

// Fills words from the whole words of the bytes, as far as both go, and answers how many are filled; the further words stay.
pub fn read_words(bytes: &[u8], words: &mut [u32]) -> usize
    ensures count { result ≡ min (length words.old) (length bytes.now / 4) }
    ensures filled { words.new ≡ words_in bytes.now 0 result ++ drop result words.old }
{
    let count = words.len().min(bytes.len() / 4);
    copy_words(bytes, &mut words[..count]);
    count
}
