ghost use Rattle.std.specs.Prelude.{◌≡◌, ◌<◌, ◌≤◌, IfOk};
ghost use Rattle.script.specs.Words.{words_of, number, hex_digit, hex_byte, hex_word, hex_bytes, onto, Gives};

use crate::fault::Fault;
use crate::words::Words;
use std::alloc::Global;

// The number that a word writes in decimal digits, or `cap` where it is larger.
pub(crate) fn read_number(word: &[u8], cap: u32) -> Result<u32, Fault>
    requires { cap ≤ 65536 }
    ensures value { result ≡ number cap word.now }
    ensures bound { IfOk result (λ n. n ≤ cap) }
{
    let mut n = 0;
    for c in word {
        if !c.is_ascii_digit() {
            return Err(Fault::NotANumber);
        }
        n = cap.min(10 * n + u32::from(*c - b'0'));
    }
    Ok(n)
}

fn hex_digit(c: u8) -> Result<u8, Fault>
    ensures value { result ≡ hex_digit c }
    ensures bound { IfOk result (λ d. d < 16) }
{
    match c {
        b'0'..=b'9' => Ok(c - b'0'),
        b'A'..=b'F' => Ok(c - b'A' + 10),
        b'a'..=b'f' => Ok(c - b'a' + 10),
        _ => Err(Fault::NotHex),
    }
}

fn hex_byte(high: u8, low: u8) -> Result<u8, Fault>
    ensures { result ≡ hex_byte high low }
{
    Ok(16 * hex_digit(high)? + hex_digit(low)?)
}

// Appends the bytes that the pairs of digits of a word write.
pub(crate) fn push_hex(bytes: &mut Vec<u8>, word: &[u8]) -> Result<(), Fault>
    ensures { Gives (λ _. bytes.new.items) result (onto bytes.old.items (hex_word word.now)) }
{
    let (pairs, rest) = word.as_chunks::<2>();
    for [high, low] in pairs {
        bytes.push(hex_byte(*high, *low)?)?;
    }
    match rest {
        [] => Ok(()),
        [only, ..] => {
            hex_digit(*only)?;
            Err(Fault::OddDigits)
        }
    }
}

// The bytes that the words to the end of the line write.
pub(crate) fn read_hex(heap: Global, words: Words<'_>) -> Result<Vec<u8>, Fault>
    ensures { Gives (λ v. v.items) result (hex_bytes (words_of words.entry.rest.now)) }
{
    let mut bytes = Vec::new(heap);
    for word in words {
        push_hex(&mut bytes, word)?;
    }
    Ok(bytes)
}
