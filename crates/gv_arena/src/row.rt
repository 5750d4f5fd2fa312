//! Rows of bytes, copied from one page to another, word by word.
ghost use Rattle.std.specs.Prelude.{◌≡◌, ℕ, ◌+◌, ◌*◌, ◌/◌, ◌%◌, ◌^◌, ◌<◌, ◌≤◌, take, slice_index};
ghost use Rattle.std.specs.Int.{w64, byte_at, to_le_bytes, from_le_bytes};
ghost use Rattle.gv_arena.specs.Rows.{bytes_of, overwritten, row_copied, AreWords, IsPage, IsCopied, IsRowCopied};

use crate::block::Page;
use gv_types::PAGE_WORDS;

/// How many bytes a word has.
const WORD_BYTES: usize = 8;

/// How many values a word can have.
const WORD_VALUES: u128 = 1 << 64;

/// The eight bytes from a byte of the first word on, which go on in the second.
fn window(low: u64, high: u64, byte: usize) -> u64
    requires { byte < 8 }
    ensures { result ≡ (high * 2 ^ 64 + low) / 2 ^ (8 * byte) % 2 ^ 64 }
{
    let both = u128::from(high) * WORD_VALUES + u128::from(low);
    ((both >> (8 * byte)) % WORD_VALUES) as u64
}

/// The eight bytes from a byte of the page on, as a word. Those past the page's end are 0.
fn word_at(words: &Page, at: usize) -> u64
    requires { at < 4096 }
    ensures { (i : ℕ) → i < 8 → byte_at i result ≡ slice_index (bytes_of words.now) (at + i) }
{
    let index = at / WORD_BYTES;
    let next = if index + 1 < PAGE_WORDS {
        words[index + 1]
    } else {
        0
    };
    window(words[index], next, at % WORD_BYTES)
}

/// The word with some of its bytes replaced by the first bytes of a value.
fn with_bytes(word: u64, at: usize, value: u64, count: usize) -> u64
    requires { at + count ≤ 8 }
    ensures { result ≡ from_le_bytes w64 (overwritten (to_le_bytes w64 word) at (take count (to_le_bytes w64 value))) }
{
    if count == WORD_BYTES {
        return value;
    }
    let mut bytes = word.to_le_bytes();
    bytes[at..at + count].copy_from_slice(&value.to_le_bytes()[..count]);
    u64::from_le_bytes(bytes)
}

/// Copies bytes into one word.
fn copy_piece(source: &Page, from: usize, target: &mut Page, to: usize, count: usize)
    requires from { from + count ≤ 4096 }
    requires to { to + count ≤ 4096 }
    requires piece { (0 < count) × (to % 8 + count ≤ 8) }
    ensures copied { IsCopied (bytes_of source.now) (bytes_of target.old) (bytes_of target.new) from to count }
    ensures words { AreWords target.new }
{
    let value = word_at(source, from);
    let word = target[to / WORD_BYTES];
    target[to / WORD_BYTES] = with_bytes(word, to % WORD_BYTES, value, count);
}

/// Copies whole words.
fn copy_words(source: &Page, from: usize, target: &mut Page, to: usize, count: usize)
    requires from { from + count ≤ 512 }
    requires to { to + count ≤ 512 }
    ensures copied { IsCopied (bytes_of source.now) (bytes_of target.old) (bytes_of target.new) (from * 8) (to * 8) (count * 8) }
    ensures words { AreWords target.new }
{
    target[to..to + count].copy_from_slice(&source[from..from + count]);
}

/// Copies the first bytes of a row, in whole words where both sides begin with one, and answers
/// how many.
fn copy_first(source: &Page, from: usize, target: &mut Page, to: usize, count: usize) -> usize
    requires from { from + count ≤ 4096 }
    requires to { to + count ≤ 4096 }
    requires some { 0 < count }
    ensures many { (0 < result) × (result ≤ count) }
    ensures copied { IsCopied (bytes_of source.now) (bytes_of target.old) (bytes_of target.new) from to result }
    ensures words { AreWords target.new }
{
    let words = count / WORD_BYTES;
    if from % WORD_BYTES == 0 && to % WORD_BYTES == 0 && 0 < words {
        copy_words(source, from / WORD_BYTES, target, to / WORD_BYTES, words);
        return words * WORD_BYTES;
    }
    let piece = (WORD_BYTES - to % WORD_BYTES).min(count);
    copy_piece(source, from, target, to, piece);
    piece
}

/// Copies a row of bytes.
pub(crate) fn copy_bytes(
    source: &Page,
    from_byte: usize,
    target: &mut Page,
    to_byte: usize,
    count: usize,
)
    requires from { from_byte + count ≤ 4096 }
    requires to { to_byte + count ≤ 4096 }
    ensures row { target.new ≡ row_copied source.now from_byte target.old to_byte count }
    ensures copied { IsRowCopied source.now target.old target.new from_byte to_byte count }
    ensures source { IsPage source.now }
    ensures target { IsPage target.old }
{
    let mut done = 0;
    while done < count {
        done += copy_first(
            source,
            from_byte + done,
            target,
            to_byte + done,
            count - done,
        );
    }
}
