// The words, each ended by a zero byte: what each says, which of them is refused, and what stands for a key.
ghost use Rattle.std.specs.Prelude.{◌≡◌, ◌+◌, ◌≤◌, ◌<◌, min, length};
ghost use Rattle.request_words.specs.Words.{no_word, meant as meant_def, word_at, words_from, word_with, given, judged, words_verdict, verdict as verdict_def, missing as missing_def};

use crate::values::{KEYS, LOGICAL, PHYSICAL, SIZE, UUID, key_of, value_of};
use crate::{Verdict, Word};
use text_pages::place_of;

// A word whose name is no key's, a word whose name stands again behind it, and a word that is missing.
pub const UNKNOWN: u8 = 1;

pub const TWICE: u8 = 2;

pub const MISSING: u8 = 5;

// Where the word behind one that ends at `end` begins.
fn next_of(len: usize, end: usize) -> usize
    requires { end ≤ len }
    ensures { result ≡ min (end + 1) len }
{
    if end < len {
        return end + 1;
    }
    len
}

// A word with a key, by the text from `from` to `end`.
fn meant(words: &[u8], key: usize, from: usize, end: usize, next: usize) -> Word
    requires { (from ≤ end) × (end ≤ length words.now) }
    ensures { result ≡ meant_def key from end next words.now }
{
    if key < KEYS {
        let v = value_of(key, &words[from..end]);
        return Word {
            number: v.number,
            key,
            value: v.value,
            from,
            end,
            next,
        };
    }
    Word {
        number: UNKNOWN,
        key: KEYS,
        value: 0,
        from,
        end,
        next,
    }
}

// The word at an offset.
fn word_at(words: &[u8], at: usize) -> Word
    requires { at < length words.now }
    ensures { (result ≡ word_at at words.now) × (at < result.next) × (result.next ≤ length words.now) }
{
    let end = place_of(words, at, 0);
    let eq = place_of(words, at, b'=');
    let next = next_of(words.len(), end);
    if eq < end {
        let key = key_of(&words[at..eq]);
        return meant(words, key, eq + 1, end, next);
    }
    Word {
        number: UNKNOWN,
        key: KEYS,
        value: 0,
        from: at,
        end,
        next,
    }
}

// The first word with the key, from an offset on; where there is none, the key beside it is no word's.
pub(crate) fn find(words: &[u8], from: usize, key: usize) -> Word
    ensures { result ≡ word_with key (words_from from words.now) }
{
    // How far the next word stands shows only once this one is read: an iterator of our own would hold this same walk.
    let mut at = from;
    while at < words.len() {
        let w = word_at(words, at);
        if w.key == key {
            return w;
        }
        at = w.next;
    }
    Word {
        number: UNKNOWN,
        key: KEYS,
        value: 0,
        from: 0,
        end: 0,
        next: 0,
    }
}

// Whether there is a word with the key.
fn has(words: &[u8], key: usize) -> bool
    ensures { result ≡ given key (words_from 0 words.now) }
{
    let w = find(words, 0, key);
    w.key == key
}

// The first word that is refused: by itself, or because its name stands again behind it.
fn judge(words: &[u8]) -> Verdict
    ensures { result ≡ judged 0 (words_from 0 words.now) }
{
    // How far the next word stands shows only once this one is read: an iterator of our own would hold this same walk.
    let mut at = 0;
    let mut index = 0;
    while at < words.len() {
        let w = word_at(words, at);
        if w.number != 0 {
            return Verdict {
                number: w.number,
                index,
                key: w.key,
            };
        }
        let again = find(words, w.next, w.key);
        if again.key == w.key {
            return Verdict {
                number: TWICE,
                index,
                key: w.key,
            };
        }
        at = w.next;
        index += 1;
    }
    Verdict {
        number: 0,
        index: 0,
        key: 0,
    }
}

fn missing(key: usize) -> Verdict
    ensures { result ≡ verdict_def missing_def 0 key }
{
    Verdict {
        number: MISSING,
        index: 0,
        key,
    }
}

// Whether the words are a request: 0; or what is wrong, beside the index and the key of the word or, of a missing one, its key.
pub(crate) fn verdict(words: &[u8]) -> Verdict
    ensures { result ≡ words_verdict words.now }
{
    let v = judge(words);
    if v.number != 0 {
        return v;
    }
    if !has(words, SIZE) {
        return missing(SIZE);
    }
    if !has(words, LOGICAL) {
        return missing(LOGICAL);
    }
    if !has(words, PHYSICAL) {
        return missing(PHYSICAL);
    }
    if !has(words, UUID) {
        return missing(UUID);
    }
    Verdict {
        number: 0,
        index: 0,
        key: 0,
    }
}
