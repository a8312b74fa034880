// What the text behind `=` gives, by the word's key.
ghost use Rattle.std.specs.Prelude.{◌≡◌, ◌≤◌, ◌<◌, eqb, length, get_or, position};
ghost use Rattle.std.specs.List.{fold};
ghost use Rattle.request_texts.specs.Texts.{good_value as good_def, packed_name};
ghost use Rattle.request_words.specs.Values.{index_in, names, largest_values as largest_def, feature_names, weights, turned as turned_def, last_feature as finished_def, features_read, next_byte, feature_mask as listed_def, features_text, sizings, sizing_in, profile_in, hex as hex_def, is_dash, fits_at, shaped as shaped_def, uuid_in, value_in, limited as limited_def};

use crate::Names;
use request_texts::{MALFORMED, TOO_LARGE, Value, number, pack, push, refused};

// The keys that are no option's code, and the options whose text is no number.
pub const LABEL: usize = 0;

pub const FEATURES: usize = 9;

pub const SIZING: usize = 12;

pub const PROFILE: usize = 13;

pub const SIZE: usize = 14;

pub const LOGICAL: usize = 15;

pub const PHYSICAL: usize = 16;

pub const UUID: usize = 17;

// How many keys there are.
pub const KEYS: usize = 18;

// The words' names as numbers, by key.
const NAMES: [u64; 18] = [
    22543520,
    29457,
    4376815,
    1327085900,
    17597279,
    3057545673,
    83438779,
    23996120990,
    969441,
    582527810579,
    1025867,
    67500790746080019,
    1335732456,
    42328242873,
    975695,
    31842455423,
    1541205513417,
    1092799,
];

// The largest value of each key.
const LARGEST: [u64; 18] = [
    12,
    0xffff_ffff_ffff_ffff,
    0xffff_ffff,
    0xffff_ffff,
    0xffff_ffff,
    0xffff_ffff_ffff_ffff,
    0xffff_ffff_ffff_ffff,
    255,
    0xffff_ffff_ffff_ffff,
    127,
    0xffff_ffff_ffff_ffff,
    0xffff_ffff,
    1,
    1,
    0xffff_ffff_ffff_ffff,
    0xffff_ffff,
    0xffff_ffff,
    1,
];

// The features' names as numbers, by bit, and what each bit weighs.
const FEATURE_NAMES: [u64; 7] = [
    433660962,
    1272627970,
    46541660799,
    1220260873411105,
    5769693425,
    37178976061,
    1347597762,
];

const WEIGHTS: [u64; 7] = [1, 2, 4, 8, 16, 32, 64];

// The features of a text that is no list.
const NO_FEATURES: u64 = 128;

// `plain`, `roomy`, `station`, `none` and `all`.
const SIZINGS: [u64; 2] = [30596128, 34515734];

const STATION: u64 = 50138581022;

const NONE: u64 = 730200;

const ALL: u64 = 1825;

fn good(value: u64) -> Value
    ensures { result ≡ good_def value }
{
    Value { number: 0, value }
}

// Where a name stands in a table of names.
fn place_in(table: &[u64], name: u64) -> Option<usize>
    ensures { result ≡ position (λ n. eqb n name) table.now }
{
    table.iter().position(|n| *n == name)
}

// The same; the table's length where it doesn't stand there.
fn index_in(table: &[u64], name: u64) -> usize
    ensures { (result ≡ index_in table.now name) × (result ≤ length table.now) }
{
    place_in(table, name).unwrap_or(table.len())
}

// The key of a name; 18 where it is no word's.
pub(crate) fn key_of(name: &[u8]) -> usize
    ensures { (result ≡ index_in names (packed_name name.now)) × (result ≤ 18) }
{
    index_in(&NAMES, pack(name))
}

// What a bit weighs; 0 where it is no feature's.
fn weight(bit: usize) -> u64
    ensures { (result ≡ get_or weights bit 0) × (result ≤ 64) }
{
    WEIGHTS.get(bit).copied().unwrap_or(0)
}

// A feature of weight w turned on or off.
#[tactic(auto, unfolding(crate::specs::Values::turned, arith::specs::Choice::when))]
fn turned(mask: u64, sign: u8, w: u64) -> u64
    requires { w ≤ 64 }
    ensures { result ≡ turned_def mask sign w }
{
    if NO_FEATURES <= mask || w == 0 {
        return NO_FEATURES;
    }
    let is_on = mask / w % 2 == 1;
    match sign {
        b'+' if !is_on => mask + w,
        b'-' if is_on => mask.saturating_sub(w),
        b'+' | b'-' => mask,
        _ => NO_FEATURES,
    }
}

// The features with the one that was read last.
fn finished(s: Names) -> u64
    ensures { result ≡ finished_def s }
{
    let bit = index_in(&FEATURE_NAMES, s.name);
    turned(s.mask, s.sign, weight(bit))
}

// One byte of the list more.
fn next_byte(s: Names, b: u8) -> Names
    ensures { result ≡ next_byte s b }
{
    if b == b',' {
        return Names {
            mask: finished(s),
            sign: 0,
            name: 0,
        };
    }
    if s.sign == 0 {
        return Names {
            mask: s.mask,
            sign: b,
            name: 0,
        };
    }
    Names {
        name: push(s.name, b),
        ..s
    }
}

// What was read of a list of features at its end.
fn names_in(text: &[u8]) -> Names
    ensures { result ≡ fold next_byte (features_read 127 0 0) text.now }
{
    let none_read = Names {
        mask: 127,
        sign: 0,
        name: 0,
    };
    text.iter().fold(none_read, |s, b| next_byte(s, *b))
}

// A list of features.
fn listed(text: &[u8]) -> u64
    ensures { result ≡ listed_def text.now }
{
    finished(names_in(text))
}

// `none`, `all`, or a list of features.
fn features(text: &[u8]) -> Value
    ensures { result ≡ features_text text.now }
{
    let name = pack(text);
    if name == NONE {
        return good(0);
    }
    if name == ALL {
        return good(127);
    }
    let mask = listed(text);
    if mask < NO_FEATURES {
        return good(mask);
    }
    refused(MALFORMED)
}

// The log's sizing, by its name.
fn sizing(text: &[u8]) -> Value
    ensures { result ≡ sizing_in text.now }
{
    let i = index_in(&SIZINGS, pack(text));
    if i < 2 {
        return good(i as u64);
    }
    refused(MALFORMED)
}

// The profile, by its name.
fn profile(text: &[u8]) -> Value
    ensures { result ≡ profile_in text.now }
{
    if pack(text) == STATION {
        return good(1);
    }
    refused(MALFORMED)
}

// The value of a hexadecimal digit; 16 of any other byte.
#[tactic(auto, unfolding(crate::specs::Values::hex))]
pub(crate) fn hex(b: u8) -> u8
    ensures { (result ≡ hex_def b) × (result ≤ 16) }
{
    match b {
        b'a'..=b'f' => b - b'a' + 10,
        b'A'..=b'F' => b - b'A' + 10,
        b'0'..=b'9' => b - b'0',
        _ => 16,
    }
}

fn is_dash(i: usize) -> bool
    ensures { result ≡ is_dash i }
{
    matches!(i, 8 | 13 | 18 | 23)
}

// Whether the byte may stand at index i of a UUID: four dashes, hexadecimal digits else.
fn fits_at(i: usize, b: u8) -> bool
    ensures { result ≡ fits_at i b }
{
    if is_dash(i) {
        return b == b'-';
    }
    hex(b) < 16
}

fn shaped(text: &[u8]) -> bool
    ensures { result ≡ shaped_def 0 text.now }
{
    for (i, b) in text.iter().enumerate() {
        if !fits_at(i, *b) {
            return false;
        }
    }
    true
}

// Whether the text is a UUID (1) or says that none is wanted (0).
fn uuid(text: &[u8]) -> Value
    ensures { result ≡ uuid_in text.now }
{
    if pack(text) == NONE {
        return good(0);
    }
    if text.len() == 36 {
        if shaped(text) {
            return good(1);
        }
        return refused(MALFORMED);
    }
    refused(MALFORMED)
}

// The text's value, before its size is asked for; of a label it is the length.
fn value_in(key: usize, text: &[u8]) -> Value
    ensures { result ≡ value_in key text.now }
{
    if key == LABEL {
        return good(text.len() as u64);
    }
    if key == FEATURES {
        return features(text);
    }
    if key == SIZING {
        return sizing(text);
    }
    if key == PROFILE {
        return profile(text);
    }
    if key == UUID {
        return uuid(text);
    }
    number(text)
}

// The largest value of a key.
#[tactic(auto, unfolding(crate::specs::Values::largest_values))]
fn largest(key: usize) -> u64
    ensures { result ≡ get_or largest_def key 0 }
{
    LARGEST.get(key).copied().unwrap_or(0)
}

// The text's value, unless it is larger than its key allows.
pub(crate) fn value_of(key: usize, text: &[u8]) -> Value
    ensures { result ≡ limited_def key (value_in key text.now) }
{
    let v = value_in(key, text);
    if v.value <= largest(key) {
        return v;
    }
    refused(TOO_LARGE)
}
