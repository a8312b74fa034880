// Words such as `size=2T` to input records: what each word says, which words are refused, and the records that they ask for.
#![tactic(auto)]

pub mod values; // what the text behind `=` gives
pub mod words; // the words one by one
pub mod records; // the records that they ask for

pub use records::make_records;

// What was read of a list of features: those so far, and the sign and name of the one that is being read.
#[derive(Clone, Copy)]
pub struct Names {
    pub mask: u64,
    pub sign: u8,
    pub name: u64,
}

// What a word says: its key and its text's value, where the text stands, and where the next word begins. `number` is 0, or says what is
// wrong.
#[derive(Clone, Copy)]
pub struct Word {
    pub number: u8,
    pub key: usize,
    pub value: u64,
    pub from: usize,
    pub end: usize,
    pub next: usize,
}

// Whether words are a request: `number` is 0, or says what is wrong with the word of this index and key; a missing one has its key alone.
#[derive(Clone, Copy)]
pub struct Verdict {
    pub number: u8,
    pub index: usize,
    pub key: usize,
}

// The records that words ask for: `number` is 0 beside their length; or says what is wrong with the word of this index and key, or, of a
// missing one, its key.
#[derive(Clone, Copy)]
pub struct Made {
    pub number: u32,
    pub index: usize,
    pub key: usize,
    pub length: usize,
}
