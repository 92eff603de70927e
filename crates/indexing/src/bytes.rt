// Sets of bytes, of which all four words count in both editions: variables, labels, scopes, blocks of a file. And words that stand for bytes, or for names.
use rows::Label;
use sets::Set;

// A byte alone.
pub fn one(v: u8) -> Set {
    sets::single(true, Label(v))
}

// Whether byte v is in the set.
pub fn has(s: &Set, v: u8) -> bool {
    sets::contains(true, *s, Label(v))
}

// Byte v, into the set.
pub fn put(s: &mut Set, v: u8) {
    *s = sets::union(true, *s, one(v));
}

// All of these, into the set.
pub fn add(s: &mut Set, more: Set) {
    *s = sets::union(true, *s, more);
}

// The lowest byte, taken from the set.
pub fn take(s: &mut Set) -> Option<u8> {
    let lowest = sets::take(true, s)?;
    Some(lowest.0)
}

// These bits, into the word of each byte of s.
pub fn mark(words: &mut [u64; 256], s: Set, bits: u64) {
    for v in sets::labels(true, s) {
        let i = usize::from(v.0);
        words[i] = words::join(words[i], bits);
    }
}

// The bits in the words of the bytes of s.
pub fn marked(words: &[u64; 256], s: Set) -> u64 {
    let mut all: u64 = 0;
    for v in sets::labels(true, s) {
        all = words::join(all, words[usize::from(v.0)]);
    }
    all
}

// The same for the 32 names.
pub fn mark_names(words: &mut [u64; 32], names: u64, bits: u64) {
    for n in words::labels(names) {
        let i = n % 32;
        words[i] = words::join(words[i], bits);
    }
}

pub fn marked_names(words: &[u64; 32], names: u64) -> u64 {
    let mut all: u64 = 0;
    for n in words::labels(names) {
        all = words::join(all, words[n % 32]);
    }
    all
}
