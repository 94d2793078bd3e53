//! Where words, blanks, texts in apostrophes and groups in brackets end.
ghost use Rattle.std.specs.Prelude.{◌≡◌, ◌-◌, ◌<◌, ◌≤◌, ◌==◌, length, map, position, IfSome};
ghost use Rattle.std.specs.Prelude.{slice_index};
ghost use Rattle.std.specs.List.{prefix_len};
ghost use Rattle.formula_tokens.specs.Tokens.{is_name_byte, is_blank_byte, quotes_end};
ghost use Rattle.formula_tokens.specs.Tokens.{brackets_end, is_begun_by, is_same_name, word_size};
ghost use Rattle.formula_tokens.specs.Tokens.{failures};

/// Whether the byte is an ASCII letter or digit, one of `\ . _ $ ?`, or of another character.
pub(crate) fn is_name_byte(b: u8) -> bool
    ensures { result ≡ is_name_byte b }
{
    b.is_ascii_alphanumeric() || matches!(b, b'\\' | b'.' | b'_' | b'$' | b'?') || b >= 128
}

/// Whether the byte is a blank, a tab or a line end.
pub fn is_blank_byte(b: u8) -> bool
    ensures { result ≡ is_blank_byte b }
{
    matches!(b, b' ' | b'\t' | b'\n' | b'\r')
}

/// How many bytes of names stand in front.
pub(crate) fn name_size(bytes: &[u8]) -> usize
    ensures { result ≡ prefix_len is_name_byte bytes.now }
{
    bytes.iter().take_while(|b| is_name_byte(**b)).count()
}

/// How many blanks stand in front.
pub(crate) fn blank_size(bytes: &[u8]) -> usize
    ensures { result ≡ prefix_len is_blank_byte bytes.now }
{
    bytes.iter().take_while(|b| is_blank_byte(**b)).count()
}

/// Where the first such byte stands.
pub(crate) fn place_of(byte: u8, bytes: &[u8]) -> Option<usize>
    ensures value { result ≡ position (λ b. b == byte) bytes.now }
    ensures there { IfSome result (λ n. (n < length bytes.now) × (slice_index bytes.now n ≡ byte)) }
{
    bytes.iter().position(|b| *b == byte)
}

/// Where the apostrophe stands that closes a text: one that is not doubled.
#[tactic(auto, using(crate::proofs::Closing::quotes_steps))]
pub(crate) fn quotes_end(bytes: &[u8]) -> Option<usize>
    ensures value { result ≡ quotes_end bytes.now }
    ensures there { IfSome result (λ n. (n < length bytes.now) × (slice_index bytes.now n ≡ 39)) }
{
    let mut i = 0;
    while i < bytes.len() {
        if bytes[i] != b'\'' {
            i += 1;
        } else if bytes.get(i + 1) == Some(&b'\'') {
            i += 2;
        } else {
            return Some(i);
        }
    }
    None
}

/// Where the bracket stands that closes one. An apostrophe keeps the byte behind it.
#[tactic(auto, using(crate::proofs::Closing::brackets_steps))]
pub(crate) fn brackets_end(bytes: &[u8]) -> Option<usize>
    ensures value { result ≡ brackets_end 0 bytes.now }
    ensures there { IfSome result (λ n. (n < length bytes.now) × (slice_index bytes.now n ≡ 93)) }
{
    let mut inside = 0usize;
    let mut i = 0;
    while i < bytes.len() {
        let b = bytes[i];
        if b == b']' && inside == 0 {
            return Some(i);
        }
        i += 1;
        if b == b']' {
            inside -= 1;
        } else if b == b'[' {
            inside += 1;
        } else if b == b'\'' && i < bytes.len() {
            // What stands behind it closes nothing.
            i += 1;
        }
    }
    None
}

/// Whether two words are one name: ASCII letters are the same in both cases.
#[tactic(auto, using(crate::proofs::Cutting::same_word))]
pub fn is_same_name(a: &[u8], b: &[u8]) -> bool
    ensures { result ≡ is_same_name a.now b.now }
{
    a.eq_ignore_ascii_case(b)
}

/// Whether the text begins with the word, in either case.
pub(crate) fn is_begun_by(word: &[u8], text: &[u8]) -> bool
    ensures { result ≡ is_begun_by word.now text.now }
{
    is_same_name(text.split_at(word.len().min(text.len())).0, word)
}

/// How long the first of some words is that the text begins with.
fn word_size(words: &[&[u8]], text: &[u8]) -> Option<usize>
    ensures { result ≡ word_size (map (λ w. w.now) words.now) text.now }
{
    for word in words {
        if is_begun_by(word, text) {
            return Some(word.len());
        }
    }
    None
}

/// How long the error is that the text begins with behind the sign of a number, where it is one
/// but that of a lost reference.
#[tactic(auto, using(crate::proofs::Words::failure_ends))]
pub(crate) fn failure_size(text: &[u8]) -> Option<usize>
    ensures value { result ≡ word_size failures text.now }
    ensures there { IfSome result (λ n. (0 < n) × (n ≤ length text.now)
        × (slice_index text.now (n - 1) < 128)) }
{
    let failures: [&[u8]; 16] = [
        b"N/A",
        b"DIV/0!",
        b"NAME?",
        b"NULL!",
        b"NUM!",
        b"VALUE!",
        b"GETTING_DATA",
        b"SPILL!",
        b"CALC!",
        b"FIELD!",
        b"BLOCKED!",
        b"CONNECT!",
        b"BUSY!",
        b"UNKNOWN!",
        b"PYTHON!",
        b"EXTERNAL!",
    ];
    word_size(&failures, text)
}
