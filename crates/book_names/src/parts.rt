//! The parts of what stands in brackets, and the blanks around them.
ghost use Rattle.std.specs.Prelude.{◌≡◌, ◌-◌, ◌<◌, ◌≤◌, length, take, drop, IfSome, slice_index};
ghost use Rattle.std.specs.Prelude.{option_map, MatchOption, None};
ghost use Rattle.std.specs.List.{suffix_len};
ghost use Rattle.formula_tokens.specs.Tokens.{is_blank_byte};
ghost use Rattle.book_names.specs.Structured.{without_blanks, part_end, first_part};
ghost use Rattle.book_names.specs.Structured.{begins_with_byte};
ghost use Rattle.book_names.specs.Told.{part_told};

use formula_tokens::{behind_blanks, is_blank_byte};

/// A part in brackets without the blanks in it, and what stands behind it and the blanks there.
#[derive(Clone, Copy)]
pub(crate) struct Part<'a> {
    pub(crate) text: &'a str,
    pub(crate) behind: &'a str,
}

/// How many blanks stand at the end.
fn end_blanks(bytes: &[u8]) -> usize
    ensures { result ≡ suffix_len is_blank_byte bytes.now }
{
    bytes
        .iter()
        .rev()
        .take_while(|b| is_blank_byte(**b))
        .count()
}

/// The text without the blanks before it and behind it.
pub(crate) fn without_blanks(text: &str) -> &str
    ensures { result.now ≡ without_blanks text.now }
{
    let text = behind_blanks(text);
    text.split_at(text.len() - end_blanks(text.as_bytes())).0
}

/// Whether the text begins with the byte.
pub(crate) fn begins_with(byte: u8, text: &str) -> bool
    ensures { result ≡ begins_with_byte byte text.now }
{
    text.as_bytes().first() == Some(&byte)
}

/// What stands behind the ASCII byte that a text begins with.
pub(crate) fn behind_first(text: &str) -> &str
    requires some { 0 < length text.now }
    requires ascii { slice_index text.now 0 < 128 }
    ensures { result.now ≡ drop 1 text.now }
{
    text.split_at(1).1
}

/// Where the bracket stands that closes a part: the first that no apostrophe keeps.
#[tactic(auto, using(crate::proofs::PartEnds::part_steps))]
fn part_end(bytes: &[u8]) -> Option<usize>
    ensures value { result ≡ part_end bytes.now }
    ensures there { IfSome result (λ n. (n < length bytes.now) × (slice_index bytes.now n ≡ 93)) }
{
    let mut i = 0;
    while i < bytes.len() {
        if bytes[i] == b']' {
            return Some(i);
        }
        i += if bytes[i] == b'\'' { 2 } else { 1 };
    }
    None
}

/// The part that a text begins with behind its blanks.
pub(crate) fn first_part(text: &str) -> Option<Part<'_>>
    ensures value { option_map part_told result ≡ first_part text.now }
    ensures shorter { IfSome result (λ part. length part.behind.now < length text.now) }
{
    let text = behind_blanks(text);
    if !begins_with(b'[', text) {
        return None;
    }
    let text = behind_first(text);
    let end = part_end(text.as_bytes())?;
    Some(Part {
        text: without_blanks(text.split_at(end).0),
        behind: behind_blanks(text.split_at(end + 1).1),
    })
}
