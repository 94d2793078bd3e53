//! Words of a text, and the text behind its characters.
ghost use Rattle.std.specs.Prelude.{◌≡◌, ◌+◌, ◌<◌, ◌≤◌, length, take, drop, slice_index};
ghost use Rattle.std.specs.Prelude.{MatchOption, false, true, ◌==◌};
ghost use Rattle.std.specs.List.{before_first, after_first};
ghost use Rattle.std.specs.Str.{IsAscii, str_eq_ignore_ascii_case};
ghost use Rattle.format_codes.specs.Groups.{begins};
ghost use Rattle.format_codes.specs.Sections.{size_behind, character_size};

/// What stands behind the ASCII character at this place, in bytes.
pub fn behind_ascii(text: &str, place: usize) -> &str
    requires within { place < length text.now }
    requires ascii { slice_index text.now place < 128 }
    ensures { result.now ≡ drop (place + 1) text.now }
{
    let (_, behind) = text.split_at(place + 1);
    behind
}

/// How many bytes of a character stand in front, behind its first one.
#[tactic(auto, using(crate::proofs::Boundaries::size_bound))]
fn size_behind(behind: &[u8]) -> usize
    ensures value { result ≡ size_behind behind.now }
    ensures bound { result ≤ length behind.now }
{
    behind.iter().take_while(|b| **b > 127 && **b < 192).count()
}

/// How many bytes the character has that begins a text.
fn character_size(text: &[u8]) -> usize
    ensures { result ≡ character_size text.now }
{
    match text.split_first() {
        Some((_, behind)) => size_behind(behind) + 1,
        None => 0,
    }
}

/// The character that begins a text, if there is one, and what stands behind it.
#[tactic(auto, using(crate::proofs::Boundaries::behind_character))]
pub fn split_character(text: &str) -> (&str, &str)
    ensures first { result.0.now ≡ take (character_size text.now) text.now }
    ensures behind { result.1.now ≡ drop (character_size text.now) text.now }
{
    text.split_at(character_size(text.as_bytes()))
}

/// Whether the text is the word, in either case.
#[tactic(auto, using(crate::proofs::Words::same_word))]
pub fn is_word(text: &[u8], word: &[u8]) -> bool
    ensures { result ≡ str_eq_ignore_ascii_case text.now word.now }
{
    text.eq_ignore_ascii_case(word)
}

/// Whether the text begins with the word, in either case.
pub fn begins(text: &[u8], word: &[u8]) -> bool
    ensures { result ≡ begins word.now text.now }
{
    is_word(text.split_at(word.len().min(text.len())).0, word)
}

/// What stands behind a word of ASCII letters, if the text begins with it in either case.
pub fn behind_word<'a>(text: &'a str, word: &[u8]) -> Option<&'a str>
    requires ascii { IsAscii word.now }
    requires some { 0 < length word.now }
    ensures { MatchOption result (begins word.now text.now ≡ false)
        (λ behind. (begins word.now text.now ≡ true)
        × (behind.now ≡ drop (length word.now) text.now)) }
{
    if !begins(text.as_bytes(), word) {
        return None;
    }
    Some(behind_ascii(text, word.len() - 1))
}

/// What stands before the first such ASCII character, and what behind it; all and nothing where
/// there is none.
pub fn around_first(text: &str, sign: char) -> (&str, &str)
    requires { sign < 128 }
    ensures before { result.0.now ≡ before_first (λ b. b == sign) text.now }
    ensures behind { result.1.now ≡ after_first (λ b. b == sign) text.now }
{
    match text.split_once(sign) {
        Some(parts) => parts,
        None => (text, ""),
    }
}
