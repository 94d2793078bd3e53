//! Cuts of a text at ASCII characters and white space, in the words of the definitions.
ghost use Rattle.std.specs.Prelude.{◌≡◌, ◌==◌, ◌<◌, length, MatchOption};
ghost use Rattle.std.specs.List.{position_or_len, before_first, after_first};
ghost use Rattle.attr_text.specs.Attributes.{without_leading_space, without_trailing_space};

/// The text behind its white space in front.
pub(crate) fn trim_start(text: &str) -> &str
    ensures { result.now ≡ without_leading_space text.now }
{
    text.trim_ascii_start()
}

/// The text before the white space at its end.
pub(crate) fn trim_end(text: &str) -> &str
    ensures { result.now ≡ without_trailing_space text.now }
{
    text.trim_ascii_end()
}

/// The parts before and behind the first `mark`, if the text has one.
pub(crate) fn split_first(text: &str, mark: char) -> Option<(&str, &str)>
    requires { mark < 128 }
    ensures { MatchOption result (position_or_len (λ b. b == mark) text.now ≡ length text.now)
        (λ p. (position_or_len (λ b. b == mark) text.now < length text.now)
        × (p.0.now ≡ before_first (λ b. b == mark) text.now)
        × (p.1.now ≡ after_first (λ b. b == mark) text.now)) }
{
    text.split_once(mark)
}
