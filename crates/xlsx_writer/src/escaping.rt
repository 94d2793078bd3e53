//! Which bytes of a text aren't written as they are, and what is written for each.
ghost use Rattle.std.specs.Prelude.{◌≡◌, false, MatchOption, option_map};
ghost use Rattle.xlsx_writer.specs.Escaping.{escape_of, has_escape, IsCutAt};

/// A way to write texts.
#[derive(Clone, Copy)]
pub enum Escaping {
    /// In an element: CR, `&`, `<` and `>` as references, of which these are the names.
    References,
    /// Between quotes: `&`, `"` and `<` as references.
    Quoted,
    /// Where `_xHHHH_` counts: each `_` as its escape.
    Underscores,
}

/// What a text is up to its first byte that isn't written as it is, what is written for that byte,
/// and what stands behind it.
#[derive(Clone, Copy)]
pub struct Cut<'a> {
    pub run: &'a str,
    pub escape: &'static str,
    pub behind: &'a str,
}

impl Escaping {
    /// What is written for a byte, where it isn't written as it is.
    fn escape(self, byte: u8) -> Option<&'static str>
        ensures { option_map (λ escape. escape.now) result ≡ escape_of self byte }
    {
        match self {
            Escaping::References => match byte {
                b'\r' => Some("#13"),
                b'&' => Some("amp"),
                b'<' => Some("lt"),
                b'>' => Some("gt"),
                _ => None,
            },
            Escaping::Quoted => match byte {
                b'&' => Some("&amp;"),
                b'"' => Some("&quot;"),
                b'<' => Some("&lt;"),
                _ => None,
            },
            Escaping::Underscores => if byte == b'_' { Some("_x005F_") } else { None },
        }
    }

    /// The text, cut at its first byte that isn't written as it is, or None where there is none.
    pub fn cut<'a>(self, text: &'a str) -> Option<Cut<'a>>
        ensures { MatchOption result (has_escape self text.now ≡ false)
            (λ cut. IsCutAt self text.now cut.run.now cut.escape.now cut.behind.now) }
    {
        for (place, byte) in text.as_bytes().iter().enumerate() {
            if let Some(escape) = self.escape(*byte) {
                return Some(Cut {
                    run: &text[..place],
                    escape,
                    behind: &text[place + 1..],
                });
            }
        }
        None
    }
}
