ghost use Rattle.std.specs.Prelude.{◌≡◌, ◌-◌, length};
ghost use Rattle.std.specs.List.{prefix_len, suffix_len};
ghost use Rattle.xlsx_strings.specs.Strings.{is_blank, trimmed};

fn is_blank(byte: u8) -> bool
    ensures { result ≡ is_blank byte }
{
    byte == b' ' || byte == b'\t' || byte == b'\r' || byte == b'\n'
}

/// How many blanks a text begins with.
fn leading_blanks(text: &[u8]) -> usize
    ensures { result ≡ prefix_len is_blank text.now }
{
    for (at, byte) in text.iter().enumerate() {
        if !is_blank(*byte) {
            return at;
        }
    }
    text.len()
}

/// How many bytes a text has before the blanks at its end.
fn kept_len(text: &[u8]) -> usize
    ensures { result ≡ length text.now - suffix_len is_blank text.now }
{
    let mut end = text.len();
    'blanks: while end > 0 && is_blank(text[end - 1]) {
        end -= 1;
    }
    end
}

/// A text without the spaces, tabs, CRs and LFs at its front and its end.
pub fn trimmed(text: &str) -> &str
    ensures { result.now ≡ trimmed text.now }
{
    let behind = &text[leading_blanks(text.as_bytes())..];
    &behind[..kept_len(behind.as_bytes())]
}
