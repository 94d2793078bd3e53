ghost use Rattle.std.specs.Prelude.{◌≡◌, ◌≤◌, ◌++◌, false, length, take, string_bytes, OnOk, OnErr};
ghost use Rattle.std.specs.Prelude.{IsUtf8};
ghost use Rattle.std.specs.List.{prefix_len};
ghost use Rattle.std.specs.String.Boundary.{IsSplitPoint};
ghost use Rattle.escaped_text.specs.Escaped.{escaped_byte, escaped, is_unescaped, StartsEscaped};
ghost use Rattle.escaped_text.specs.Escaped.{AddsBehind};

use std::alloc::AllocError;

/// How many bytes at the front are written as they are.
fn unescaped_len(bytes: &[u8]) -> usize
    ensures { result ≡ prefix_len is_unescaped bytes.now }
{
    for (place, byte) in bytes.iter().enumerate() {
        if matches!(*byte, b'\\' | b'\t' | b'\n' | b'\r') {
            return place;
        }
    }
    bytes.len()
}

fn escape_of(byte: u8) -> &'static str
    requires { is_unescaped byte ≡ false }
    ensures { result.now ≡ escaped_byte byte }
{
    match byte {
        b'\\' => "\\\\",
        b'\t' => "\\t",
        b'\n' => "\\n",
        _ => "\\r",
    }
}

/// The front of the text that is written as it is, and what comes behind it.
fn split_unescaped(text: &str) -> (&str, &str)
    ensures parts { text.now ≡ result.0.now ++ result.1.now }
    ensures front { escaped result.0.now ≡ result.0.now }
    ensures behind { StartsEscaped result.1.now }
    ensures text { IsUtf8 result.1.now }
{
    text.split_at(unescaped_len(text.as_bytes()))
}

/// Appends the pieces of the text, those that are escaped among them. A refusal may leave a front
/// of them behind.
fn push_pieces(out: &mut String, text: &str) -> Result<(), AllocError>
    ensures ok { OnOk result (string_bytes out.new ≡ string_bytes out.old ++ escaped text.now) }
    ensures err { OnErr result (AddsBehind (string_bytes out.old) (string_bytes out.new)) }
{
    let mut rest = text;
    'pieces: while !rest.is_empty() {
        let (front, behind) = split_unescaped(rest);
        out.push_str(front)?;
        if behind.is_empty() {
            return Ok(());
        }
        out.push_str(escape_of(behind.as_bytes()[0]))?;
        rest = &behind[1..];
    }
    Ok(())
}

/// Gives back what an append came to, and cuts the text back to its first `len` bytes where it was
/// refused.
pub fn or_cut_back(
    out: &mut String,
    len: usize,
    appended: Result<(), AllocError>,
) -> Result<(), AllocError>
    requires { OnErr appended (IsSplitPoint (string_bytes out.old) len) }
    ensures same { result ≡ appended }
    ensures ok { OnOk result (string_bytes out.new ≡ string_bytes out.old) }
    ensures err { OnErr result (string_bytes out.new ≡ take len (string_bytes out.old)) }
{
    if appended.is_err() {
        out.truncate(len);
    }
    appended
}

/// Appends the text, with `\`, tab, LF and CR in two characters each. A refusal leaves the text
/// that it is appended to as it was.
#[tactic(auto, using(crate::proofs::Extending::cut_back))]
pub fn push_escaped(out: &mut String, text: &str) -> Result<(), AllocError>
    ensures ok { OnOk result (string_bytes out.new ≡ string_bytes out.old ++ escaped text.now) }
    ensures err { OnErr result (string_bytes out.new ≡ string_bytes out.old) }
{
    let len = out.len();
    let appended = push_pieces(out, text);
    or_cut_back(out, len, appended)
}
