//! The digits of a whole number, of which the last are zeros that are only counted.
ghost use Rattle.std.specs.Prelude.{◌≡◌, ◌<◌, ◌≤◌, ◌^◌, length, nat_abs, IfSome};
ghost use Rattle.std.specs.Str.{IsAscii};
ghost use Rattle.decimals.specs.Words.{without_trailing_zeros};

use excel_dates::push_zeros;
use std::alloc::AllocError;

/// Digits, of which the last are zeros that are only counted.
#[derive(Clone, Copy)]
pub struct Digits<'a> {
    pub text: &'a str,
    pub zeros: usize,
    pub ghost ascii: { IsAscii text.now },
    pub ghost few: { zeros < 2 ^ 62 },
}

/// The digits without the zeros at their end.
pub fn without_trailing_zeros(digits: &str) -> &str
    requires { IsAscii digits.now }
    ensures { result.now ≡ without_trailing_zeros digits.now }
{
    let bytes = digits.as_bytes();
    let mut len = bytes.len();
    while len > 0 && bytes[len - 1] == b'0' {
        len -= 1;
    }
    let (front, _) = digits.split_at(len);
    front
}

impl Digits<'_> {
    ghost use Rattle.std.specs.Prelude.{◌-◌, ◌++◌, take, string_bytes, OnOk, OnErr};
    ghost use Rattle.escaped_text.specs.Escaped.{AddsBehind};
    ghost use Rattle.decimals.specs.Words.{trailing_zeros};
    ghost use Rattle.shown_text.specs.Digits.{digit_at};
    ghost use Rattle.shown_text.specs.GivenDigits.{digits_in};

    /// How many digits there are.
    pub fn len(&self) -> usize
        ensures { result ≡ length (digits_in self.now) }
    {
        self.text.len() + self.zeros
    }

    /// The digit that has so many digits behind it, if there is one.
    pub fn at(&self, place: usize) -> Option<u8>
        ensures value { result ≡ digit_at (digits_in self.now) place }
        ensures ascii { IfSome result (λ digit. digit < 128) }
    {
        if place < self.zeros {
            return Some(b'0');
        }
        let behind = place - self.zeros;
        if behind < self.text.len() {
            return Some(self.text.as_bytes()[self.text.len() - behind - 1]);
        }
        None
    }

    /// How many zeros end the digits.
    pub fn trailing_zeros(&self) -> usize
        ensures { result ≡ trailing_zeros (digits_in self.now) }
    {
        self.zeros + (self.text.len() - without_trailing_zeros(self.text).len())
    }

    /// The digits in front of the last `places` ones.
    pub fn without_last(&self, places: usize) -> Digits<'_>
        ensures { digits_in result
            ≡ take (length (digits_in self.now) - places) (digits_in self.now) }
    {
        if places <= self.zeros {
            return Digits {
                text: self.text,
                zeros: self.zeros - places,
            };
        }
        let left = self.text.len().saturating_sub(places - self.zeros);
        let (text, _) = self.text.split_at(left);
        Digits { text, zeros: 0 }
    }

    /// Appends the digits.
    pub fn push_to(&self, out: &mut String) -> Result<(), AllocError>
        ensures ok { OnOk result
            (string_bytes out.new ≡ string_bytes out.old ++ digits_in self.now) }
        ensures err { OnErr result (AddsBehind (string_bytes out.old) (string_bytes out.new)) }
    {
        out.push_str(self.text)?;
        push_zeros(out, self.zeros)
    }
}
