ghost use Rattle.std.specs.Prelude.{◌≡◌, ◌+◌, ◌*◌, ◌%◌, ◌^◌, ◌<◌, ◌≤◌, length, IfSome, IfNone};
ghost use Rattle.std.specs.Prelude.{SomeIff};
ghost use Rattle.decimals.specs.Decimals.{digits_in_front, behind_digits};
ghost use Rattle.decimals.specs.Significand.{digit_added, digits_added};

/// The digits of a number that were read so far: how many, how many zeros end them, and the number
/// that they write without those.
#[derive(Clone, Copy)]
pub struct Significand {
    pub number: u128,
    pub zeros: usize,
    pub count: usize,
}

/// The number times ten to the power, where it fits 128 bits. It stops at the first step past them,
/// after at most 39, and takes no memory.
pub fn scaled(number: u128, power: usize) -> Option<u128>
    ensures { SomeIff result (number * 10 ^ power < 2 ^ 128) (number * 10 ^ power) }
{
    if number == 0 {
        return Some(0);
    }
    let mut product = number;
    for _ in 0..power {
        product = product.checked_mul(10)?;
    }
    Some(product)
}

/// The number without the zeros at its end, and how many they are. Zero has none.
pub fn without_zeros(number: u128) -> (u128, u32)
    ensures value { result.0 * 10 ^ result.1 ≡ number }
    ensures trimmed { result.0 % 10 ≡ 0 → result.0 ≡ 0 }
    ensures few { result.1 ≤ 39 }
{
    let mut left = number;
    for zeros in 0..39 {
        if left == 0 || left % 10 != 0 {
            return (left, zeros);
        }
        left /= 10;
    }
    // A number with so many zeros at its end is past 128 bits.
    (left, 39)
}

impl Significand {
    /// No digits.
    pub const NONE: Significand = Significand {
        number: 0,
        zeros: 0,
        count: 0,
    };

    /// One digit more, where the number fits.
    fn with_digit(self, digit: u8) -> Option<Significand>
        requires digit { digit < 10 }
        requires zeros { self.zeros ≤ self.count }
        requires room { self.count < usize.MAX }
        ensures { SomeIff result
            ((digit_added self digit).number < 2 ^ 128) (digit_added self digit) }
    {
        let count = self.count + 1;
        if digit == 0 {
            return Some(Significand {
                number: self.number,
                zeros: self.zeros + 1,
                count,
            });
        }
        let number = scaled(self.number, self.zeros + 1)?.checked_add(u128::from(digit))?;
        Some(Significand {
            number,
            zeros: 0,
            count,
        })
    }

    /// The digits in front of the text more, and what stands behind them. There is no answer where
    /// the number does not fit.
    pub fn read(self, text: &[u8]) -> Option<(Significand, &[u8])>
        requires zeros { self.zeros ≤ self.count }
        requires room { self.count + length text.now ≤ usize.MAX }
        ensures some { IfSome result (λ r. (r.0 ≡ digits_added self (digits_in_front text.now))
            × (r.1.now ≡ behind_digits text.now)) }
        ensures none { IfNone result
            (2 ^ 128 ≤ (digits_added self (digits_in_front text.now)).number) }
        ensures room { IfSome result (λ r. (r.0.zeros ≤ r.0.count) × (self.count ≤ r.0.count)
            × (r.0.count + length r.1.now ≡ self.count + length text.now)) }
    {
        let mut digits = self;
        let mut place = 0;
        while place < text.len() && text[place].is_ascii_digit() {
            digits = digits.with_digit(text[place] - b'0')?;
            place += 1;
        }
        let (_, behind) = text.split_at(place);
        Some((digits, behind))
    }
}
