ghost use Rattle.std.specs.Prelude.{◌≡◌};
ghost use Rattle.format_codes.specs.Pieces.{is_figure, is_digit, is_zero_place, is_point_piece};
ghost use Rattle.format_codes.specs.Pieces.{is_comma, is_percent, is_slash_piece, is_text_place};
ghost use Rattle.format_codes.specs.Pieces.{is_general, is_exponent, is_passed, is_second_digits};
ghost use Rattle.format_codes.specs.Pieces.{is_half_day, is_time, is_condition};
ghost use Rattle.format_codes.specs.Pieces.{is_foreign_language, is_unsupported_piece, is_divider};
ghost use Rattle.format_codes.specs.Pieces.{unit_of, as_condition};

/// What the place of a digit shows where a number has no digit for it.
#[derive(Clone, Copy, Debug, PartialEq, Eq)]
pub enum Filler {
    /// `0`: a zero.
    Zero,
    /// `#`: nothing.
    Nothing,
    /// `?`: a space.
    Space,
}

/// What a part of a date or of a time counts.
#[derive(Clone, Copy, Debug, PartialEq, Eq)]
pub enum TimeUnit {
    Year,
    /// `m` and `mm` beside hours and seconds are minutes, which `timed_pieces` tells.
    Month,
    Day,
    Hour,
    Minute,
    Second,
}

/// How the halves of a day are shown.
#[derive(Clone, Copy, Debug)]
pub enum HalfDay {
    /// `AM` before noon, and `PM` from noon on.
    Words,
    /// The letter before noon, and the one from noon on, as the code has them.
    Letters(char, char),
}

/// How a condition compares a number with its own.
#[derive(Clone, Copy, Debug, PartialEq, Eq)]
pub enum Comparison {
    /// `<`
    Below,
    /// `<=`
    UpTo,
    /// `>`
    Above,
    /// `>=`
    From,
    /// `=`
    Equal,
    /// `<>`
    Unequal,
}

/// A condition on the numbers that a section shows.
#[derive(Clone, Copy, Debug)]
pub struct Condition {
    pub comparison: Comparison,
    /// A whole number, and the power of ten that it is taken times.
    pub number: (i128, i32),
}

/// A piece of a number format code (ECMA-376 part 1, section 18.8.31).
#[derive(Clone, Copy, Debug)]
pub enum CodePiece {
    /// A character that stands for itself.
    Literal(char),
    /// A text that stands for itself and has no character, as `""`.
    EmptyLiteral,
    /// A digit from 1 to 9, which stands for itself.
    Figure(char),
    /// The place of a digit.
    Digit(Filler),
    Point,
    Comma,
    Percent,
    Slash,
    /// `@`, the place of a text.
    TextPlace,
    /// The word General.
    General,
    /// `E+` or `E-`: its letter as written, and whether a plus is shown.
    Exponent(char, bool),
    /// A part of a date or of a time of day, and how often its letter stands.
    TimePart(TimeUnit, usize),
    /// The same in brackets: a time that has passed.
    Passed(TimeUnit, usize),
    /// So many digits of a second, with the point before them.
    SecondDigits(usize),
    HalfDay(HalfDay),
    Condition(Condition),
    /// A language that isn't English.
    Foreign,
    /// `;`, which divides sections.
    Divider,
    /// What isn't supported.
    Unknown,
}

impl CodePiece {
    /// Whether the piece is a digit from 1 to 9.
    pub fn is_figure(self) -> bool
        ensures { result ≡ is_figure self }
    {
        matches!(self, CodePiece::Figure(_))
    }

    /// Whether the piece is the place of a digit.
    pub fn is_digit(self) -> bool
        ensures { result ≡ is_digit self }
    {
        matches!(self, CodePiece::Digit(_))
    }

    /// Whether the piece is the place of a digit that is `0`.
    pub fn is_zero(self) -> bool
        ensures { result ≡ is_zero_place self }
    {
        matches!(self, CodePiece::Digit(Filler::Zero))
    }

    /// Whether the piece is the point.
    pub fn is_point(self) -> bool
        ensures { result ≡ is_point_piece self }
    {
        matches!(self, CodePiece::Point)
    }

    /// Whether the piece is a comma.
    pub fn is_comma(self) -> bool
        ensures { result ≡ is_comma self }
    {
        matches!(self, CodePiece::Comma)
    }

    /// Whether the piece is `%`.
    pub fn is_percent(self) -> bool
        ensures { result ≡ is_percent self }
    {
        matches!(self, CodePiece::Percent)
    }

    /// Whether the piece is `/`.
    pub fn is_slash(self) -> bool
        ensures { result ≡ is_slash_piece self }
    {
        matches!(self, CodePiece::Slash)
    }

    /// Whether the piece is `@`.
    pub fn is_text_place(self) -> bool
        ensures { result ≡ is_text_place self }
    {
        matches!(self, CodePiece::TextPlace)
    }

    /// Whether the piece is the word General.
    pub fn is_general(self) -> bool
        ensures { result ≡ is_general self }
    {
        matches!(self, CodePiece::General)
    }

    /// Whether the piece is `E+` or `E-`.
    pub fn is_exponent(self) -> bool
        ensures { result ≡ is_exponent self }
    {
        matches!(self, CodePiece::Exponent(_, _))
    }

    /// Whether the piece is a part of a date in brackets: a time that has passed.
    pub fn is_passed(self) -> bool
        ensures { result ≡ is_passed self }
    {
        matches!(self, CodePiece::Passed(_, _))
    }

    /// Whether the piece is digits of a second.
    pub fn is_second_digits(self) -> bool
        ensures { result ≡ is_second_digits self }
    {
        matches!(self, CodePiece::SecondDigits(_))
    }

    /// Whether the piece is a half of a day.
    pub fn is_half_day(self) -> bool
        ensures { result ≡ is_half_day self }
    {
        matches!(self, CodePiece::HalfDay(_))
    }

    /// Whether the piece is a condition.
    pub fn is_condition(self) -> bool
        ensures { result ≡ is_condition self }
    {
        matches!(self, CodePiece::Condition(_))
    }

    /// Whether the piece is a language that isn't English.
    pub fn is_foreign(self) -> bool
        ensures { result ≡ is_foreign_language self }
    {
        matches!(self, CodePiece::Foreign)
    }

    /// Whether the piece is `;`.
    pub fn is_divider(self) -> bool
        ensures { result ≡ is_divider self }
    {
        matches!(self, CodePiece::Divider)
    }

    /// Whether the piece is what isn't supported.
    pub fn is_unknown(self) -> bool
        ensures { result ≡ is_unsupported_piece self }
    {
        matches!(self, CodePiece::Unknown)
    }

    /// Whether the piece is a part of a date, in brackets or not, or a half of a day.
    pub fn is_time(self) -> bool
        ensures { result ≡ is_time self }
    {
        matches!(
            self,
            CodePiece::TimePart(_, _) | CodePiece::Passed(_, _) | CodePiece::HalfDay(_)
        )
    }

    /// The unit of a part of a date, in brackets or not.
    pub fn unit(self) -> Option<TimeUnit>
        ensures { result ≡ unit_of self }
    {
        match self {
            CodePiece::TimePart(unit, _) | CodePiece::Passed(unit, _) => Some(unit),
            _ => None,
        }
    }

    /// The condition that the piece is.
    pub fn condition(self) -> Option<Condition>
        ensures { result ≡ as_condition self }
    {
        match self {
            CodePiece::Condition(condition) => Some(condition),
            _ => None,
        }
    }
}
