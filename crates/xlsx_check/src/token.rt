ghost use Rattle.std.specs.Prelude.{◌≡◌};
ghost use Rattle.std.specs.Option.{option_map};
ghost use Rattle.formula_shift.specs.Words.{word_kind, piece_reference};
ghost use Rattle.xlsx_check.specs.Tokens.{symbol_token, pair_symbol, is_space_or_line_end};
ghost use Rattle.xlsx_check.specs.Tokens.{is_plain_number, word_token, refers_or, is_operand_end};
ghost use Rattle.xlsx_check.specs.Tokens.{signed};
ghost use Rattle.xlsx_check.specs.Denoting.{wanted_by};
ghost use Rattle.xlsx_check.specs.TokenView.{token_of};

use cell_data::Decimal;
use formula_shift::{Piece, Reference};

/// How two numbers are compared.
#[derive(Clone, Copy, Debug, PartialEq, Eq)]
pub enum Comparison {
    Equal,
    Unequal,
    Below,
    Above,
    UpTo,
    From,
}

/// A token of a formula. A stray one is anything that can't be checked.
#[derive(Clone, Copy)]
pub enum Token {
    Constant(Decimal),
    Refers(Reference),
    Sum,
    Plus,
    Minus,
    Sign,
    Times,
    Opens,
    Closes,
    Comma,
    Compares(Comparison),
    Stray,
}

/// A kind of operators, the loosest one first.
#[derive(Clone, Copy)]
pub enum Kind {
    Comparison,
    Addition,
    Multiplication,
}

/// What stands behind a reference in a total.
#[derive(Clone, Copy)]
pub enum Separator {
    Comma,
    Closing,
}

impl Token {
    /// Whether it is an operator of this kind.
    pub fn is_of_kind(self, kind: Kind) -> bool
        ensures { result ≡ wanted_by kind (token_of self) }
    {
        match kind {
            Kind::Comparison => matches!(self, Token::Compares(_)),
            Kind::Addition => matches!(self, Token::Plus | Token::Minus),
            Kind::Multiplication => matches!(self, Token::Times),
        }
    }

    /// Whether an operand ends with it, so that a `-` behind it is no sign.
    pub fn is_operand_end(self) -> bool
        ensures { result ≡ is_operand_end (token_of self) }
    {
        matches!(self, Token::Constant(_) | Token::Refers(_) | Token::Closes)
    }

    /// The token behind an operand, or elsewhere, where a `-` is a sign.
    pub fn signed(self, behind_operand: bool) -> Token
        ensures { token_of result ≡ signed behind_operand (token_of self) }
    {
        match self {
            Token::Minus if !behind_operand => Token::Sign,
            other => other,
        }
    }
}

/// Space, tab, LF or CR.
pub fn is_space(byte: u8) -> bool
    ensures { result ≡ is_space_or_line_end byte }
{
    byte == b' ' || byte == b'\t' || byte == b'\n' || byte == b'\r'
}

/// The token of one character.
pub fn symbol(byte: u8) -> Token
    ensures { token_of result ≡ symbol_token byte }
{
    match byte {
        b'+' => Token::Plus,
        b'-' => Token::Minus,
        b'*' => Token::Times,
        b'(' => Token::Opens,
        b')' => Token::Closes,
        b',' => Token::Comma,
        b'=' => Token::Compares(Comparison::Equal),
        b'<' => Token::Compares(Comparison::Below),
        b'>' => Token::Compares(Comparison::Above),
        _ => Token::Stray,
    }
}

/// The token of two characters, if they make one.
pub fn pair_symbol(first: u8, second: u8) -> Option<Token>
    ensures { option_map token_of result ≡ pair_symbol first second }
{
    match (first, second) {
        (b'<', b'=') => Some(Token::Compares(Comparison::UpTo)),
        (b'<', b'>') => Some(Token::Compares(Comparison::Unequal)),
        (b'>', b'=') => Some(Token::Compares(Comparison::From)),
        _ => None,
    }
}

/// Whether a Word has digits and points alone.
fn is_plain_number(word: &str) -> bool
    ensures { result ≡ is_plain_number word.now }
{
    word.as_bytes()
        .iter()
        .all(|&byte| byte.is_ascii_digit() || byte == b'.')
}

/// The token of a Word that is no reference, where this byte is behind it.
fn other_word(word: &str, behind: Option<u8>) -> Token
    ensures { token_of result ≡ word_token word.now behind }
{
    if is_plain_number(word) {
        return match Decimal::parse(word) {
            Some(number) => Token::Constant(number),
            None => Token::Stray,
        };
    }
    if behind == Some(b'(') && word.eq_ignore_ascii_case("sum") {
        return Token::Sum;
    }
    Token::Stray
}

/// The token of a Word, where this byte is behind it.
pub fn word_token(word: &str, behind: Option<u8>) -> Token
    ensures { token_of result ≡ refers_or
        (piece_reference (record { kind = word_kind; bytes = word.now }) behind)
        (word_token word.now behind) }
{
    if let Some(reference) = Piece::Word(word).reference(behind) {
        return Token::Refers(reference);
    }
    other_word(word, behind)
}
