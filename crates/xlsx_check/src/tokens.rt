ghost use Rattle.std.specs.Prelude.{◌≡◌, ◌∷◌, [], IfSome, IfNone, false};
ghost use Rattle.formula_shift.specs.Words.{first_byte};
ghost use Rattle.xlsx_check.specs.Tokens.{symbol_tokens, is_space_or_line_end};
ghost use Rattle.xlsx_check.specs.TokenView.{token_of};

use crate::token::{Token, is_space, pair_symbol, symbol, word_token};
use formula_shift::{Piece, Pieces};

/// The text without the white space in front.
fn skip_spaces(text: &[u8]) -> &[u8]
    ensures same { symbol_tokens result.now ≡ symbol_tokens text.now }
    ensures first { IfSome (first_byte result.now) (λ b. is_space_or_line_end b ≡ false) }
{
    let mut rest = text;
    'spaces: while let Some((&first, behind)) = rest.split_first() {
        if !is_space(first) {
            return rest;
        }
        rest = behind;
    }
    rest
}

/// The first token of a text between Words, and what stands behind it.
fn cut_symbol(text: &[u8]) -> Option<(Token, &[u8])>
    ensures some { IfSome result (λ cut.
        symbol_tokens text.now ≡ token_of cut.0 ∷ symbol_tokens cut.1.now) }
    ensures none { IfNone result (symbol_tokens text.now ≡ []) }
{
    let (&first, behind) = skip_spaces(text).split_first()?;
    let Some((&second, further)) = behind.split_first() else {
        return Some((symbol(first), behind));
    };
    match pair_symbol(first, second) {
        Some(token) => Some((token, further)),
        None => Some((symbol(first), behind)),
    }
}

/// The tokens of a formula, from the left.
#[derive(Clone, Copy)]
pub struct Tokens<'a> {
    symbols: &'a [u8],
    pieces: Pieces<'a>,
    behind_operand: bool,
}

impl<'a> Tokens<'a> {
    ghost use Rattle.xlsx_check.specs.Tokens.{formula_tokens};
    ghost use Rattle.xlsx_check.specs.TokenView.{tokens_to_give, unsigned_left};

    /// The tokens of this formula, of which none was taken yet.
    #[tactic(auto, unfolding(crate::specs::Tokens::formula_tokens))]
    pub fn new(formula: &'a str) -> Tokens<'a>
        ensures { tokens_to_give result ≡ formula_tokens formula.now }
    {
        Tokens {
            symbols: &[],
            pieces: Pieces::new(formula),
            behind_operand: false,
        }
    }

    /// The next token, with each `-` as it is.
    fn next_unsigned(&mut self) -> Option<Token>
        ensures some { IfSome result (λ token.
            unsigned_left self.old ≡ token_of token ∷ unsigned_left self.new) }
        ensures none { IfNone result (unsigned_left self.old ≡ []) }
        ensures end { IfNone result (unsigned_left self.new ≡ []) }
        ensures sign { self.new.behind_operand ≡ self.old.behind_operand }
    {
        'pieces: loop {
            if let Some((token, behind)) = cut_symbol(self.symbols) {
                self.symbols = behind;
                return Some(token);
            }
            match self.pieces.next()? {
                Piece::Other(text) => self.symbols = text.as_bytes(),
                Piece::Word(word) => {
                    self.symbols = &[];
                    return Some(word_token(word, self.pieces.first_byte()));
                }
                _ => {
                    self.symbols = &[];
                    return Some(Token::Stray);
                }
            }
        }
    }
}

impl<'a> Iterator for Tokens<'a> {
    ghost use Rattle.std.specs.Iterator.{YieldsFirstBy, item_count};
    ghost use Rattle.xlsx_check.specs.TokenView.{token_of, tokens_to_give};

    type Item = Token;

    ghost next_gives = { YieldsFirstBy token_of tokens_to_give };

    ghost remaining = { item_count tokens_to_give };

    fn next(&mut self) -> Option<Token> {
        let token = self.next_unsigned()?;
        let signed = token.signed(self.behind_operand);
        self.behind_operand = token.is_operand_end();
        Some(signed)
    }
}
