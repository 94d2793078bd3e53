ghost use Rattle.std.specs.Prelude.{◌≡◌, is_some, false, []};
ghost use Rattle.xlsx_check.specs.TokenView.{tokens_to_give};

use crate::token::{Kind, Separator, Token};
use crate::tokens::Tokens;
use formula_shift::Reference;

/// The tokens of a formula that are still to be read, with the next one looked at.
#[derive(Drop)]
pub struct Ahead<'a> {
    next: Option<Token>,
    rest: Tokens<'a>,
    ghost ends: { is_some next ≡ false → tokens_to_give rest ≡ [] },
}

impl<'a> Ahead<'a> {
    ghost use Rattle.std.specs.Prelude.{◌≡◌, ◌∷◌, [], IfSome, IfNone, true, ◌≤◌, ◌==◌, length};
    ghost use Rattle.xlsx_check.specs.Denoting.{tokens_ahead, wanted_by, separator_first};
    ghost use Rattle.xlsx_check.specs.Denoting.{separator_token};
    ghost use Rattle.xlsx_check.specs.Reading.{stops, first_reference, closes_first};
    ghost use Rattle.xlsx_check.specs.Tokens.{formula_tokens, refers, closes};
    ghost use Rattle.xlsx_check.specs.TokenView.{token_of};

    /// All tokens of this formula.
    pub fn new(formula: &'a str) -> Ahead<'a>
        ensures { tokens_ahead result ≡ formula_tokens formula.now }
    {
        let mut rest = Tokens::new(formula);
        let next = rest.next();
        Ahead { next, rest }
    }

    /// Whether all tokens were taken.
    pub fn is_empty(&self) -> bool
        ensures { result ≡ (length (tokens_ahead self.now) == 0) }
    {
        self.next.is_none()
    }

    /// Takes the next token.
    pub fn take(&mut self) -> Option<Token>
        ensures some { IfSome result (λ token. tokens_ahead self.old ≡ token_of token
            ∷ tokens_ahead self.new) }
        ensures none { IfNone result (tokens_ahead self.old ≡ []) }
        ensures end { IfNone result (tokens_ahead self.new ≡ []) }
    {
        let token = self.next?;
        self.next = self.rest.next();
        Some(token)
    }

    /// Takes the next token, where it is a reference; else there is none, and nothing is read on.
    pub fn take_reference(&mut self) -> Option<Reference>
        ensures value { result ≡ first_reference (tokens_ahead self.old) }
        ensures rest { IfSome result (λ r. tokens_ahead self.old ≡ refers r
            ∷ tokens_ahead self.new) }
        ensures shorter { length (tokens_ahead self.new) ≤ length (tokens_ahead self.old) }
    {
        match self.take()? {
            Token::Refers(reference) => Some(reference),
            _ => None,
        }
    }

    /// Takes the next token, and tells whether it is a closing parenthesis.
    pub fn take_closing(&mut self) -> bool
        ensures value { result ≡ closes_first (tokens_ahead self.old) }
        ensures rest { result ≡ true → tokens_ahead self.old ≡ closes ∷ tokens_ahead self.new }
        ensures shorter { length (tokens_ahead self.new) ≤ length (tokens_ahead self.old) }
    {
        matches!(self.take(), Some(Token::Closes))
    }

    /// Takes the next token, where it is one that stands behind a reference in a total.
    pub fn take_separator(&mut self) -> Option<Separator>
        ensures value { result ≡ separator_first (tokens_ahead self.old) }
        ensures rest { IfSome result (λ separator.
            tokens_ahead self.old ≡ separator_token separator ∷ tokens_ahead self.new) }
        ensures shorter { length (tokens_ahead self.new) ≤ length (tokens_ahead self.old) }
    {
        match self.take()? {
            Token::Comma => Some(Separator::Comma),
            Token::Closes => Some(Separator::Closing),
            _ => None,
        }
    }

    /// Takes the next token where it is an operator of this kind; else it stays.
    pub fn take_of(&mut self, kind: Kind) -> Option<Token>
        ensures some { IfSome result (λ token. tokens_ahead self.old ≡ token_of token
            ∷ tokens_ahead self.new) }
        ensures wanted { IfSome result (λ token. wanted_by kind (token_of token) ≡ true) }
        ensures none { IfNone result (stops (wanted_by kind) (tokens_ahead self.old) ≡ true) }
        ensures stays { IfNone result (tokens_ahead self.new ≡ tokens_ahead self.old) }
    {
        match self.next {
            Some(token) if token.is_of_kind(kind) => self.take(),
            _ => None,
        }
    }
}
