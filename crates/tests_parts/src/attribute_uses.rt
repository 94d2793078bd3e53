//! Uses of `get_attrs!` under contracts, so that each of its lines is proved: it has none itself.
ghost use Rattle.std.specs.Prelude.{◌≡◌, [], ◌∷◌, MatchResult, Ok, Err, codes};
ghost use Rattle.std.specs.Option.{option_copied};
ghost use Rattle.attr_text.specs.Words.{lookup};

use attr_text::{AttrFault, AttrValue, RawAttributes, get_attrs};

/// An attribute text by itself.
#[derive(Clone, Copy)]
pub(crate) struct Tag<'a> {
    pub(crate) text: &'a str,
}

impl RawAttributes for Tag<'_> {
    ghost attributes = { λ tag. tag.text.now };

    fn attributes_raw(&self) -> &str {
        self.text
    }
}

/// Each use of the macro is the lookup of its keys, in their order.
pub(crate) fn two_keys<'a>(tag: &'a Tag<'a>) -> Result<(AttrValue<'a>, AttrValue<'a>), AttrFault>
    ensures { let keys = codes "r" ∷ codes "s" ∷ [] in
        MatchResult result
        (λ p. lookup keys tag.now.text.now
        ≡ Ok (option_copied p.0 ∷ option_copied p.1 ∷ []))
        (λ fault. lookup keys tag.now.text.now ≡ Err fault) }
{
    get_attrs!(tag, "r" => r, "s" => s)
}

pub(crate) fn three_keys<'a>(
    tag: &'a Tag<'a>,
) -> Result<(AttrValue<'a>, AttrValue<'a>, AttrValue<'a>), AttrFault>
    ensures { let keys = codes "r" ∷ codes "s" ∷ codes "t" ∷ [] in
        MatchResult result
        (λ p. lookup keys tag.now.text.now
        ≡ Ok (option_copied p.0 ∷ option_copied p.1 ∷ option_copied p.2 ∷ []))
        (λ fault. lookup keys tag.now.text.now ≡ Err fault) }
{
    get_attrs!(tag, "r" => r, "s" => s, "t" => t)
}

pub(crate) fn four_keys<'a>(
    tag: &'a Tag<'a>,
) -> Result<(AttrValue<'a>, AttrValue<'a>, AttrValue<'a>, AttrValue<'a>), AttrFault>
    ensures { let keys = codes "r" ∷ codes "s" ∷ codes "t" ∷ codes "cm" ∷ [] in
        MatchResult result
        (λ p. lookup keys tag.now.text.now
        ≡ Ok (option_copied p.0 ∷ option_copied p.1 ∷ option_copied p.2 ∷ option_copied p.3 ∷ []))
        (λ fault. lookup keys tag.now.text.now ≡ Err fault) }
{
    get_attrs!(tag, "r" => r, "s" => s, "t" => t, "cm" => cm)
}

pub(crate) fn five_keys<'a>(
    tag: &'a Tag<'a>,
) -> Result<
    (
        AttrValue<'a>,
        AttrValue<'a>,
        AttrValue<'a>,
        AttrValue<'a>,
        AttrValue<'a>,
    ),
    AttrFault,
>
    ensures { let keys = codes "r" ∷ codes "s" ∷ codes "t" ∷ codes "cm" ∷ codes "vm" ∷ [] in
        MatchResult result
        (λ p. lookup keys tag.now.text.now
        ≡ Ok (option_copied p.0 ∷ option_copied p.1 ∷ option_copied p.2 ∷ option_copied
        p.3 ∷ option_copied p.4 ∷ []))
        (λ fault. lookup keys tag.now.text.now ≡ Err fault) }
{
    get_attrs!(tag, "r" => r, "s" => s, "t" => t, "cm" => cm, "vm" => vm)
}

pub(crate) fn six_keys<'a>(
    tag: &'a Tag<'a>,
) -> Result<
    (
        AttrValue<'a>,
        AttrValue<'a>,
        AttrValue<'a>,
        AttrValue<'a>,
        AttrValue<'a>,
        AttrValue<'a>,
    ),
    AttrFault,
>
    ensures { let keys =
        codes "r" ∷ codes "s" ∷ codes "t" ∷ codes "cm" ∷ codes "vm" ∷ codes "ph" ∷ [] in
        MatchResult result
        (λ p. lookup keys tag.now.text.now
        ≡ Ok (option_copied p.0 ∷ option_copied p.1 ∷ option_copied p.2 ∷ option_copied
        p.3 ∷ option_copied p.4 ∷ option_copied p.5 ∷ []))
        (λ fault. lookup keys tag.now.text.now ≡ Err fault) }
{
    get_attrs!(tag, "r" => r, "s" => s, "t" => t, "cm" => cm, "vm" => vm, "ph" => ph)
}
