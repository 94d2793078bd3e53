ghost use Rattle.std.specs.Prelude.{◌≡◌, [], ◌∷◌, length, map, is_some, MatchResult, None, Ok, Err};
ghost use Rattle.std.specs.List.{list_all};
ghost use Rattle.std.specs.Option.{option_copied};
ghost use Rattle.attr_text.specs.Attributes.{lookup};
ghost use Rattle.attr_text.specs.Wanted.{value_noted, noted};

use crate::fault::AttrFault;
use crate::items::RawAttrIter;

/// The value of a key, if a pair has it.
pub type AttrValue<'a> = Option<&'a str>;

/// What is found for a wanted key once this pair was read too.
fn with_pair<'a>(found: AttrValue<'a>, wanted: &str, key: &str, value: &'a str) -> AttrValue<'a>
    ensures { option_copied result
        ≡ value_noted key.now value.now wanted.now (option_copied found.entry) }
{
    match found {
        Some(first) => Some(first),
        None if wanted == key => Some(value),
        None => None,
    }
}

/// Gives the pair's value to each wanted key that is the pair's and has no value yet.
fn note_value<'a>(keys: &[&str], values: &mut [AttrValue<'a>], key: &str, value: &'a str)
    requires { length keys.now ≡ length values.old }
    ensures { map option_copied values.new
        ≡ noted key.now value.now (map (λ k. k.now) keys.now) (map option_copied values.old) }
{
    for i in 0..values.len() {
        values[i] = with_pair(values[i], keys[i], key, value);
    }
}

/// Whether each wanted key has a value.
fn are_all_found(values: &[AttrValue<'_>]) -> bool
    ensures { result ≡ list_all is_some values.now }
{
    values.iter().all(|value| value.is_some())
}

/// The lookup of several keys, in one reading of the text.
fn find_values<'a>(
    raw: &'a str,
    keys: &[&str],
    values: &mut [AttrValue<'a>],
) -> Result<(), AttrFault>
    requires length { length keys.now ≡ length values.old }
    requires empty { map option_copied values.old ≡ map (λ _. None) keys.now }
    ensures { MatchResult result
        (λ _. lookup (map (λ k. k.now) keys.now) raw.now ≡ Ok (map option_copied values.new))
        (λ fault. lookup (map (λ k. k.now) keys.now) raw.now ≡ Err fault) }
{
    if keys.is_empty() {
        return Ok(());
    }
    for item in RawAttrIter::new(raw) {
        let (key, value) = item?;
        note_value(keys, values, key, value);
        if are_all_found(values) {
            return Ok(());
        }
    }
    Ok(())
}

/// The lookup of two keys in an attribute text, which is read once: the value of the first pair of
/// each key. It is refused only where the items end in a fault and some key has no pair. The macro
/// [`get_attrs!`](crate::get_attrs) calls it, and the four below for more keys.
pub fn two_values<'a>(
    raw: &'a str,
    a: &str,
    b: &str,
) -> Result<(AttrValue<'a>, AttrValue<'a>), AttrFault>
    ensures { MatchResult result
        (λ p. lookup (a.now ∷ b.now ∷ []) raw.now
        ≡ Ok (option_copied p.0 ∷ option_copied p.1 ∷ []))
        (λ fault. lookup (a.now ∷ b.now ∷ []) raw.now ≡ Err fault) }
{
    let mut found = [None; 2];
    find_values(raw, &[a, b], &mut found)?;
    let [a, b] = found;
    Ok((a, b))
}

/// [`two_values`] for three keys.
pub fn three_values<'a>(
    raw: &'a str,
    a: &str,
    b: &str,
    c: &str,
) -> Result<(AttrValue<'a>, AttrValue<'a>, AttrValue<'a>), AttrFault>
    ensures { MatchResult result
        (λ p. lookup (a.now ∷ b.now ∷ c.now ∷ []) raw.now
        ≡ Ok (option_copied p.0 ∷ option_copied p.1 ∷ option_copied p.2 ∷ []))
        (λ fault. lookup (a.now ∷ b.now ∷ c.now ∷ []) raw.now ≡ Err fault) }
{
    let mut found = [None; 3];
    find_values(raw, &[a, b, c], &mut found)?;
    let [a, b, c] = found;
    Ok((a, b, c))
}

/// [`two_values`] for four keys.
pub fn four_values<'a>(
    raw: &'a str,
    a: &str,
    b: &str,
    c: &str,
    d: &str,
) -> Result<(AttrValue<'a>, AttrValue<'a>, AttrValue<'a>, AttrValue<'a>), AttrFault>
    ensures { MatchResult result
        (λ p. lookup (a.now ∷ b.now ∷ c.now ∷ d.now ∷ []) raw.now
        ≡ Ok (option_copied p.0 ∷ option_copied p.1 ∷ option_copied p.2 ∷ option_copied p.3 ∷ []))
        (λ fault. lookup (a.now ∷ b.now ∷ c.now ∷ d.now ∷ []) raw.now ≡ Err fault) }
{
    let mut found = [None; 4];
    find_values(raw, &[a, b, c, d], &mut found)?;
    let [a, b, c, d] = found;
    Ok((a, b, c, d))
}

/// [`two_values`] for five keys.
pub fn five_values<'a>(
    raw: &'a str,
    a: &str,
    b: &str,
    c: &str,
    d: &str,
    e: &str,
) -> Result<
    (
        AttrValue<'a>,
        AttrValue<'a>,
        AttrValue<'a>,
        AttrValue<'a>,
        AttrValue<'a>,
    ),
    AttrFault,
>
    ensures { MatchResult result
        (λ p. lookup (a.now ∷ b.now ∷ c.now ∷ d.now ∷ e.now ∷ []) raw.now
        ≡ Ok (option_copied p.0 ∷ option_copied p.1 ∷ option_copied p.2 ∷ option_copied
        p.3 ∷ option_copied p.4 ∷ []))
        (λ fault. lookup (a.now ∷ b.now ∷ c.now ∷ d.now ∷ e.now ∷ []) raw.now ≡ Err fault) }
{
    let mut found = [None; 5];
    find_values(raw, &[a, b, c, d, e], &mut found)?;
    let [a, b, c, d, e] = found;
    Ok((a, b, c, d, e))
}

/// [`two_values`] for six keys.
pub fn six_values<'a>(
    raw: &'a str,
    a: &str,
    b: &str,
    c: &str,
    d: &str,
    e: &str,
    f: &str,
) -> Result<
    (
        AttrValue<'a>,
        AttrValue<'a>,
        AttrValue<'a>,
        AttrValue<'a>,
        AttrValue<'a>,
        AttrValue<'a>,
    ),
    AttrFault,
>
    ensures { MatchResult result
        (λ p. lookup (a.now ∷ b.now ∷ c.now ∷ d.now ∷ e.now ∷ f.now ∷ []) raw.now
        ≡ Ok (option_copied p.0 ∷ option_copied p.1 ∷ option_copied p.2 ∷ option_copied
        p.3 ∷ option_copied p.4 ∷ option_copied p.5 ∷ []))
        (λ fault. lookup (a.now ∷ b.now ∷ c.now ∷ d.now ∷ e.now ∷ f.now ∷ []) raw.now ≡ Err fault) }
{
    let mut found = [None; 6];
    find_values(raw, &[a, b, c, d, e, f], &mut found)?;
    let [a, b, c, d, e, f] = found;
    Ok((a, b, c, d, e, f))
}

/// Looks up two to six keys in what implements [`RawAttributes`], in one reading of its attribute
/// text: `get_attrs!(e, "k1" => v1, "k2" => v2)` is `Ok` of a tuple with the value of the first
/// pair of each key, or the fault in which the items end where they do and some key has no pair.
#[macro_export]
macro_rules! get_attrs {
    ($element:expr, $ka:expr => $va:ident, $kb:expr => $vb:ident $(,)?) => {
        $crate::two_values($element.attributes_raw(), $ka, $kb)
    };
    ($element:expr, $ka:expr => $va:ident, $kb:expr => $vb:ident, $kc:expr => $vc:ident $(,)?) => {
        $crate::three_values($element.attributes_raw(), $ka, $kb, $kc)
    };
    (
        $element:expr,
        $ka:expr => $va:ident, $kb:expr => $vb:ident, $kc:expr => $vc:ident,
        $kd:expr => $vd:ident $(,)?
    ) => {
        $crate::four_values($element.attributes_raw(), $ka, $kb, $kc, $kd)
    };
    (
        $element:expr,
        $ka:expr => $va:ident, $kb:expr => $vb:ident, $kc:expr => $vc:ident,
        $kd:expr => $vd:ident, $ke:expr => $ve:ident $(,)?
    ) => {
        $crate::five_values($element.attributes_raw(), $ka, $kb, $kc, $kd, $ke)
    };
    (
        $element:expr,
        $ka:expr => $va:ident, $kb:expr => $vb:ident, $kc:expr => $vc:ident,
        $kd:expr => $vd:ident, $ke:expr => $ve:ident, $kf:expr => $vf:ident $(,)?
    ) => {
        $crate::six_values($element.attributes_raw(), $ka, $kb, $kc, $kd, $ke, $kf)
    };
}
