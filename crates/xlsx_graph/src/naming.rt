//! What texts name in a workbook.
ghost use Rattle.std.specs.Prelude.{◌≡◌, ◌<◌, ◌∷◌, ◌&&◌, OnOk, OnErr, IfErr, MatchOption};
ghost use Rattle.std.specs.Prelude.{MatchResult, length, drop, option_map, slice_get};
ghost use Rattle.book_names.specs.Told.{name_told};
ghost use Rattle.formula_tokens.specs.Items.{place_text, says, colon};
ghost use Rattle.formula_tokens.specs.Told.{place_told, named_told, item_text, formula_items_left};
ghost use Rattle.xlsx_graph.specs.Naming.{found_within, named_in, meaning_found, mention_found};
ghost use Rattle.xlsx_graph.specs.Naming.{function_found, range_found, item_found, items_belonging};
ghost use Rattle.xlsx_graph.specs.Naming.{closes_next, before_next, is_place_asked, IsInBook};
ghost use Rattle.xlsx_graph.specs.Naming.{Found, sign_found, numbered_found, range_length};
ghost use Rattle.xlsx_graph.specs.Naming.{ranged_on};
ghost use Rattle.xlsx_graph.specs.Kept.{Kept, Adds, KeepsInFront, Gives, IsBeyond, TellsKept};
ghost use Rattle.xlsx_graph.specs.Kept.{WhenTooLarge, none_open};
ghost use Rattle.xlsx_graph.specs.Told.{meaning_told, word_text};

use crate::before::Before;
use crate::error::NamingError;
use crate::findings::{Findings, Mark};
use crate::functions::asks_place;
use crate::meaning::Meaning;
use crate::named::{Cause, Standing};
use crate::reader::Reader;
use crate::word::Word;
use book_names::{BookNames, DefinedName};
use formula_tokens::{Item, Items, Name, Named, Place};

/// Whether a bracket closes in front.
fn closes_next(items: Items<'_>) -> bool
    ensures { result ≡ closes_next (formula_items_left items.entry) }
{
    let mut ahead = items;
    matches!(ahead.next(), Some(Item::Closes))
}

/// What stands before the items behind an item.
fn before_next(before: Before, item: Item<'_>) -> Before
    ensures { result ≡ before_next before (item_text item.entry) }
{
    match item {
        Item::Calls(_, function) => {
            if asks_place(function.as_bytes()) {
                Before::PlaceFunction
            } else {
                Before::AnyOther
            }
        }
        Item::Opens => match before {
            Before::PlaceFunction => Before::PlaceBracket,
            _ => Before::AnyOther,
        },
        _ => Before::AnyOther,
    }
}

/// Whether a bracket stands before an item that a function opened which asks for a place.
fn is_place_asked(before: Before) -> bool
    ensures { result ≡ is_place_asked before }
{
    matches!(before, Before::PlaceBracket)
}

/// Whether the place alone is asked for of a mention, behind which these items stand.
fn asks_alone(before: Before, items: Items<'_>) -> bool
    ensures { result ≡ (is_place_asked before && closes_next (formula_items_left items.entry)) }
{
    is_place_asked(before) && closes_next(items)
}

/// Takes a colon and the mention behind it, if they stand in front.
fn next_in_range<'a>(items: &mut Items<'a>) -> Option<(Place<'a>, Named<'a>)>
    ensures { MatchOption result
        ((range_length (formula_items_left items.old) ≡ 0) × (formula_items_left items.new
        ≡ formula_items_left items.old))
        (λ mention. formula_items_left items.old ≡ colon
        ∷ says (place_told mention.0) (named_told mention.1) ∷ formula_items_left items.new) }
{
    let mut ahead = *items;
    let Some(Item::Colon) = ahead.next() else {
        return None;
    };
    let Some(Item::Says(place, named)) = ahead.next() else {
        return None;
    };
    *items = ahead;
    Some((place, named))
}

/// Appends what is found of an item that is no mention and no function.
fn push_sign(out: &mut Findings, item: Item<'_>) -> Result<(), NamingError>
    ensures gives { Gives result out.old out.new
        (sign_found (item_text item.entry)) }
    ensures front { OnErr result (KeepsInFront out.old out.new) }
{
    match item {
        Item::Colon => out.push_word(Cause::NoRange, Word::Name(Name::Plain(":"))),
        Item::Unread(text) => out.push_word(Cause::NotRead, Word::Name(text)),
        Item::Alone(place) => out.push_word(Cause::NotRead, place_word(place)),
        _ => Ok(()),
    }
}

/// The word of a place behind which nothing is named.
fn place_word(place: Place<'_>) -> Word<'_>
    ensures { word_text result ≡ place_text (place_told place.entry) }
{
    match place {
        Place::Here | Place::InBook => Word::Name(Name::Plain("!")),
        Place::OnSheet(name) | Place::OnSheets(name, _) | Place::Elsewhere(name) => {
            Word::Name(name)
        }
        Place::InFile { book, sheet } => Word::InFile { book, sheet },
    }
}

/// The defined name of a number, counted from 0.
fn defined_name(book: &BookNames, number: usize) -> Option<&DefinedName>
    ensures { option_map (λ name. name_told name.now) result ≡ slice_get book.now.names number }
{
    book.defined_names().get(number)
}

/// Appends what the text of a defined name names, or the word where the text is read already.
#[cycle(naming)]
fn push_name(
    out: &mut Findings,
    book: &BookNames,
    reader: Reader,
    turns: usize,
    number: usize,
    word: &str,
) -> Result<(), NamingError>
    requires { reader.sheet < length book.now.sheets }
    ensures gives { Gives result out.old out.new
        (numbered_found turns book.now reader out.old.opened number word.now) }
    ensures front { OnErr result (KeepsInFront out.old out.new) }
{
    let Some(name) = defined_name(book, number) else {
        return out.push_word(Cause::NoName, Word::Name(Name::Plain(word)));
    };
    if out.is_open(number) {
        return out.push_word(Cause::Endless, Word::Name(Name::Plain(word)));
    }
    out.spend_read(name.text.len())?;
    out.set_open(number, true);
    let pushed = push_text(out, book, reader, turns, &name.text);
    out.set_open(number, false);
    pushed
}

/// Appends what is found of what a mention means.
#[cycle(naming)]
fn push_meaning(
    out: &mut Findings,
    book: &BookNames,
    reader: Reader,
    turns: usize,
    meaning: Meaning<'_>,
) -> Result<(), NamingError>
    requires { IsInBook book.now (meaning_told meaning) }
    ensures gives { Gives result out.old out.new
        (meaning_found (found_within turns book.now) book.now reader out.old.opened
        (meaning_told meaning.entry)) }
    ensures front { OnErr result (KeepsInFront out.old out.new) }
{
    match meaning {
        Meaning::Nothing => Ok(()),
        Meaning::Area(area) => out.push_area(area),
        Meaning::Open(cause, word) => out.push_word(cause, word),
        Meaning::Name(number, sheet, word) => {
            let reader = Reader {
                cell: reader.cell,
                sheet,
                is_name: true,
            };
            push_name(out, book, reader, turns, number, word)
        }
    }
}

/// Appends what a mention names.
#[cycle(naming)]
fn push_mention(
    out: &mut Findings,
    book: &BookNames,
    reader: Reader,
    turns: usize,
    place: Place<'_>,
    named: Named<'_>,
) -> Result<(), NamingError>
    requires { reader.sheet < length book.now.sheets }
    ensures gives { Gives result out.old out.new
        (mention_found turns book.now reader out.old.opened (place_told place.entry)
        (named_told named.entry)) }
    ensures front { OnErr result (KeepsInFront out.old out.new) }
{
    let meaning = out.mention_meaning(book, reader, place, named)?;
    push_meaning(out, book, reader, turns, meaning)
}

/// Appends what the name of a function names: mostly nothing.
#[cycle(naming)]
fn push_function(
    out: &mut Findings,
    book: &BookNames,
    reader: Reader,
    turns: usize,
    place: Place<'_>,
    function: &str,
) -> Result<(), NamingError>
    requires { reader.sheet < length book.now.sheets }
    ensures gives { Gives result out.old out.new
        (function_found turns book.now reader out.old.opened (place_told place.entry)
        function.now) }
    ensures front { OnErr result (KeepsInFront out.old out.new) }
{
    let meaning = out.function_meaning(book, reader, place, function)?;
    push_meaning(out, book, reader, turns, meaning)
}

/// Joins the mentions behind colons to what was found behind a mark.
#[cycle(naming)]
fn push_ends(
    out: &mut Findings,
    book: &BookNames,
    reader: Reader,
    turns: usize,
    start: Mark,
    items: &mut Items<'_>,
) -> Result<(), NamingError>
    requires { reader.sheet < length book.now.sheets }
    ensures ok { OnOk result ((kept : Kept) (f : Found) → TellsKept start kept →
        Adds kept out.old f → Adds kept out.new
        (ranged_on (mention_found turns book.now reader out.old.opened) f
        (formula_items_left items.old))) }
    ensures too_large { IfErr result (λ e. WhenTooLarge e ((kept : Kept) (f : Found) →
        TellsKept start kept → Adds kept out.old f → IsBeyond kept
        (ranged_on (mention_found turns book.now reader out.old.opened) f
        (formula_items_left items.old)))) }
    ensures front { OnErr result ((kept : Kept) (f : Found) → TellsKept start kept →
        Adds kept out.old f → KeepsInFront kept out.new) }
    ensures items { OnOk result (formula_items_left items.new
        ≡ drop (range_length (formula_items_left items.old)) (formula_items_left items.old)) }
{
    'ends: while let Some((place, named)) = next_in_range(items) {
        let middle = out.mark();
        out.give_back(start);
        push_mention(out, book, reader, turns, place, named)?;
        out.join(start, middle)?;
    }
    Ok(())
}

/// Appends what is found of a mention with its range.
#[cycle(naming)]
fn push_range(
    out: &mut Findings,
    book: &BookNames,
    reader: Reader,
    turns: usize,
    before: Before,
    mention: (Place<'_>, Named<'_>),
    items: &mut Items<'_>,
) -> Result<(), NamingError>
    requires { reader.sheet < length book.now.sheets }
    ensures gives { Gives result out.old out.new
        (range_found (mention_found turns book.now reader out.old.opened) before
        (mention_found turns book.now reader out.old.opened (place_told mention.entry.0)
        (named_told mention.entry.1)) (formula_items_left items.old)) }
    ensures front { OnErr result (KeepsInFront out.old out.new) }
    ensures items { OnOk result (formula_items_left items.new
        ≡ drop (range_length (formula_items_left items.old)) (formula_items_left items.old)) }
{
    let start = out.mark();
    push_mention(out, book, reader, turns, mention.0, mention.1)?;
    if asks_alone(before, *items) {
        out.ask_place(start);
        return Ok(());
    }
    push_ends(out, book, reader, turns, start, items)
}

/// Appends what is found of an item and those of its range.
#[cycle(naming)]
fn push_item(
    out: &mut Findings,
    book: &BookNames,
    reader: Reader,
    turns: usize,
    before: Before,
    item: Item<'_>,
    items: &mut Items<'_>,
) -> Result<(), NamingError>
    requires { reader.sheet < length book.now.sheets }
    ensures gives { Gives result out.old out.new
        (item_found (mention_found turns book.now reader out.old.opened)
        (function_found turns book.now reader out.old.opened) before (item_text item.entry)
        (formula_items_left items.old)) }
    ensures front { OnErr result (KeepsInFront out.old out.new) }
    ensures items { OnOk result (formula_items_left items.new
        ≡ drop (items_belonging (item_text item.entry) (formula_items_left items.old))
        (formula_items_left items.old)) }
{
    match item {
        Item::Says(place, named) => {
            push_range(out, book, reader, turns, before, (place, named), items)
        }
        Item::Calls(place, function) => { push_function(out, book, reader, turns, place, function) }
        _ => push_sign(out, item),
    }
}

/// Appends what a text names, where fewer than so many defined names aren't open.
#[cycle(naming)]
fn push_text(
    out: &mut Findings,
    book: &BookNames,
    reader: Reader,
    turns: usize,
    text: &str,
) -> Result<(), NamingError>
    requires { reader.sheet < length book.now.sheets }
    ensures gives { Gives result out.old out.new
        (found_within turns book.now reader out.old.opened text.now) }
    ensures front { OnErr result (KeepsInFront out.old out.new) }
{
    if turns == 0 {
        return out.push_word(Cause::Endless, Word::Name(Name::Plain(text)));
    }
    let mut before = Before::AnyOther;
    let mut items = Items::new(text);
    'items: while let Some(item) = items.next() {
        push_item(out, book, reader, turns - 1, before, item, &mut items)?;
        before = before_next(before, item);
    }
    Ok(())
}

/// Appends what a formula in a cell names: areas and the words that are left open, in order.
///
/// References, defined names and tables are those of ECMA-376 part 1, 18.2.5, 18.5.1 and 18.17. The
/// text of a defined name is read in its place, each time that it is named, and its references are
/// told from A1; within itself it is left open. What a function computes is left open, too, and its
/// arguments are named all the same.
///
/// # Errors
///
/// `TooLarge` exactly where there is less room than the formula takes: room for each area as often
/// as it has sheets, for each open word, and for each text of a defined name that is read, by its
/// bytes and 64 more. Otherwise only want of memory is refused. After a refusal what was there
/// before still stands in front, more may stand behind it, and no defined name is open.
pub fn push_named(
    out: &mut Findings,
    book: &BookNames,
    cell: Standing,
    formula: &str,
) -> Result<(), NamingError>
    requires sheet { cell.sheet < length book.now.sheets }
    requires closed { out.old.opened ≡ none_open book.now }
    ensures gives { Gives result out.old out.new (named_in book.now cell formula.now) }
    ensures front { OnErr result (KeepsInFront out.old out.new) }
{
    let reader = Reader {
        cell,
        sheet: cell.sheet,
        is_name: false,
    };
    let turns = book.defined_names().len() + 1;
    push_text(out, book, reader, turns, formula)
}
