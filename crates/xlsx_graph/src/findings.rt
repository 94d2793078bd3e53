//! What formulas name, kept within limits.
ghost use Rattle.std.specs.Prelude.{◌≡◌, ◌<◌, ◌≤◌, ◌+◌, ℕ, IfOk, IfErr, OnOk, length, false, ◌++◌};
ghost use Rattle.std.specs.Prelude.{OnErr, replicate, slice_index_or, map, take, drop, []};
ghost use Rattle.xlsx_graph.specs.Naming.{Found, area_found, word_found, read_more, nothing_found};
ghost use Rattle.xlsx_graph.specs.Naming.{mention_meaning, function_meaning, unvalued, place_alone};
ghost use Rattle.xlsx_graph.specs.Naming.{ranged, range_area, reading_weight};
ghost use Rattle.formula_tokens.specs.Told.{place_told, named_told};
ghost use Rattle.xlsx_graph.specs.Kept.{Kept, Adds, IsBeyond, WhenTooLarge, none_open, Spends};
ghost use Rattle.xlsx_graph.specs.Kept.{KeepsInFront, Gives, MarksOpen, TellsKept, GivesBack};
ghost use Rattle.xlsx_graph.specs.Kept.{IsRanging};
ghost use Rattle.xlsx_graph.specs.Told.{open_told, word_text, meaning_told};

use crate::error::NamingError;
use crate::meaning::{Meaning, function_meaning, mention_meaning};
use crate::named::{BookArea, Cause, OpenWord};
use crate::range::joined_pair;
use crate::reader::Reader;
use crate::word::{Word, text_of};
use book_names::{BookNames, NameKey};
use formula_tokens::{Name, Named, Place};
use std::alloc::{AllocError, Global};
use std::marker::Model;

/// How much a text weighs that is read for a defined name, beside its bytes.
const READING: u64 = 64;

/// What formulas name, one formula behind the other: areas, and the words that are left open.
#[derive(Debug, Drop)]
pub struct Findings {
    alloc: Global,
    found_areas: Vec<BookArea>,
    found_words: Vec<OpenWord>,
    named: u64,
    read: u64,
    open_names: Vec<bool>,
    key: NameKey,
}

impl Model for Findings {
    ghost use Rattle.std.specs.Prelude.{map};
    ghost use Rattle.xlsx_graph.specs.Kept.{Kept};
    ghost use Rattle.xlsx_graph.specs.Told.{open_told};

    ghost Value = { Kept };

    ghost view = { λ f. record {
      areas = f.found_areas.items;
      words = map open_told f.found_words.items;
      named_left = f.named;
      read_left = f.read;
      opened = f.open_names.items;
    } };
}

/// How much was found at a place.
#[derive(Clone, Copy)]
pub(crate) struct Mark {
    areas: usize,
    words: usize,
    named: u64,
}

impl Findings {
    /// Nothing yet, and room for so many areas, each as often as it has sheets, and open words, and
    /// for texts of defined names that are read and weigh so much: each its bytes and 64 more.
    pub fn new(
        alloc: Global,
        book: &BookNames,
        named: u64,
        read: u64,
    ) -> Result<Findings, AllocError>
        ensures { IfOk result (λ findings. findings ≡ record {
          areas = [];
          words = [];
          named_left = named;
          read_left = read;
          opened = none_open book.now;
        }) }
    {
        Ok(Findings {
            alloc,
            found_areas: Vec::new(alloc),
            found_words: Vec::new(alloc),
            named,
            read,
            open_names: none_open(alloc, book.defined_names().len())?,
            key: NameKey::new(alloc),
        })
    }

    /// The areas that are named.
    pub fn areas(&self) -> &[BookArea]
        ensures { result.now ≡ self.now.areas }
    {
        &self.found_areas
    }

    /// The words that are left open.
    pub fn words(&self) -> &[OpenWord]
        ensures { map open_told result.now ≡ self.now.words }
    {
        &self.found_words
    }

    /// How many areas there are, how many open words, and how much more may be read of defined
    /// names.
    pub(crate) fn counts(&self) -> (usize, usize, u64)
        ensures areas { result.0 ≡ length self.now.areas }
        ensures words { result.1 ≡ length self.now.words }
        ensures read { result.2 ≡ self.now.read_left }
    {
        (self.found_areas.len(), self.found_words.len(), self.read)
    }

    /// Takes room for so much more that is named.
    fn spend(&mut self, count: u64) -> Result<(), NamingError>
        ensures ok { OnOk result (Spends self.old self.new count) }
        ensures too_large { OnErr result (self.old.named_left < count) }
        ensures same { OnErr result (self.new ≡ self.old) }
    {
        if self.named < count {
            return Err(NamingError::TooLarge);
        }
        self.named -= count;
        Ok(())
    }

    /// Takes room for a defined name's text of so many bytes.
    pub(crate) fn spend_read(&mut self, bytes: usize) -> Result<(), NamingError>
        ensures ok { OnOk result (Adds self.old self.new (read_more bytes nothing_found)) }
        ensures too_large { OnErr result (self.old.read_left < reading_weight bytes) }
        ensures same { OnErr result (self.new ≡ self.old) }
    {
        let bytes = bytes as u64;
        if self.read < READING || self.read - READING < bytes {
            return Err(NamingError::TooLarge);
        }
        self.read -= READING + bytes;
        Ok(())
    }

    /// Appends an area.
    pub(crate) fn push_area(&mut self, area: BookArea) -> Result<(), NamingError>
        ensures gives { Gives result self.old self.new (area_found area) }
        ensures front { OnErr result (KeepsInFront self.old self.new) }
    {
        let behind_first = area.last.saturating_sub(area.first) as u64;
        if self.named <= behind_first {
            return Err(NamingError::TooLarge);
        }
        self.named -= behind_first + 1;
        self.found_areas.push(area)?;
        Ok(())
    }

    /// Appends a word that is left open.
    pub(crate) fn push_word(&mut self, cause: Cause, word: Word<'_>) -> Result<(), NamingError>
        ensures gives { Gives result self.old self.new
            (word_found cause (word_text word.entry)) }
        ensures front { OnErr result (KeepsInFront self.old self.new) }
    {
        if self.named == 0 {
            return Err(NamingError::TooLarge);
        }
        self.named -= 1;
        let text = text_of(self.alloc, word)?;
        self.found_words.push(OpenWord { cause, text })?;
        Ok(())
    }

    /// Whether the text of a defined name is being read, by its number from 0.
    pub(crate) fn is_open(&self, name: usize) -> bool
        ensures { result ≡ slice_index_or self.now.opened name false }
    {
        match self.open_names.get(name) {
            Some(is_open) => *is_open,
            None => false,
        }
    }

    /// Keeps whether the text of a defined name is being read.
    pub(crate) fn set_open(&mut self, name: usize, is_open: bool)
        ensures { MarksOpen self.old self.new name is_open }
    {
        if let Some(open) = self.open_names.get_mut(name) {
            *open = is_open;
        }
    }

    /// What a mention means.
    pub(crate) fn mention_meaning<'a>(
        &mut self,
        book: &'a BookNames,
        reader: Reader,
        place: Place<'a>,
        named: Named<'a>,
    ) -> Result<Meaning<'a>, AllocError>
        requires { reader.sheet < length book.now.sheets }
        ensures value { IfOk result (λ meaning. meaning_told meaning
            ≡ mention_meaning book.now reader (place_told place.entry) (named_told named.entry)) }
        ensures kept { self.new ≡ self.old }
    {
        mention_meaning(book, reader, place, named, &mut self.key)
    }

    /// What the name of a function means.
    pub(crate) fn function_meaning<'a>(
        &mut self,
        book: &BookNames,
        reader: Reader,
        place: Place<'a>,
        function: &'a str,
    ) -> Result<Meaning<'a>, AllocError>
        requires { reader.sheet < length book.now.sheets }
        ensures value { IfOk result (λ meaning. meaning_told meaning
            ≡ function_meaning book.now reader (place_told place.entry) function.now) }
        ensures kept { self.new ≡ self.old }
    {
        function_meaning(book, reader, place, function, &mut self.key)
    }

    /// How much was found up to here.
    pub(crate) fn mark(&self) -> Mark
        ensures { TellsKept result self.now }
    {
        Mark {
            areas: self.found_areas.len(),
            words: self.found_words.len(),
            named: self.named,
        }
    }

    /// Asks for the place alone of what was found behind a mark.
    pub(crate) fn ask_place(&mut self, start: Mark)
        ensures { (kept : Kept) (f : Found) → TellsKept start kept → Adds kept self.old f →
            Adds kept self.new (place_alone f) }
    {
        ask_place_behind(&mut self.found_areas, start.areas);
    }

    /// Gives back the room that was taken since a mark.
    pub(crate) fn give_back(&mut self, start: Mark)
        ensures { GivesBack self.old self.new start }
    {
        self.named = start.named;
    }

    /// Makes a range of what was found between two marks, whose room was given back, and of what
    /// was found behind the second.
    pub(crate) fn join(&mut self, start: Mark, middle: Mark) -> Result<(), NamingError>
        ensures ok { OnOk result ((kept : Kept) (a b : Found) → TellsKept start kept →
            IsRanging kept middle self.old a b → Adds kept self.new (ranged a b)) }
        ensures too_large { IfErr result (λ e. WhenTooLarge e
            ((kept : Kept) (a b : Found) → TellsKept start kept →
            IsRanging kept middle self.old a b → IsBeyond kept (ranged a b))) }
        ensures front { OnErr result ((kept : Kept) (a b : Found) → TellsKept start kept →
            IsRanging kept middle self.old a b → KeepsInFront kept self.new) }
        ensures opened { OnOk result (self.new.opened ≡ self.old.opened) }
    {
        match self.joined(start, middle) {
            Some(area) => {
                self.found_areas.truncate(start.areas);
                self.found_areas.push(area)?;
                Ok(())
            }
            None => {
                self.spend(start.named.saturating_sub(middle.named))?;
                self.push_word(Cause::NoRange, Word::Name(Name::Plain(":")))
            }
        }
    }

    /// The area that a range is, if it is one.
    fn joined(&self, start: Mark, middle: Mark) -> Option<BookArea>
        ensures { (kept : Kept) (a b : Found) → TellsKept start kept →
            IsRanging kept middle self.now a b → result ≡ range_area a b }
    {
        if self.found_words.len() != start.words || middle.areas.saturating_sub(start.areas) != 1 {
            return None;
        }
        joined_pair(self.found_areas.get(start.areas..)?)
    }
}

/// Asks for the place alone of each area behind so many.
fn ask_place_behind(areas: &mut Vec<BookArea>, count: usize)
    ensures { count ≤ length areas.old.items →
        areas.new.items ≡ take count areas.old.items ++ map unvalued (drop count areas.old.items) }
{
    for n in count..areas.len() {
        areas[n].is_valued = false;
    }
}

/// So many defined names, of which none is open.
fn none_open(alloc: Global, count: usize) -> Result<Vec<bool>, AllocError>
    ensures { IfOk result (λ opened. opened.items ≡ replicate count false) }
{
    vec![in alloc; false; count]
}
