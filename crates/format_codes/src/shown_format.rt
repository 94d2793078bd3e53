//! A number format code, cut once, and its section for each value.
ghost use Rattle.std.specs.Prelude.{◌≡◌, ◌≤◌, IfOk, List, Some, ℕ, count_by, is_some, length, map};
ghost use Rattle.std.specs.List.{position_or_len, slice_split};
ghost use Rattle.std.specs.Option.{option_map};
ghost use Rattle.format_codes.specs.Pieces.{has, is_divider, is_text_place};
ghost use Rattle.format_codes.specs.Kinds.{section_kind};
ghost use Rattle.format_codes.specs.Choosing.{is_for_texts, is_no_text, is_text_sound};
ghost use Rattle.format_codes.specs.Choosing.{number_sections, shown_pieces, shows_text};
ghost use Rattle.format_codes.specs.Choosing.{is_supported, number_section, text_section};
ghost use Rattle.format_codes.specs.Choosing.{text_section_in};
ghost use Rattle.format_codes.specs.Sections.{shown_by_code};
ghost use Rattle.decimals.specs.Words.{number_of};
ghost use Rattle.format_codes.specs.ShownFormats.{KeepsNumbers, kept_if_supported, kept_section};
ghost use Rattle.format_codes.specs.ShownFormats.{section_kept, sections_kept, shown_by};
ghost use Rattle.format_codes.specs.ShownFormats.{IsFormatOf, kept_if_taken, kept_section_for};
ghost use Rattle.format_codes.specs.ShownFormats.{shown_by_kept};

use crate::condition::{condition_in, leaves_sign_out, takes};
use crate::cutting::cut_pieces;
use crate::kind::{
    SectionKind, has_general, has_no_number, has_time, is_date_sound, is_general_sound, kind_if,
    undated_kind,
};
use crate::piece::{CodePiece, Condition};
use crate::timing::timed_pieces;
use decimals::Decimal;
use std::alloc::{AllocError, Global};

/// A section that shows numbers.
#[derive(Debug, Drop)]
pub struct NumberSection {
    kind: SectionKind,
    pieces: Vec<CodePiece>,
    condition: Option<Condition>,
}

/// The sections of a code that is supported.
#[derive(Debug, Drop)]
struct FormatSections {
    numbers: Vec<NumberSection>,
    texts: Option<Vec<CodePiece>>,
}

/// A number format code, cut once.
#[derive(Debug, Drop)]
pub struct ShownFormat {
    /// None where the code isn't supported.
    sections: Option<FormatSections>,
}

/// The section that shows a number.
#[derive(Clone, Copy, Debug)]
pub struct ChosenSection<'a> {
    pub kind: SectionKind,
    /// The pieces of the section; those of a date tell minutes from months.
    pub pieces: &'a [CodePiece],
    /// Whether a number below 0 is shown without its sign.
    pub is_unsigned: bool,
}

/// A number as a whole number, and the power of ten that it is taken times.
fn parts_of(number: Decimal) -> (i128, i32)
    ensures { result ≡ number_of number }
{
    (number.mantissa(), number.exponent())
}

/// The same pieces, kept in memory of their own.
fn copy_of(alloc: Global, pieces: &[CodePiece]) -> Result<Vec<CodePiece>, AllocError>
    ensures { IfOk result (λ copy. copy.items ≡ pieces.now) }
{
    let mut copy = Vec::new(alloc);
    copy.extend_from_slice(pieces)?;
    Ok(copy)
}

/// The pieces that a section shows.
fn shown_pieces(alloc: Global, section: &[CodePiece]) -> Result<Vec<CodePiece>, AllocError>
    ensures { IfOk result (λ shown. shown.items ≡ shown_pieces section.now) }
{
    if has_time(section) {
        timed_pieces(alloc, section)
    } else {
        copy_of(alloc, section)
    }
}

/// What a section is that shows a number, by the pieces that it shows, too.
#[tactic(auto, unfolding(crate::specs::Kinds::section_kind))]
fn kind_of(section: &[CodePiece], shown: &[CodePiece]) -> Option<SectionKind>
    requires { shown.now ≡ shown_pieces section.now }
    ensures { result ≡ section_kind section.now }
{
    if has_no_number(section) {
        None
    } else if has_general(section) {
        kind_if(is_general_sound(section), SectionKind::General)
    } else if has_time(section) {
        kind_if(is_date_sound(shown), SectionKind::Date)
    } else {
        undated_kind(section)
    }
}

impl NumberSection {
    /// What is kept of a section, if it is supported.
    fn keep(alloc: Global, section: &[CodePiece]) -> Result<Option<NumberSection>, AllocError>
        ensures { IfOk result (λ kept. option_map section_kept kept ≡ kept_section section.now) }
    {
        let pieces = shown_pieces(alloc, section)?;
        let Some(kind) = kind_of(section, &pieces) else {
            return Ok(None);
        };
        Ok(Some(NumberSection {
            kind,
            pieces,
            condition: condition_in(section),
        }))
    }
}

/// How many pieces stand before the first `;`, or all.
fn section_size(pieces: &[CodePiece]) -> usize
    ensures value { result ≡ position_or_len is_divider pieces.now }
    ensures bound { result ≤ length pieces.now }
{
    pieces
        .iter()
        .take_while(|piece| !piece.is_divider())
        .count()
}

/// The sections of pieces, which `;` divides.
#[tactic(auto, using(crate::proofs::Divided::one_more))]
fn divided(alloc: Global, pieces: &[CodePiece]) -> Result<Vec<Vec<CodePiece>>, AllocError>
    ensures { IfOk result (λ sections. map (λ s. s.items) sections.items
        ≡ slice_split is_divider pieces.now) }
{
    let mut sections = Vec::new(alloc);
    let mut rest = pieces;
    loop {
        let (section, behind) = rest.split_at(section_size(rest));
        sections.push(copy_of(alloc, section)?)?;
        let Some((_, others)) = behind.split_first() else {
            return Ok(sections);
        };
        rest = others;
    }
}

/// Whether `@` stands in a section.
fn has_text_place(section: &[CodePiece]) -> bool
    ensures { result ≡ has is_text_place section.now }
{
    section.iter().any(|piece| piece.is_text_place())
}

/// Whether the last of so many sections is that of texts.
fn is_for_texts(count: usize, section: &[CodePiece]) -> bool
    ensures { result ≡ is_for_texts count section.now }
{
    count == 4 || has_text_place(section)
}

/// Whether the last section is that of texts.
#[tactic(auto, using(crate::proofs::TextsTaken::texts_last))]
fn has_texts(sections: &[Vec<CodePiece>]) -> bool
    ensures { result ≡ is_some (text_section (map (λ s. s.items) sections.now)) }
{
    match sections.split_last() {
        Some((last, _)) => is_for_texts(sections.len(), last),
        None => false,
    }
}

/// The section of texts, if there is one, taken off those of numbers.
fn take_texts(sections: &mut Vec<Vec<CodePiece>>) -> Option<Vec<CodePiece>>
    ensures texts { option_map (λ s. s.items) result
        ≡ text_section (map (λ s. s.items) sections.old.items) }
    ensures numbers { map (λ s. s.items) sections.new.items
        ≡ number_sections (map (λ s. s.items) sections.old.items) }
{
    if has_texts(sections) {
        sections.pop()
    } else {
        None
    }
}

/// Whether a section has what no section of texts has.
fn has_no_text(section: &[CodePiece]) -> bool
    ensures { result ≡ has is_no_text section.now }
{
    section.iter().any(|p| {
        p.is_digit() || p.is_exponent() || p.is_time() || p.is_condition() || p.is_unknown()
    })
}

/// How often a section shows a text.
fn shown_texts(section: &[CodePiece]) -> usize
    ensures { result ≡ count_by shows_text section.now }
{
    section
        .iter()
        .filter(|piece| piece.is_text_place() || piece.is_general())
        .count()
}

/// Whether a section of texts is supported, if there is one.
fn is_text_sound(texts: &Option<Vec<CodePiece>>) -> bool
    ensures { result ≡ is_text_sound (option_map (λ s. s.items) texts.now) }
{
    match texts {
        Some(section) => !has_no_text(section) && shown_texts(section) < 5,
        None => true,
    }
}

/// What is kept of sections that show numbers, if each is supported.
fn keep_numbers(
    alloc: Global,
    sections: &[Vec<CodePiece>],
) -> Result<Option<Vec<NumberSection>>, AllocError>
    ensures { IfOk result (λ kept. KeepsNumbers (option_map (λ v. v.items) kept)
        (map (λ s. s.items) sections.now)) }
{
    let mut kept = Vec::new(alloc);
    for section in sections {
        let Some(number) = NumberSection::keep(alloc, section)? else {
            return Ok(None);
        };
        kept.push(number)?;
    }
    Ok(Some(kept))
}

impl FormatSections {
    /// What is kept of the sections of pieces, if they are supported.
    fn keep(alloc: Global, pieces: &[CodePiece]) -> Result<Option<FormatSections>, AllocError>
        ensures { IfOk result (λ kept. option_map sections_kept kept
            ≡ kept_if_supported (slice_split is_divider pieces.now)) }
    {
        let mut sections = divided(alloc, pieces)?;
        if sections.len() > 4 {
            return Ok(None);
        }
        let texts = take_texts(&mut sections);
        if !is_text_sound(&texts) {
            return Ok(None);
        }
        let Some(numbers) = keep_numbers(alloc, &sections)? else {
            return Ok(None);
        };
        Ok(Some(FormatSections { numbers, texts }))
    }
}

/// The pieces by which a code shows values.
fn shown_by_code(alloc: Global, code: &str) -> Result<Vec<CodePiece>, AllocError>
    ensures { IfOk result (λ pieces. pieces.items ≡ shown_by_code code.now) }
{
    if !code.is_empty() {
        return cut_pieces(alloc, code);
    }
    let mut pieces = Vec::new(alloc);
    pieces.push(CodePiece::General)?;
    Ok(pieces)
}

impl NumberSection {
    /// The section as it shows a number.
    fn chosen(&self, is_unsigned: bool) -> ChosenSection<'_>
        ensures { Some (shown_by result)
            ≡ shown_by_kept is_unsigned (section_kept self.now) }
    {
        ChosenSection {
            kind: self.kind,
            pieces: &self.pieces,
            is_unsigned,
        }
    }

    /// The section, if it takes a number, by its condition or else as its place says; and whether
    /// it leaves the sign out, by its condition or else as its place says.
    fn if_taken(
        &self,
        number: (i128, i32),
        else_takes: bool,
        else_out: bool,
    ) -> Option<ChosenSection<'_>>
        ensures { option_map shown_by result
            ≡ kept_if_taken number else_takes else_out (section_kept self.now) }
    {
        if takes(number, else_takes, self.condition) {
            Some(self.chosen(leaves_sign_out(else_out, self.condition)))
        } else {
            None
        }
    }
}

impl FormatSections {
    /// The section that shows a number.
    fn section_for(&self, number: (i128, i32)) -> Option<ChosenSection<'_>>
        ensures { option_map shown_by result
            ≡ kept_section_for number (map section_kept self.now.numbers.items) }
    {
        match self.numbers.as_slice() {
            [] => None,
            [only] => only.if_taken(number, true, false),
            [first, second] => first.if_taken(number, number.0 >= 0, false).or_else(
                || second.if_taken(number, true, first.condition.is_none()),
            ),
            [first, second, third, ..] => first
                .if_taken(number, number.0 > 0, false)
                .or_else(|| second.if_taken(number, number.0 < 0, true))
                .or_else(|| Some(third.chosen(false))),
        }
    }
}

impl FormatSections {
    /// The section that shows texts.
    fn text_section(&self) -> Option<&[CodePiece]>
        ensures { option_map (λ pieces. pieces.now) result
            ≡ option_map (λ pieces. pieces.items) self.now.texts }
    {
        match &self.texts {
            Some(pieces) => Some(pieces),
            None => None,
        }
    }
}

impl ShownFormat {
    /// Cuts a code once. A code that isn't supported, as one of more than 1,024 bytes, is kept as
    /// such, and no memory is asked for one that is longer.
    #[tactic(auto, using(crate::proofs::Kept::too_long, crate::proofs::Kept::short_enough))]
    pub fn parse(alloc: Global, code: &str) -> Result<ShownFormat, AllocError>
        ensures { IfOk result (λ format. IsFormatOf code.now format) }
    {
        if code.len() > 1024 {
            return Ok(ShownFormat { sections: None });
        }
        let pieces = shown_by_code(alloc, code)?;
        Ok(ShownFormat {
            sections: FormatSections::keep(alloc, &pieces)?,
        })
    }

    /// Whether the code is supported.
    pub fn is_supported(&self) -> bool
        ensures { (code : List ℕ) → IsFormatOf code self.now → result ≡ is_supported code }
    {
        self.sections.is_some()
    }

    /// The section that shows a number, if the code is supported and one takes the number.
    #[tactic(auto, using(crate::proofs::Kept::number_told, crate::proofs::Kept::no_number_told))]
    pub fn section_for(&self, number: Decimal) -> Option<ChosenSection<'_>>
        ensures { (code : List ℕ) → IsFormatOf code self.now
            → option_map shown_by result ≡ number_section code (number_of number) }
    {
        match &self.sections {
            Some(sections) => sections.section_for(parts_of(number)),
            None => None,
        }
    }

    /// The section that shows texts, if the code is supported and has one.
    #[tactic(auto, using(crate::proofs::Kept::texts_told, crate::proofs::Kept::no_texts_told))]
    pub fn text_section(&self) -> Option<&[CodePiece]>
        ensures { (code : List ℕ) → IsFormatOf code self.now
            → option_map (λ pieces. pieces.now) result ≡ text_section_in code }
    {
        match &self.sections {
            Some(sections) => sections.text_section(),
            None => None,
        }
    }
}
