ghost use Rattle.std.specs.Prelude.{◌≡◌, suc, ◌≤◌, length, map, true, IfOk, OnOk, IfErr};
ghost use Rattle.std.specs.List.{list_any};
ghost use Rattle.std.specs.Str.{bytes_eq};
ghost use Rattle.part_events.specs.declared.fault.StreamError.TheVariants.{Io};
ghost use Rattle.part_events.specs.Event.{tag_of};
ghost use Rattle.part_events.specs.Reading.{IsReading, IsAtElement, Reads, Skips, SkipFails};
ghost use Rattle.part_events.specs.Section.{is_named, is_any};
ghost use Rattle.part_events.specs.Walk.{wants, StandsInside, StepsInside, InsideFails, StandsAt};
ghost use Rattle.part_events.specs.Walk.{FindsStart, FindsElement, WalkFails};

use crate::event::{PartEvent, StartTag};
use crate::fault::StreamError;
use crate::package::Package;
use crate::reader::XlReader;

/// What a step over a section came to.
#[derive(Clone, Copy, Debug, PartialEq, Eq)]
pub enum Step {
    /// The reader stands at what was asked for: the section's next event, or its next wanted start.
    Found,
    /// The section is closed, and its end was taken.
    Closed,
    /// The part ended in the section.
    Ended,
}

/// Which starts a walk stops at.
#[derive(Clone, Copy)]
pub enum Wanted<'n> {
    Any,
    /// Those with one of these local names.
    Named(&'n [&'n str]),
}

fn is_one_of(names: &[&str], local_name: &str) -> bool
    ensures { result ≡ list_any (bytes_eq local_name.now) (map (λ name. name.now) names.now) }
{
    for name in names {
        if local_name == *name {
            return true;
        }
    }
    false
}

impl Wanted<'_> {
    fn accepts(self, tag: StartTag<'_>) -> bool
        ensures { result ≡ wants self.entry (tag_of tag.entry) }
    {
        match self {
            Wanted::Any => true,
            Wanted::Named(names) => is_one_of(names, tag.local_name()),
        }
    }
}

impl<P: Package> XlReader<P> {
    /// Takes the next event of the section whose element is number `base` of the open ones, counted
    /// from 1. With a `base` of 0 the section is the whole part.
    ///
    /// A part that ends in the section is no refusal. An end that breaks the nesting, or a flaw, is
    /// refused as `Xml(Break)` with its number, counted from 0.
    pub fn next_inside(&mut self, base: usize) -> Result<Step, StreamError>
        requires reading { IsReading self.old }
        requires within { base ≤ length self.old.names }
        ensures reads { Reads Io result self.old self.new }
        ensures stands { IfOk result (λ step. StandsInside base step self.old self.new) }
        ensures inside { self.old.source.is_visible ≡ true →
            IfOk result (λ step. StepsInside base step self.old self.new) }
        ensures err { IfErr result (InsideFails base self.old self.new) }
    {
        if !self.next()? {
            return Ok(Step::Ended);
        }
        if self.depth() < base {
            return Ok(Step::Closed);
        }
        Ok(Step::Found)
    }

    /// Reads on to the next wanted start, to the end of the section whose element is number `base`
    /// of the open ones, or to the part's end. Every walk over a section goes through this loop.
    fn walk(&mut self, base: usize, wanted: Wanted<'_>) -> Result<Step, StreamError>
        requires reading { IsReading self.old }
        requires within { base ≤ length self.old.names }
        ensures reads { Reads Io result self.old self.new }
        ensures stands { IfOk result
            (λ step. StandsAt (wants wanted.entry) base step self.old self.new) }
        ensures starts { self.old.source.is_visible ≡ true →
            IfOk result (λ step. FindsStart (wants wanted.entry) base step self.old self.new) }
        ensures elements { self.old.source.is_visible ≡ true →
            IfOk result (λ step. FindsElement (wants wanted.entry) base step self.old self.new) }
        ensures err { IfErr result (WalkFails (wants wanted.entry) base self.old self.new) }
    {
        'events: loop {
            match self.next_inside(base)? {
                Step::Closed => return Ok(Step::Closed),
                Step::Ended => return Ok(Step::Ended),
                Step::Found => {}
            }
            if let PartEvent::Start(tag) = self.event() {
                if wanted.accepts(tag) {
                    return Ok(Step::Found);
                }
            }
        }
    }

    /// Reads on to the next start with one of these local names, at any depth of the section whose
    /// element is number `base` of the open ones, counted from 1. With a `base` of 0 the whole part
    /// is walked over.
    ///
    /// A part that ends in the section is no refusal. An end that breaks the nesting, or a flaw, is
    /// refused as `Xml(Break)` with its number, counted from 0.
    pub fn next_start(&mut self, base: usize, names: &[&str]) -> Result<Step, StreamError>
        requires reading { IsReading self.old }
        requires within { base ≤ length self.old.names }
        ensures reads { Reads Io result self.old self.new }
        ensures stands { let wanted = is_named (map (λ name. name.now) names.now) in
            IfOk result (λ step. StandsAt wanted base step self.old self.new) }
        ensures found { let wanted = is_named (map (λ name. name.now) names.now) in
            self.old.source.is_visible ≡ true →
            IfOk result (λ step. FindsStart wanted base step self.old self.new) }
        ensures err { let wanted = is_named (map (λ name. name.now) names.now) in
            IfErr result (WalkFails wanted base self.old self.new) }
    {
        self.walk(base, Wanted::Named(names))
    }

    /// Reads on to the next element with one of these local names in such a section. Each element
    /// that is found has to be read to its end before the next one is asked for, so that those that
    /// lie in it are left aside.
    ///
    /// A part that ends in the section is no refusal. An end that breaks the nesting, or a flaw, is
    /// refused as `Xml(Break)` with its number, counted from 0.
    pub fn next_element(&mut self, base: usize, names: &[&str]) -> Result<Step, StreamError>
        requires reading { IsReading self.old }
        requires within { base ≤ length self.old.names }
        ensures reads { Reads Io result self.old self.new }
        ensures stands { let wanted = is_named (map (λ name. name.now) names.now) in
            IfOk result (λ step. StandsAt wanted base step self.old self.new) }
        ensures found { let wanted = is_named (map (λ name. name.now) names.now) in
            self.old.source.is_visible ≡ true → IfOk result
            (λ step. FindsElement wanted base step self.old self.new) }
        ensures err { let wanted = is_named (map (λ name. name.now) names.now) in
            IfErr result (WalkFails wanted base self.old self.new) }
    {
        self.walk(base, Wanted::Named(names))
    }

    /// Reads on to the next child of the element that is number `base` of the open ones. Each child
    /// has to be read to its end before the next one is asked for.
    ///
    /// A part that ends in the element is no refusal. An end that breaks the nesting, or a flaw, is
    /// refused as `Xml(Break)` with its number, counted from 0.
    pub fn next_child(&mut self, base: usize) -> Result<Step, StreamError>
        requires reading { IsReading self.old }
        requires within { base ≤ length self.old.names }
        ensures reads { Reads Io result self.old self.new }
        ensures stands { IfOk result (λ step. StandsAt is_any base step self.old self.new) }
        ensures found { self.old.source.is_visible ≡ true → IfOk result
            (λ step. FindsElement is_any base step self.old self.new) }
        ensures err { IfErr result (WalkFails is_any base self.old self.new) }
    {
        self.walk(base, Wanted::Any)
    }

    /// Reads to the end of the element at whose start the reader stands. A part that ends before
    /// is refused as `Xml(Unclosed)` with the number of its events. An end that breaks the nesting,
    /// or a flaw, is refused as `Xml(Break)` with its number, counted from 0.
    pub fn skip_element(&mut self) -> Result<(), StreamError>
        requires reading { IsReading self.old }
        requires element { IsAtElement self.old }
        ensures reads { Reads Io result self.old self.new }
        ensures depth { OnOk result (length self.old.names
            ≡ suc (length self.new.names)) }
        ensures skips { self.old.source.is_visible ≡ true → OnOk result (Skips self.old self.new) }
        ensures err { IfErr result (SkipFails self.old self.new) }
    {
        let depth = self.depth();
        match self.walk(depth, Wanted::Named(&[]))? {
            Step::Closed => Ok(()),
            Step::Ended => Err(self.leave_open()),
            Step::Found => unreachable!(),
        }
    }
}
