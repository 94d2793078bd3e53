//! Values, formulas and refusals as texts.

use anyhow::Result;
use cell_data::{Data, DataRef, ExcelDateTime, ExcelDateTimeType};
use decimals::Decimal;
use std::fmt::Debug;

/// What is told of a cell of a range.
pub trait Told {
    fn push_to(&self, out: &mut String) -> Result<()>;
}

/// Appends a refusal.
pub fn push_refusal<E: Debug>(out: &mut String, error: &E) -> Result<()> {
    Ok(write!(out, "!{error:?}")?)
}

/// Appends a call that answers nothing, or its refusal.
pub fn push_done<E: Debug + Drop>(out: &mut String, answer: Result<(), E>) -> Result<()> {
    match answer {
        Ok(()) => Ok(()),
        Err(error) => push_refusal(out, &error),
    }
}

fn push_decimal(out: &mut String, number: &Decimal) -> Result<()> {
    out.push_str("n:")?;
    Ok(number.push_to(out)?)
}

/// A date is a number behind `t:`, a duration one behind `d:`.
fn push_time(out: &mut String, time: &ExcelDateTime) -> Result<()> {
    out.push_str(match time.kind {
        ExcelDateTimeType::DateTime => "t:",
        ExcelDateTimeType::TimeDelta => "d:",
    })?;
    time.value.push_to(out)?;
    Ok(out.push_str(if time.is_1904 { " of 1904" } else { " of 1900" })?)
}

impl Told for Data {
    fn push_to(&self, out: &mut String) -> Result<()> {
        match self {
            Data::Int(number) => write!(out, "int:{number}")?,
            Data::Decimal(number) => push_decimal(out, number)?,
            Data::DateTime(time) => push_time(out, time)?,
            Data::String(text) => write!(out, "s:{text}")?,
            Data::DateTimeIso(text) => write!(out, "i:{text}")?,
            Data::Bool(truth) => write!(out, "b:{truth}")?,
            Data::Error(error) => write!(out, "e:{}", error.as_str())?,
            Data::Empty => out.push_str("Empty")?,
        }
        Ok(())
    }
}

impl Told for DataRef {
    fn push_to(&self, out: &mut String) -> Result<()> {
        match self {
            DataRef::Decimal(number) => push_decimal(out, number)?,
            DataRef::DateTime(time) => push_time(out, time)?,
            DataRef::String(text) => write!(out, "s:{text}")?,
            DataRef::SharedString(place) => write!(out, "#{place}")?,
            DataRef::DateTimeIso(text) => write!(out, "i:{text}")?,
            DataRef::Bool(truth) => write!(out, "b:{truth}")?,
            DataRef::Error(error) => write!(out, "e:{}", error.as_str())?,
            DataRef::Empty => out.push_str("Empty")?,
        }
        Ok(())
    }
}

/// A formula.
impl Told for String {
    fn push_to(&self, out: &mut String) -> Result<()> {
        Ok(write!(out, "={self}")?)
    }
}
