ghost use Rattle.std.specs.Prelude.{◌≡◌, ◌++◌, [], ◌∷◌, codes, IfOk};
ghost use Rattle.std.specs.Str.{IsUtf8};
ghost use Rattle.decimals.specs.Words.{number_of, printed};
ghost use Rattle.json.specs.Print.{print, IsNumber};
ghost use Rattle.json.specs.Token.{number, key, string};

use decimals::Decimal;
use json::Writer;
use std::alloc::AllocError;

/// What a writer wrote, and the end of its line.
pub fn end_line(writer: Writer) -> Result<Vec<u8>, AllocError>
    ensures line { IfOk result (λ out.
        out.items ≡ writer.before ++ (print writer.tokens ++ codes "\n")) }
    ensures utf8 { IfOk result (λ out. IsUtf8 writer.before → IsUtf8 out.items) }
{
    let mut out = writer.into_inner();
    out.push(b'\n')?;
    Ok(out)
}

/// Writes a member with a text.
pub fn write_text(writer: &mut Writer, name: &str, text: &str) -> Result<(), AllocError>
    ensures ok { IfOk result (λ _. writer.new.tokens
        ≡ writer.old.tokens ++ key name.now ∷ string text.now ∷ []) }
    ensures before { writer.new.before ≡ writer.old.before }
{
    writer.key(name)?;
    writer.string(text)
}

/// Makes the text of a number in the scratch.
fn print_number<'a>(scratch: &'a mut String, decimal: &Decimal) -> Result<&'a str, AllocError>
    ensures text { IfOk result (λ text. text.now ≡ printed (number_of decimal.now)) }
    ensures number { IfOk result (λ text. IsNumber text.now) }
{
    // Both are read here, so that a proof knows of the bits that they fit.
    let (_whole, _power) = (decimal.mantissa(), decimal.exponent());
    scratch.clear();
    decimal.push_to(scratch)?;
    Ok(scratch.as_str())
}

/// Writes a number with its exact digits. Its text is made in the scratch.
pub fn write_decimal(
    writer: &mut Writer,
    scratch: &mut String,
    decimal: &Decimal,
) -> Result<(), AllocError>
    ensures ok { IfOk result (λ _. writer.new.tokens
        ≡ writer.old.tokens ++ number (printed (number_of decimal.now)) ∷ []) }
    ensures before { writer.new.before ≡ writer.old.before }
{
    let text = print_number(scratch, decimal)?;
    writer.number(text)
}
