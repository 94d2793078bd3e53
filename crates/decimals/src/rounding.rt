//! The steps of rounding to so many significant digits.
ghost use Rattle.std.specs.Prelude.{◌≡◌, ◌^◌, ◌<◌, ◌≤◌};
ghost use Rattle.decimals.specs.Rounding.{digit_count, nearest};

/// How many decimal digits write the number. One writes 0.
#[tactic(auto, using(crate::proofs::Rounded::count_is))]
pub fn digit_count(number: u128) -> u32
    ensures { result ≡ digit_count number }
{
    match number.checked_ilog10() {
        Some(power) => power + 1,
        None => 1,
    }
}

/// The whole number that is nearest to this one over ten to the power, and the greater of two that
/// are as near.
pub fn nearest(number: u128, places: u32) -> u128
    requires places { places < 39 }
    requires room { number ≤ 2 ^ 127 }
    ensures { result ≡ nearest places number }
{
    let unit = 10u128.pow(places);
    (number + unit / 2) / unit
}
