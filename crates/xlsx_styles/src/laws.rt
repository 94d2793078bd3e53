ghost use Rattle.std.specs.Prelude.{◌≡◌, ℕ, ◌≤◌, ◌*◌, ◌^◌, ℤ, nat_abs};
ghost use Rattle.decimals.specs.Words.{number_of};
ghost use Rattle.decimals.specs.declared.decimal.Decimal.{Decimal};
ghost use Rattle.cell_styles.specs.declared.color.Color.{Color};
ghost use Rattle.xlsx_styles.specs.Colors.{nearest_upward};
ghost use Rattle.xlsx_styles.specs.Tint.{Fraction, IsNearest, tint_fraction, tint_size};
ghost use Rattle.xlsx_styles.specs.Tint.{with_decimals};

/// No two channels of a color change their order by a tint.
#[tactic(auto, using(crate::proofs::Orders::order_kept))]
pub fn tints_keep_the_order()
    ensures { (color : Color) (tint : Decimal) (x y m n : ℕ) → x ≤ y
        → IsNearest m (tint_fraction color tint x) → IsNearest n (tint_fraction color tint y)
        → m ≤ n }
{}

/// One number alone is nearest to a fraction.
#[tactic(auto, using(crate::proofs::Nearest::nearest_is))]
pub fn one_number_is_nearest()
    ensures { (n : ℕ) (fraction : Fraction) → IsNearest n fraction → n ≡ nearest_upward fraction }
{}

/// A tint from -1 to 1 of at most 20 decimals is taken exactly: in parts of ten to the twentieth,
/// none of it is cut.
#[tactic(auto, using(crate::proofs::Shades::short_exact))]
pub fn short_tints_are_exact()
    ensures { (tint : Decimal) (mantissa : ℤ) (places : ℕ)
        → number_of tint ≡ with_decimals mantissa places → places ≤ 20
        → nat_abs mantissa ≤ 10 ^ places
        → tint_size tint * 10 ^ places ≡ nat_abs mantissa * 10 ^ 20 }
{}
