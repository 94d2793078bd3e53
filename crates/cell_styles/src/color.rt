ghost use Rattle.std.specs.Prelude.{◌≡◌, ℕ, ◌+◌, ◌*◌, ◌/◌, ◌%◌, ◌^◌, ◌<◌, ◌↔◌, IsTrue, Option};
ghost use Rattle.std.specs.Prelude.{Some};

use std::fmt;

/// A color by its four channels, each from 0 to 255. An alpha of 255 is opaque.
#[derive(Clone, Copy, Debug, Default, PartialEq, Eq)]
pub struct Color {
    pub alpha: u8,
    pub red: u8,
    pub green: u8,
    pub blue: u8,
}

impl Color {
    ghost use Rattle.cell_styles.specs.Color.{argb_of, color_of_argb};

    /// The color of these channels.
    pub fn new(alpha: u8, red: u8, green: u8, blue: u8) -> Color
        ensures { result ≡ record { alpha = alpha; red = red; green = green; blue = blue } }
    {
        Color {
            alpha,
            red,
            green,
            blue,
        }
    }

    /// The opaque color of these channels.
    pub fn rgb(red: u8, green: u8, blue: u8) -> Color
        ensures { result ≡ record { alpha = 255; red = red; green = green; blue = blue } }
    {
        Color::new(255, red, green, blue)
    }

    /// The color of a number of 32 bits: alpha in the highest byte, then red, green and blue.
    pub fn from_argb(argb: u32) -> Color
        ensures { result ≡ color_of_argb argb }
    {
        let [alpha, red, green, blue] = argb.to_be_bytes();
        Color::new(alpha, red, green, blue)
    }

    /// The color as a number of 32 bits: alpha in the highest byte, then red, green and blue.
    pub fn to_argb(&self) -> u32
        ensures { result ≡ argb_of self.now }
    {
        u32::from_be_bytes([self.alpha, self.red, self.green, self.blue])
    }

    /// Whether red, green and blue are all 0, whatever alpha is.
    pub fn is_black(&self) -> bool
        ensures { let color = self.now in
            IsTrue result ↔ ((color.red ≡ 0) × (color.green ≡ 0) × (color.blue ≡ 0)) }
    {
        self.red == 0 && self.green == 0 && self.blue == 0
    }

    /// Whether red, green and blue are all 255, whatever alpha is.
    pub fn is_white(&self) -> bool
        ensures { let color = self.now in
            IsTrue result ↔ ((color.red ≡ 255) × (color.green ≡ 255) × (color.blue ≡ 255)) }
    {
        self.red == 255 && self.green == 255 && self.blue == 255
    }
}

#[tactic(auto, using(std::proofs::lemmas::Fmt::hex_byte))]
impl fmt::Display for Color {
    ghost use Rattle.std.specs.Prelude.{Some};
    ghost use Rattle.cell_styles.specs.Color.{color_text};

    ghost output = { λ color. Some (color_text color) };

    fn fmt<W: fmt::Write>(&self, f: &mut fmt::Formatter<W>) -> fmt::Result {
        let red = self.red;
        let green = self.green;
        let blue = self.blue;
        write!(f, "#{red:02X}{green:02X}{blue:02X}")
    }
}
