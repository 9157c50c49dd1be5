// Widths as text.
ghost use Rattle.std.specs.Prelude.{Some};
ghost use Rattle.rules.specs.Shown.{width_text};

use crate::width::Width;
use std::fmt;

// Digits, or endless.
impl fmt::Display for Width {
    ghost output = { λ w. Some (width_text w) };

    fn fmt<W: fmt::Write>(&self, f: &mut fmt::Formatter<W>) -> fmt::Result {
        match self {
            Width::Number(n) => write!(f, "{n}"),
            Width::Endless => write!(f, "endless"),
        }
    }
}
