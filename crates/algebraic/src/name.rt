//! A move's name, which is printed.
use crate::ending::Ending;
use crate::origin::{Departure, Origin};
use crate::symbols::Symbols;
use board::Kind;
use rules::Square;
use std::fmt;

/// A move's name. It is printed as `Qbxc4+` or `exd5=N#`.
#[derive(Clone, Copy)]
pub struct Name {
    pub(crate) symbols: Symbols,
    pub(crate) kind: Kind,
    pub(crate) origin: Origin,
    pub(crate) from: Square,
    pub(crate) captures: bool,
    pub(crate) to: Square,
    pub(crate) promotion: Option<Kind>,
    pub(crate) ending: Ending,
}

impl fmt::Display for Name {
    ghost use Rattle.std.specs.Prelude.{Some};
    ghost use Rattle.algebraic.specs.Text.{name_text};

    ghost output = { λ name. Some (name_text name) };

    fn fmt<W: fmt::Write>(&self, f: &mut fmt::Formatter<W>) -> fmt::Result {
        let letter = self.symbols.kind_text(self.kind);
        let told = Departure {
            origin: self.origin,
            square: self.from,
        };
        let sign = if self.captures { "x" } else { "" };
        let to = self.to;
        let (equals, promoted) = match self.promotion {
            Some(kind) => ("=", self.symbols.kind_text(kind)),
            None => ("", ""),
        };
        let ending = self.ending.text();
        write!(f, "{letter}{told}{sign}{to}{equals}{promoted}{ending}")
    }
}
