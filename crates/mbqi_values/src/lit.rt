ghost use Rattle.std.specs.Prelude.{◌≡◌, not};

/// A literal: an atom by its number, taken as true (`yes`) or as false.
#[derive(Clone, Copy, Debug, PartialEq, Eq)]
pub struct Lit {
    pub atom: usize,
    pub yes: bool,
}

impl Lit {
    /// The literal of the same atom that is false exactly where this one is true.
    pub fn negated(self) -> Lit
        ensures { result ≡ record self { yes = not self.yes } }
    {
        Lit {
            atom: self.atom,
            yes: !self.yes,
        }
    }
}
