ghost use Rattle.std.specs.Prelude.{◌≡◌};
ghost use Rattle.std.specs.Option.{option_copied};
ghost use Rattle.sexpr_text.specs.Trees.{keyword_in, list_in, numeral_in, symbol_in};

use mbqi_values::sequence::{Sequence, Text};
use sqlite_items::Items;

/// An S-expression: a literal, a symbol, a keyword, or a list of S-expressions (SMT-LIB 2.6, section 3.2).
///
/// The text of a literal, symbol or keyword is what it says, without the marks that tell its kind: a string
/// without its quotes, a quoted symbol without its bars, a keyword without its colon, a hexadecimal or binary
/// literal without `#x` or `#b`.
#[derive(Debug, Drop)]
pub enum Sexpr {
    Numeral(Text),
    Decimal(Text),
    Hex(Text),
    Binary(Text),
    Str(Text),
    Symbol(Text),
    Keyword(Text),
    List(Sexprs),
}

impl Sexpr {
    /// The digits of a numeral; nothing of another tree.
    pub fn as_numeral(&self) -> Option<&[u8]>
        ensures { option_copied result ≡ numeral_in self.now }
    {
        if let Sexpr::Numeral(text) = self {
            Some(text.as_slice())
        } else {
            None
        }
    }

    /// The text of a symbol; nothing of another tree.
    pub fn as_symbol(&self) -> Option<&[u8]>
        ensures { option_copied result ≡ symbol_in self.now }
    {
        if let Sexpr::Symbol(text) = self {
            Some(text.as_slice())
        } else {
            None
        }
    }

    /// The text of a keyword; nothing of another tree.
    pub fn as_keyword(&self) -> Option<&[u8]>
        ensures { option_copied result ≡ keyword_in self.now }
    {
        if let Sexpr::Keyword(text) = self {
            Some(text.as_slice())
        } else {
            None
        }
    }

    /// The trees of a list, in their order; nothing of another tree.
    #[tactic(auto, using(crate::proofs::ListTrees::list_in_list))]
    pub fn as_list(&self) -> Option<&[Sexpr]>
        ensures { option_copied result ≡ list_in self.now }
    {
        if let Sexpr::List(trees) = self {
            Some(trees.as_slice())
        } else {
            None
        }
    }
}

/// The S-expressions of a list, which contracts see as a list.
pub type Sexprs = Items<Sexpr>;

/// An S-expression of a text that stands in no other one, with the place of its first byte and the place
/// behind its last one, both counted from 0.
#[derive(Debug, Drop)]
pub struct Form {
    pub tree: Sexpr,
    pub from: usize,
    pub to: usize,
}

/// The forms of a text in their order, which contracts see as a list.
pub type Forms = Sequence<Form>;
