ghost use Rattle.std.specs.Prelude.{◌≡◌, true};
ghost use Rattle.sexpr_text.specs.declared.class.Class.TheVariants as Class;
ghost use Rattle.sexpr_text.specs.Bytes.{class_of, is_symbol_byte, is_content, is_quoted_content};

/// What begins with a byte, where no token has begun before it.
#[derive(Clone, Copy, Debug, PartialEq, Eq)]
pub enum Class {
    Blank,
    Comment,
    Open,
    Close,
    Quote,
    Bar,
    Digit,
    Hash,
    Colon,
    Symbol,
    Other,
}

/// Whether a symbol, beyond its first byte, may have the byte: a letter, a digit or one of `~!@$%^&*_-+=<>.?/` (SMT-LIB
/// 2.6, section 3.1).
#[tactic(auto, unfolding(crate::specs::Bytes::is_symbol_byte))]
pub fn is_symbol_byte(byte: u8) -> bool
    ensures { result ≡ is_symbol_byte byte }
{
    byte.is_ascii_alphanumeric() || b"~!@$%^&*_-+=<>.?/".contains(&byte)
}

/// Whether the content of a string may have the byte.
#[tactic(auto, unfolding(crate::specs::Bytes::is_content))]
pub fn is_content(byte: u8) -> bool
    ensures { result ≡ is_content byte }
{
    matches!(byte, b'\t' | b'\n' | b'\r' | 32..=126 | 128..)
}

/// Whether the content of a quoted symbol may have the byte.
#[tactic(auto, unfolding(crate::specs::Bytes::is_quoted_content))]
pub fn is_quoted_content(byte: u8) -> bool
    ensures { result ≡ is_quoted_content byte }
{
    is_content(byte) && byte != b'\\' && byte != b'|'
}

/// What begins with the byte.
#[tactic(auto, unfolding(crate::specs::Bytes::class_of, crate::specs::Bytes::is_symbol_byte))]
pub fn class_of(byte: u8) -> Class
    ensures value { result ≡ class_of byte }
    ensures digit { result ≡ Class.Digit → is_symbol_byte byte ≡ true }
    ensures symbol { result ≡ Class.Symbol → is_symbol_byte byte ≡ true }
{
    match byte {
        b'\t' | b'\n' | b'\r' | b' ' => Class::Blank,
        b';' => Class::Comment,
        b'(' => Class::Open,
        b')' => Class::Close,
        b'"' => Class::Quote,
        b'|' => Class::Bar,
        b'0'..=b'9' => Class::Digit,
        b'#' => Class::Hash,
        b':' => Class::Colon,
        _ if is_symbol_byte(byte) => Class::Symbol,
        _ => Class::Other,
    }
}
