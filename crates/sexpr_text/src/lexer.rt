ghost use Rattle.std.specs.Prelude.{◌≡◌, ◌+◌, ◌^◌, ◌<◌, ◌≤◌, length, drop, not, slice_index, true, false, IfOk, IfSome, IsTrue, if◌then◌else◌};
ghost use Rattle.std.specs.Option.{ForSome};
ghost use Rattle.std.specs.List.{list_all, position, position_or_len};
ghost use Rattle.std.specs.Char.{is_ascii_digit, is_ascii_hexdigit};
ghost use Rattle.memchr.specs.Find.{IsFirstByte, is_byte};
ghost use Rattle.sexpr_text.specs.declared.tree.Sexpr.TheVariants as Sexpr;
ghost use Rattle.sexpr_text.specs.Bytes.{is_symbol_byte, is_quote, is_content, is_quoted_content, word_of};
ghost use Rattle.sexpr_text.specs.Front.{size_of, atom, enclosed_by, is_binary_digit, is_fraction, radix_front, is_numeral, is_decimal, content_len, undoubled, front_of, string_front, quoted_front, number_front, literal_front, keyword_front};

use crate::class::{Class, class_of, is_content, is_quoted_content, is_symbol_byte};
use crate::token::{Front, Token};
use crate::tree::Sexpr;
use mbqi_values::fault::FaultKind;
use mbqi_values::sequence::Text;
use memchr::memchr;
use std::alloc::{AllocError, Global};

/// What stands at the front of a text.
#[tactic(auto, unfolding(crate::specs::Front::front_of))]
pub fn front_of(alloc: Global, bytes: &[u8]) -> Result<Front, AllocError>
    requires { 0 < length bytes.now }
    ensures value { IfOk result (λ front. front ≡ front_of bytes.now) }
    ensures some { IfOk result (λ front. 0 < size_of front) }
    ensures within { IfOk result (λ front. size_of front ≤ length bytes.now) }
{
    let rest = rest_at(bytes, 1);
    match class_of(bytes[0]) {
        Class::Blank => Ok(Front::Blank(1)),
        Class::Comment => Ok(Front::Blank(place_of(b'\n', rest) + 1)),
        Class::Open => Ok(Front::Token(Token::Open, 1)),
        Class::Close => Ok(Front::Token(Token::Close, 1)),
        Class::Quote => string_front(alloc, rest),
        Class::Bar => quoted_front(alloc, rest),
        Class::Digit => number_front(alloc, word_of(bytes)),
        Class::Hash => literal_front(alloc, rest),
        Class::Colon => keyword_front(alloc, word_of(rest)),
        Class::Symbol => symbol_front(alloc, word_of(bytes)),
        Class::Other => Ok(Front::Fault(FaultKind::BadByte, 0)),
    }
}

/// The bytes from a place on.
pub fn rest_at(bytes: &[u8], at: usize) -> &[u8]
    requires { at ≤ length bytes.now }
    ensures { result.now ≡ drop at bytes.now }
{
    &bytes[at..]
}

/// The place of the first such byte, or the length where there is none.
#[tactic(auto, using(crate::proofs::ByteSearch::first_byte))]
fn place_of(byte: u8, bytes: &[u8]) -> usize
    ensures value { result ≡ position_or_len (is_byte byte) bytes.now }
    ensures within { result ≤ length bytes.now }
{
    memchr(byte, bytes).unwrap_or(bytes.len())
}

/// The longest run of symbol bytes at the front.
#[tactic(auto, using(crate::proofs::ByteSearch::whole_word, crate::proofs::ByteSearch::some_word))]
fn word_of(bytes: &[u8]) -> &[u8]
    ensures value { result.now ≡ word_of bytes.now }
    ensures some { is_symbol_byte (slice_index bytes.now 0) ≡ true → 0 < length bytes.now → 0 < length result.now }
    ensures within { length result.now ≤ length bytes.now }
{
    &bytes[..word_len(bytes)]
}

/// The length of the longest run of symbol bytes at the front.
fn word_len(bytes: &[u8]) -> usize
    ensures value { result ≡ length (word_of bytes.now) }
    ensures within { result ≤ length bytes.now }
{
    bytes
        .iter()
        .take_while(|byte| is_symbol_byte(**byte))
        .count()
}

/// A token that is the tree.
fn atom(tree: Sexpr, len: usize) -> Front
    ensures value { result ≡ atom tree len }
    ensures size { size_of result ≡ len }
{
    Front::Token(Token::Atom(tree), len)
}

/// What opens with one byte, goes on with a content of `len` bytes, and means the tree. `stray` is the place in
/// the content of the first byte that isn't allowed there, and `missing` the fault where nothing closes it.
fn enclosed(
    stray: Option<usize>,
    is_closed: bool,
    missing: FaultKind,
    tree: Sexpr,
    len: usize,
) -> Front
    requires strays { ForSome stray (λ at. at < len) }
    requires fits { len + 2 < 2 ^ 64 }
    ensures value { result ≡ enclosed_by stray is_closed missing tree len }
    ensures some { 0 < size_of result }
    ensures closed { size_of result ≤ len + 2 }
    ensures open_ { is_closed ≡ false → size_of result ≤ len + 1 }
{
    match stray {
        Some(at) => Front::Fault(FaultKind::BadByte, at + 1),
        None if is_closed => atom(tree, len + 2),
        None => Front::Fault(missing, 0),
    }
}

/// A string, behind its opening quote.
#[tactic(auto, unfolding(crate::specs::Front::string_front))]
fn string_front(alloc: Global, rest: &[u8]) -> Result<Front, AllocError>
    ensures value { IfOk result (λ front. front ≡ string_front rest.now) }
    ensures some { IfOk result (λ front. 0 < size_of front) }
    ensures within { IfOk result (λ front. size_of front ≤ length rest.now + 1) }
{
    let content = &rest[..content_len(rest)];
    let stray = stray_in_string(content);
    let is_closed = content.len() < rest.len();
    let tree = Sexpr::Str(undoubled(alloc, content)?);
    Ok(enclosed(stray, is_closed, FaultKind::OpenString, tree, content.len()))
}

/// The first byte that the content of a string may not have.
fn stray_in_string(content: &[u8]) -> Option<usize>
    ensures value { result ≡ position (λ b. not (is_content b)) content.now }
    ensures within { IfSome result (λ at. at < length content.now) }
{
    content.iter().position(|byte| !is_content(*byte))
}

/// The number of bytes before a string's closing quote, or all where it is missing.
#[tactic(auto, using(crate::proofs::ByteSearch::closes, crate::proofs::ByteSearch::goes_on, crate::proofs::ByteSearch::unquoted))]
fn content_len(rest: &[u8]) -> usize
    ensures value { result ≡ content_len rest.now }
    ensures within { result ≤ length rest.now }
{
    let mut at = 0;
    while let Some(quote) = quote_from(rest, at) {
        let behind = at + quote + 1;
        if !is_quote_at(rest, behind) {
            return at + quote;
        }
        at = behind + 1;
    }
    rest.len()
}

/// How far behind a place the first quote stands.
fn quote_from(bytes: &[u8], at: usize) -> Option<usize>
    requires { at ≤ length bytes.now }
    ensures { IsFirstByte (is_byte 34) (drop at bytes.now) result }
{
    memchr(b'"', rest_at(bytes, at))
}

fn is_quote_at(bytes: &[u8], at: usize) -> bool
    ensures value { result ≡ is_quote (slice_index bytes.now at) }
    ensures within { IsTrue result → at < length bytes.now }
{
    matches!(bytes.get(at), Some(b'"'))
}

/// The text of a string's content, in which two quotes stand for one.
#[tactic(auto, using(crate::proofs::ByteSearch::undoubled_at))]
fn undoubled(alloc: Global, content: &[u8]) -> Result<Text, AllocError>
    ensures { IfOk result (λ text. text ≡ undoubled content.now) }
{
    let mut text = Vec::new(alloc);
    let mut at = 0;
    while at < content.len() {
        text.push(content[at])?;
        at += width_of(content[at]);
    }
    Ok(Text::from_vec(text))
}

/// How many bytes of a string's content stand for the byte.
fn width_of(byte: u8) -> usize
    ensures { result ≡ (if is_quote byte then 2 else 1) }
{
    if byte == b'"' { 2 } else { 1 }
}

/// A quoted symbol, behind its opening bar.
#[tactic(auto, unfolding(crate::specs::Front::quoted_front))]
fn quoted_front(alloc: Global, rest: &[u8]) -> Result<Front, AllocError>
    ensures value { IfOk result (λ front. front ≡ quoted_front rest.now) }
    ensures some { IfOk result (λ front. 0 < size_of front) }
    ensures within { IfOk result (λ front. size_of front ≤ length rest.now + 1) }
{
    let content = &rest[..place_of(b'|', rest)];
    let stray = stray_in_symbol(content);
    let is_closed = content.len() < rest.len();
    let tree = Sexpr::Symbol(Text::from_slice(alloc, content)?);
    Ok(enclosed(stray, is_closed, FaultKind::OpenQuote, tree, content.len()))
}

/// The first byte that the content of a quoted symbol may not have.
fn stray_in_symbol(content: &[u8]) -> Option<usize>
    ensures value { result ≡ position (λ b. not (is_quoted_content b)) content.now }
    ensures within { IfSome result (λ at. at < length content.now) }
{
    content.iter().position(|byte| !is_quoted_content(*byte))
}

/// A word that begins with a digit: a numeral, a decimal, or a fault.
#[tactic(auto, unfolding(crate::specs::Front::number_front))]
fn number_front(alloc: Global, word: &[u8]) -> Result<Front, AllocError>
    requires { 0 < length word.now }
    ensures value { IfOk result (λ front. front ≡ number_front word.now) }
    ensures some { IfOk result (λ front. 0 < size_of front) }
    ensures within { IfOk result (λ front. size_of front ≤ length word.now) }
{
    if is_numeral(word) {
        return Ok(atom(Sexpr::Numeral(Text::from_slice(alloc, word)?), word.len()));
    }
    if is_decimal(word) {
        return Ok(atom(Sexpr::Decimal(Text::from_slice(alloc, word)?), word.len()));
    }
    Ok(Front::Fault(FaultKind::BadNumeral, 0))
}

/// Whether the word is a numeral.
#[tactic(auto, unfolding(crate::specs::Front::is_numeral))]
fn is_numeral(word: &[u8]) -> bool
    ensures { result ≡ is_numeral word.now }
{
    !word.is_empty() && is_all_digits(word) && (word[0] != b'0' || word.len() == 1)
}

fn is_all_digits(word: &[u8]) -> bool
    ensures { result ≡ list_all is_ascii_digit word.now }
{
    word.iter().all(|byte| byte.is_ascii_digit())
}

/// Whether the word is a decimal.
#[tactic(auto, unfolding(crate::specs::Front::is_decimal))]
fn is_decimal(word: &[u8]) -> bool
    ensures { result ≡ is_decimal word.now }
{
    let (whole, behind) = word.split_at(place_of(b'.', word));
    is_numeral(whole) && is_fraction(behind)
}

/// Whether the bytes from a decimal's point on are a point and digits.
#[tactic(auto, unfolding(crate::specs::Front::is_fraction))]
fn is_fraction(behind: &[u8]) -> bool
    ensures { result ≡ is_fraction behind.now }
{
    behind.len() > 1 && is_all_digits(rest_at(behind, 1))
}

/// A hexadecimal or binary literal, behind its `#`.
#[tactic(auto, unfolding(crate::specs::Front::literal_front))]
fn literal_front(alloc: Global, rest: &[u8]) -> Result<Front, AllocError>
    ensures value { IfOk result (λ front. front ≡ literal_front rest.now) }
    ensures some { IfOk result (λ front. 0 < size_of front) }
    ensures within { IfOk result (λ front. size_of front ≤ length rest.now + 1) }
{
    match rest {
        [b'x', digits @ ..] => hex_front(alloc, word_of(digits)),
        [b'b', digits @ ..] => binary_front(alloc, word_of(digits)),
        _ => Ok(Front::Fault(FaultKind::BadByte, 0)),
    }
}

/// A hexadecimal literal, behind its `#x`.
#[tactic(auto, unfolding(crate::specs::Front::radix_front))]
fn hex_front(alloc: Global, word: &[u8]) -> Result<Front, AllocError>
    ensures value { IfOk result (λ front. front ≡ radix_front is_ascii_hexdigit (Sexpr.Hex word.now) word.now) }
    ensures some { IfOk result (λ front. 0 < size_of front) }
    ensures within { IfOk result (λ front. size_of front ≤ length word.now + 2) }
{
    if word.is_empty() || !word[0].is_ascii_hexdigit() {
        return Ok(Front::Fault(FaultKind::BadByte, 0));
    }
    if !is_all_hex_digits(word) {
        return Ok(Front::Fault(FaultKind::BadNumeral, 0));
    }
    Ok(atom(Sexpr::Hex(Text::from_slice(alloc, word)?), word.len() + 2))
}

/// A binary literal, behind its `#b`.
#[tactic(auto, unfolding(crate::specs::Front::radix_front))]
fn binary_front(alloc: Global, word: &[u8]) -> Result<Front, AllocError>
    ensures value { IfOk result (λ front. front ≡ radix_front is_binary_digit (Sexpr.Binary word.now) word.now) }
    ensures some { IfOk result (λ front. 0 < size_of front) }
    ensures within { IfOk result (λ front. size_of front ≤ length word.now + 2) }
{
    if word.is_empty() || !is_binary_digit(word[0]) {
        return Ok(Front::Fault(FaultKind::BadByte, 0));
    }
    if !is_all_binary_digits(word) {
        return Ok(Front::Fault(FaultKind::BadNumeral, 0));
    }
    Ok(atom(
        Sexpr::Binary(Text::from_slice(alloc, word)?),
        word.len() + 2,
    ))
}

fn is_all_hex_digits(word: &[u8]) -> bool
    ensures { result ≡ list_all is_ascii_hexdigit word.now }
{
    word.iter().all(|byte| byte.is_ascii_hexdigit())
}

fn is_all_binary_digits(word: &[u8]) -> bool
    ensures { result ≡ list_all is_binary_digit word.now }
{
    word.iter().all(|byte| is_binary_digit(*byte))
}

fn is_binary_digit(byte: u8) -> bool
    ensures { result ≡ is_binary_digit byte }
{
    byte == b'0' || byte == b'1'
}

/// A keyword, with the word behind its colon.
#[tactic(auto, unfolding(crate::specs::Front::keyword_front))]
fn keyword_front(alloc: Global, word: &[u8]) -> Result<Front, AllocError>
    ensures value { IfOk result (λ front. front ≡ keyword_front word.now) }
    ensures some { IfOk result (λ front. 0 < size_of front) }
    ensures within { IfOk result (λ front. size_of front ≤ length word.now + 1) }
{
    if word.is_empty() {
        return Ok(Front::Fault(FaultKind::BadByte, 0));
    }
    Ok(atom(
        Sexpr::Keyword(Text::from_slice(alloc, word)?),
        word.len() + 1,
    ))
}

/// A symbol without bars.
fn symbol_front(alloc: Global, word: &[u8]) -> Result<Front, AllocError>
    ensures value { IfOk result (λ front. front ≡ atom (Sexpr.Symbol word.now) (length word.now)) }
    ensures size { IfOk result (λ front. size_of front ≡ length word.now) }
{
    Ok(atom(Sexpr::Symbol(Text::from_slice(alloc, word)?), word.len()))
}
