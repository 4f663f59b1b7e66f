ghost use Rattle.std.specs.Prelude.{◌≡◌, ◌∷◌, [], ◌++◌, codes, IsOk, OnOk, OnErr, if◌then◌else◌};
ghost use Rattle.std.specs.List.{list_all};
ghost use Rattle.sexpr_text.specs.Bytes.{is_quote, is_symbol_byte};
ghost use Rattle.sexpr_text.specs.Text.{is_simple, doubled, symbol_text, text_of, texts_of};

use crate::class::is_symbol_byte;
use crate::tree::Sexpr;
use std::alloc::{AllocError, Global};

/// Appends the tree's one text: bars round a symbol only where it is no simple one, `""` for a quote in a string,
/// one blank between two parts of a list, and none at its brackets. It goes as deep as the tree's brackets.
///
/// The text is read again as the same tree, where its atoms have texts of their kinds and no more than 1,000
/// brackets are open at one place ([`crate::laws`]). After want of memory `into` is as before.
pub fn write_form(alloc: Global, tree: &Sexpr, into: &mut Vec<u8>) -> Result<(), AllocError>
    ensures ok { OnOk result (into.new.items ≡ into.old.items ++ text_of tree.now) }
    ensures err { OnErr result (into.new.items ≡ into.old.items) }
{
    let mut text = Vec::new(alloc);
    append_tree(tree, &mut text)?;
    into.extend_from_slice(&text)
}

/// Appends a tree's text.
#[cycle(write)]
#[tactic(auto, using(crate::proofs::Texts::numeral_text, crate::proofs::Texts::decimal_text, crate::proofs::Texts::hex_text, crate::proofs::Texts::binary_text, crate::proofs::Texts::str_text, crate::proofs::Texts::symbol_is_text, crate::proofs::Texts::keyword_text, crate::proofs::Texts::list_text))]
fn append_tree(tree: &Sexpr, into: &mut Vec<u8>) -> Result<(), AllocError>
    ensures { OnOk result (into.new.items ≡ into.old.items ++ text_of tree.now) }
{
    match tree {
        Sexpr::Numeral(text) => into.extend_from_slice(text.as_slice()),
        Sexpr::Decimal(text) => into.extend_from_slice(text.as_slice()),
        Sexpr::Hex(text) => append_pieces(b"#x", text.as_slice(), b"", into),
        Sexpr::Binary(text) => append_pieces(b"#b", text.as_slice(), b"", into),
        Sexpr::Str(text) => append_string(text.as_slice(), into),
        Sexpr::Symbol(text) => append_symbol(text.as_slice(), into),
        Sexpr::Keyword(text) => append_pieces(b":", text.as_slice(), b"", into),
        Sexpr::List(parts) => append_list(parts.as_slice(), into),
    }
}

/// Appends the text of a list of trees.
#[cycle(write)]
fn append_list(parts: &[Sexpr], into: &mut Vec<u8>) -> Result<(), AllocError>
    ensures { OnOk result (into.new.items ≡ into.old.items ++ (codes "(" ++ (texts_of parts.now ++ codes ")"))) }
{
    into.push(b'(')?;
    append_parts(parts, into)?;
    into.push(b')')?;
    Ok(())
}

/// Appends the texts of trees, with one blank between two.
#[cycle(write)]
fn append_parts(parts: &[Sexpr], into: &mut Vec<u8>) -> Result<(), AllocError>
    ensures { OnOk result (into.new.items ≡ into.old.items ++ texts_of parts.now) }
{
    if let [first, more @ ..] = parts {
        append_tree(first, into)?;
        for part in more {
            into.push(b' ')?;
            append_tree(part, into)?;
        }
    }
    Ok(())
}

/// Appends three pieces.
fn append_pieces(
    front: &[u8],
    text: &[u8],
    back: &[u8],
    into: &mut Vec<u8>,
) -> Result<(), AllocError>
    ensures { OnOk result (into.new.items ≡ into.old.items ++ (front.now ++ (text.now ++ back.now))) }
{
    into.extend_from_slice(front)?;
    into.extend_from_slice(text)?;
    into.extend_from_slice(back)
}

/// Appends a symbol, between bars where it is no simple one.
fn append_symbol(text: &[u8], into: &mut Vec<u8>) -> Result<(), AllocError>
    ensures { OnOk result (into.new.items ≡ into.old.items ++ symbol_text text.now) }
{
    if is_simple(text) {
        into.extend_from_slice(text)
    } else {
        append_pieces(b"|", text, b"|", into)
    }
}

/// Whether a symbol needs no bars: it isn't empty, each of its bytes may stand in a symbol, and the first is no digit
/// (SMT-LIB 2.6, section 3.1). Reserved words count as simple here.
#[tactic(auto, unfolding(crate::specs::Text::is_simple))]
pub fn is_simple(text: &[u8]) -> bool
    ensures { result ≡ is_simple text.now }
{
    !text.is_empty() && is_all_symbol_bytes(text) && !text[0].is_ascii_digit()
}

fn is_all_symbol_bytes(text: &[u8]) -> bool
    ensures { result ≡ list_all is_symbol_byte text.now }
{
    text.iter().all(|byte| is_symbol_byte(*byte))
}

/// Appends a string, between quotes and with two quotes for each one.
fn append_string(text: &[u8], into: &mut Vec<u8>) -> Result<(), AllocError>
    ensures { OnOk result (into.new.items ≡ into.old.items ++ (codes "\"" ++ (doubled text.now ++ codes "\""))) }
{
    into.push(b'"')?;
    append_doubled(text, into)?;
    into.push(b'"')?;
    Ok(())
}

/// Appends a text with two quotes for each one.
fn append_doubled(text: &[u8], into: &mut Vec<u8>) -> Result<(), AllocError>
    ensures { OnOk result (into.new.items ≡ into.old.items ++ doubled text.now) }
{
    for byte in text {
        append_byte(*byte, into)?;
    }
    Ok(())
}

/// Appends a byte, twice if it is a quote.
fn append_byte(byte: u8, into: &mut Vec<u8>) -> Result<(), AllocError>
    ensures { OnOk result (into.new.items ≡ into.old.items ++ (if is_quote byte then byte ∷ byte ∷ [] else byte ∷ [])) }
{
    into.push(byte)?;
    if byte == b'"' {
        into.push(byte)?;
    }
    Ok(())
}
