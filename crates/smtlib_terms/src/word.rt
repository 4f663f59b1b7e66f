ghost use Rattle.std.specs.Prelude.{◌≡◌};
ghost use Rattle.std.specs.List.{list_any};
ghost use Rattle.smtlib_terms.specs.Words.{arithmetic_words, binder_words, command_words, connective_words, general_words, is_one_of, is_text, is_reserved, is_reserved_word, operation_words, passed_over_words, relation_words, theory_words, word_among, word_of};

/// A word at the head of a list, by what it does to what stands behind it.
#[derive(Clone, Copy, Debug, PartialEq, Eq)]
pub enum Word {
    Not,
    And,
    Or,
    Implies,
    Xor,
    Equal,
    Distinct,
    Choose,
    AtMost,
    Below,
    AtLeast,
    Above,
    Plus,
    Minus,
    Select,
    Store,
    Default,
    Let,
    Forall,
    Exists,
    Annotated,
    /// `*`, `div`, `mod` and `abs`, which this profile doesn't have.
    Arithmetic,
    /// `match` and `par`, whose arguments are no terms.
    Unread,
    /// Any other word, which may be a name.
    Name,
}

/// The connectives of the theory Core.
fn connective(text: &[u8]) -> Option<Word>
    ensures { result ≡ word_among connective_words text.now }
{
    if text == b"not".as_slice() {
        Some(Word::Not)
    } else if text == b"and".as_slice() {
        Some(Word::And)
    } else if text == b"or".as_slice() {
        Some(Word::Or)
    } else if text == b"=>".as_slice() {
        Some(Word::Implies)
    } else if text == b"xor".as_slice() {
        Some(Word::Xor)
    } else if text == b"ite".as_slice() {
        Some(Word::Choose)
    } else {
        None
    }
}

/// The relations of the theories Core and Ints.
fn relation(text: &[u8]) -> Option<Word>
    ensures { result ≡ word_among relation_words text.now }
{
    if text == b"=".as_slice() {
        Some(Word::Equal)
    } else if text == b"distinct".as_slice() {
        Some(Word::Distinct)
    } else if text == b"<=".as_slice() {
        Some(Word::AtMost)
    } else if text == b"<".as_slice() {
        Some(Word::Below)
    } else if text == b">=".as_slice() {
        Some(Word::AtLeast)
    } else if text == b">".as_slice() {
        Some(Word::Above)
    } else {
        None
    }
}

/// The operations of the theories Ints and ArraysEx that the profile has, and `default`, which is this project's own.
fn operation(text: &[u8]) -> Option<Word>
    ensures { result ≡ word_among operation_words text.now }
{
    if text == b"+".as_slice() {
        Some(Word::Plus)
    } else if text == b"-".as_slice() {
        Some(Word::Minus)
    } else if text == b"select".as_slice() {
        Some(Word::Select)
    } else if text == b"store".as_slice() {
        Some(Word::Store)
    } else if text == b"default".as_slice() {
        Some(Word::Default)
    } else {
        None
    }
}

/// The words of terms with bindings, binders or attributes.
fn binder(text: &[u8]) -> Option<Word>
    ensures { result ≡ word_among binder_words text.now }
{
    if text == b"let".as_slice() {
        Some(Word::Let)
    } else if text == b"forall".as_slice() {
        Some(Word::Forall)
    } else if text == b"exists".as_slice() {
        Some(Word::Exists)
    } else if text == b"!".as_slice() {
        Some(Word::Annotated)
    } else if text == b"match".as_slice() {
        Some(Word::Unread)
    } else if text == b"par".as_slice() {
        Some(Word::Unread)
    } else {
        None
    }
}

/// The operations that are left out.
fn arithmetic(text: &[u8]) -> Option<Word>
    ensures { result ≡ word_among arithmetic_words text.now }
{
    if text == b"*".as_slice() {
        Some(Word::Arithmetic)
    } else if text == b"div".as_slice() {
        Some(Word::Arithmetic)
    } else if text == b"mod".as_slice() {
        Some(Word::Arithmetic)
    } else if text == b"abs".as_slice() {
        Some(Word::Arithmetic)
    } else {
        None
    }
}

/// What a symbol at the head of a list does to what stands behind it.
#[tactic(auto, unfolding(crate::specs::Words::word_of))]
pub fn word_of(text: &[u8]) -> Word
    ensures { result ≡ word_of text.now }
{
    connective(text)
        .or(relation(text))
        .or(operation(text))
        .or(binder(text))
        .or(arithmetic(text))
        .unwrap_or(Word::Name)
}

/// Whether the text is one of these words.
fn is_among(words: &[&str], text: &[u8]) -> bool
    ensures { result ≡ list_any (λ word. is_text word.now text.now) words.now }
{
    words.iter().any(|word| word.as_bytes() == text)
}

/// Whether the text is one of the reserved words of the standard.
fn is_general_word(text: &[u8]) -> bool
    ensures { result ≡ is_one_of general_words text.now }
{
    is_among(
        &[
            "_",
            "!",
            "as",
            "let",
            "exists",
            "forall",
            "match",
            "par",
            "BINARY",
            "DECIMAL",
            "HEXADECIMAL",
            "NUMERAL",
            "STRING",
        ],
        text,
    )
}

/// Whether the text is the word of a command that is passed over: it changes no script, whatever stands behind it.
pub fn is_passed_over(text: &[u8]) -> bool
    ensures { result ≡ is_one_of passed_over_words text.now }
{
    is_among(
        &[
            "set-logic",
            "set-info",
            "set-option",
            "get-model",
            "get-info",
            "get-unsat-core",
            "echo",
        ],
        text,
    )
}

/// Whether the text is the word of another command, also of one that this profile leaves out.
fn is_command_word(text: &[u8]) -> bool
    ensures { result ≡ is_one_of command_words text.now }
{
    is_among(
        &[
            "declare-sort",
            "declare-const",
            "declare-fun",
            "define-fun",
            "assert",
            "check-sat",
            "exit",
            "define-sort",
            "declare-datatypes",
            "get-value",
            "get-proof",
            "check-sat-assuming",
            "reset",
            "push",
            "pop",
        ],
        text,
    )
}

/// Whether the text is a name of the theories.
fn is_theory_word(text: &[u8]) -> bool
    ensures { result ≡ is_one_of theory_words text.now }
{
    is_among(
        &[
            "true", "false", "not", "and", "or", "xor", "ite", "distinct", "select", "store",
            "default", "Int", "Bool", "Array", "div", "mod", "abs", "=>", "=", "+", "-", "*", "<=",
            "<", ">=", ">",
        ],
        text,
    )
}

/// Whether the text is a reserved word, which stands for no name.
#[tactic(auto, unfolding(crate::specs::Words::is_reserved_word))]
pub fn is_reserved_word(text: &[u8]) -> bool
    ensures { result ≡ is_reserved_word text.now }
{
    is_general_word(text) || is_passed_over(text) || is_command_word(text) || is_theory_word(text)
}

/// Whether nobody may declare, define or bind the name: a reserved word, or one that begins with `@` or `.`,
/// since such names belong to solvers.
#[tactic(auto, unfolding(crate::specs::Words::is_reserved))]
pub fn is_reserved(name: &[u8]) -> bool
    ensures { result ≡ is_reserved name.now }
{
    name.starts_with(b"@") || name.starts_with(b".") || is_reserved_word(name)
}
