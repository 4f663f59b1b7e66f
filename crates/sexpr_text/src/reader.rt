ghost use Rattle.std.specs.Prelude.{◌≡◌, ◌+◌, ◌<◌, ◌≤◌, [], drop, length, All, IfOk, IsTrue};
ghost use Rattle.mbqi_values.specs.declared.fault.ReadError.TheVariants as ReadError;
ghost use Rattle.sexpr_text.specs.Lexis.{lexed, lexed_from};
ghost use Rattle.sexpr_text.specs.Depth.{IsShallow};
ghost use Rattle.sexpr_text.specs.Legal.{is_legal};
ghost use Rattle.sexpr_text.specs.Forms.{HaveForms, IsRefused, IfRefused};
ghost use Rattle.sexpr_text.specs.Reading.{put, opened, closed_in, step_by, finished_in, read_from, Steps, Reads, Turns};

use crate::lexer::{front_of, rest_at};
use crate::stack::Stack;
use crate::token::{Front, Token};
use crate::tree::{Form, Forms, Sexpr, Sexprs};
use mbqi_values::fault::{FaultKind, ReadError, Refusal};
use std::alloc::Global;

/// How many brackets may be open at one place of a text.
pub const OPEN_LIMIT: usize = 1000;

/// The forms of a whole text.
///
/// A text that has none is refused at its first fault in reading order, over tokens and brackets together, with
/// that fault's place and kind. Only want of memory is another answer. Time and memory are linear in the text, and
/// nothing goes by recursion on its brackets.
#[tactic(auto, using(crate::proofs::Readings::forms_read, crate::proofs::Readings::fault_read, crate::proofs::Readings::legal_read, crate::proofs::Readings::shallow_read))]
pub fn read_forms(alloc: Global, bytes: &[u8]) -> Result<Forms, ReadError>
    ensures forms { IfOk result (HaveForms bytes.now) }
    ensures refused { IfRefused result (IsRefused bytes.now) }

    // Each atom that is read has a text of its kind, and the brackets of each form are within the limit.
    ensures legal { IfOk result (All (λ form. IsTrue (is_legal form.tree))) }
    ensures shallow { IfOk result (All (λ form. IsShallow form.tree)) }
{
    read_all(alloc, bytes)
}

/// The forms of a whole text, by the reader's plan.
#[tactic(auto, using(crate::proofs::Turns::read_end))]
fn read_all(alloc: Global, bytes: &[u8]) -> Result<Forms, ReadError>
    ensures { Reads result (read_from (record { forms = []; outermost = 0; rows = [] }) (lexed bytes.now)) }
{
    let mut reader = Reader::new(alloc);
    let mut at = 0;
    while at < bytes.len() {
        at = turn(&mut reader, alloc, bytes, at)?;
    }
    reader.finish()
}

/// What has been read of a text: its forms, the place of its outermost open bracket where there is one, and the
/// trees behind each open bracket.
#[derive(Drop)]
struct Reader {
    forms: Forms,
    outermost: usize,
    rows: Stack<Sexprs>,
}

impl Reader {
    fn new(alloc: Global) -> Reader
        ensures forms { result.forms ≡ [] }
        ensures rows { result.rows ≡ [] }
        ensures outermost { result.outermost ≡ 0 }
    {
        Reader {
            forms: Forms::new(alloc),
            outermost: 0,
            rows: Stack::new(alloc),
        }
    }

    /// Takes a token.
    fn take(&mut self, alloc: Global, token: Token, from: usize, to: usize) -> Result<(), ReadError>
        ensures { Steps result (step_by self.old token from to) self.new }
    {
        match token {
            Token::Open => self.open(alloc, from),
            Token::Close => self.close(from, to),
            Token::Atom(tree) => self.put(tree, from, to),
        }
    }

    /// Takes an open bracket.
    fn open(&mut self, alloc: Global, from: usize) -> Result<(), ReadError>
        ensures { Steps result (opened self.old from) self.new }
    {
        if self.rows.len() == OPEN_LIMIT {
            return Err(refused(from, FaultKind::TooDeep));
        }
        if self.rows.len() == 0 {
            self.outermost = from;
        }
        self.rows.push(Sexprs::new(alloc))?;
        Ok(())
    }

    /// Takes a closing bracket.
    fn close(&mut self, from: usize, to: usize) -> Result<(), ReadError>
        ensures { Steps result (closed_in self.old.forms self.old.outermost self.old.rows from to) self.new }
    {
        match self.rows.pop() {
            Some(row) => self.put(Sexpr::List(row), self.outermost, to),
            None => Err(refused(from, FaultKind::Unopened)),
        }
    }

    /// Takes a tree that is whole.
    fn put(&mut self, tree: Sexpr, from: usize, to: usize) -> Result<(), ReadError>
        ensures { Steps result (Ok (put self.old tree from to)) self.new }
    {
        match self.rows.pop() {
            Some(mut row) => {
                row.push(tree)?;
                self.rows.push(row)?;
            }
            None => self.forms.push(Form { tree, from, to })?,
        }
        Ok(())
    }

    /// Comes to the end of the text.
    fn finish(self) -> Result<Forms, ReadError>
        ensures { Reads result (finished_in self.forms self.outermost self.rows) }
    {
        if self.rows.len() != 0 {
            return Err(refused(self.outermost, FaultKind::Unclosed));
        }
        Ok(self.forms)
    }
}

/// Reads what stands at a place, and gives the place behind it.
#[tactic(auto, using(crate::proofs::Turns::after_blank, crate::proofs::Turns::after_token, crate::proofs::Turns::after_fault, crate::proofs::Turns::read_next, crate::proofs::Turns::read_broken))]
fn turn(reader: &mut Reader, alloc: Global, bytes: &[u8], at: usize) -> Result<usize, ReadError>
    requires { at < length bytes.now }
    ensures turns { Turns result (read_from reader.old (lexed_from 0 at (drop at bytes.now)))
        (λ to. read_from reader.new (lexed_from 0 to (drop to bytes.now))) }
    ensures ahead { IfOk result (λ to. at < to) }
    ensures within { IfOk result (λ to. to ≤ length bytes.now) }
{
    match front_of(alloc, rest_at(bytes, at))? {
        Front::Blank(len) => Ok(at + len),
        Front::Token(token, len) => {
            reader.take(alloc, token, at, at + len)?;
            Ok(at + len)
        }
        Front::Fault(kind, before) => Err(refused(at + before, kind)),
    }
}

fn refused(at: usize, kind: FaultKind) -> ReadError
    ensures { result ≡ ReadError.Refused (record { at = at; kind = kind }) }
{
    ReadError::Refused(Refusal { at, kind })
}
