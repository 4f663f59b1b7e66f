//! The command of the words.

ghost use Rattle.std.specs.Prelude.{◌≡◌, [], ◌∷◌, None, Some, map, string_bytes, MatchOption};
ghost use Rattle.mbqi_app.specs.Command.{asked_for, files_of, is_file};
ghost use Rattle.mbqi_app.specs.Task.{command_of_task};

/// What the words ask for, of the commands that are built so far.
#[derive(Clone, Copy)]
pub enum Task<'a> {
    /// `solve FILE`
    Solve(&'a str),
    /// `print FILE`
    Print(&'a str),
}

impl<'a> Task<'a> {
    /// The file with the script.
    pub fn file(self) -> &'a str
        ensures { files_of (command_of_task self.entry) ≡ result.now ∷ [] }
    {
        match self {
            Task::Solve(file) => file,
            Task::Print(file) => file,
        }
    }
}

fn is_file(word: &str) -> bool
    ensures { result ≡ is_file word.now }
{
    !word.is_empty() && !word.as_bytes().starts_with(b"-")
}

/// The command of the words, where it is built.
#[tactic(auto, using(crate::proofs::CommandForms::only_two))]
pub fn task_of(words: &[String]) -> Option<Task<'_>>
    ensures { MatchOption result (asked_for (map string_bytes words.now) ≡ None)
        (λ task. asked_for (map string_bytes words.now) ≡ Some (command_of_task task)) }
{
    if words.len() == 2 {
        file_task(words[0].as_str(), words[1].as_str())
    } else {
        None
    }
}

/// The command of a name and a file.
#[tactic(auto, unfolding(crate::specs::Command::asked_for))]
fn file_task<'a>(name: &str, file: &'a str) -> Option<Task<'a>>
    ensures { MatchOption result (asked_for (name.now ∷ file.now ∷ []) ≡ None)
        (λ task. asked_for (name.now ∷ file.now ∷ []) ≡ Some (command_of_task task)) }
{
    if !is_file(file) {
        None
    } else if name == "solve" {
        Some(Task::Solve(file))
    } else if name == "print" {
        Some(Task::Print(file))
    } else {
        None
    }
}
