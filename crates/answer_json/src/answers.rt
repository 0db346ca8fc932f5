//! Answers and their members.

ghost use Rattle.std.specs.Prelude.{◌≡◌, IfOk, OnOk, string_bytes};
ghost use Rattle.serde_json.specs.View.{members_view};
ghost use Rattle.serde_json.specs.Written.{compact_text};
ghost use Rattle.answer_json.specs.Members.{all_of, bare, number_if, object_of, put_each};
ghost use Rattle.answer_json.specs.Members.{put_if, text_if, word_of};

use serde_json::{Map, Value};
use std::alloc::{AllocError, Global};

/// How a command was answered.
#[derive(Clone, Copy, Debug, PartialEq, Eq)]
pub enum Answer {
    /// What was asked holds.
    Yes,
    /// What was asked does not hold.
    No,
    /// A question reached its budget.
    Spent,
    /// A read or a write failed.
    Fault,
}

/// The members of an answer. One that is None is not written.
#[derive(Clone, Copy, Debug)]
pub struct AnswerMembers<'a> {
    pub answer: Answer,
    /// The place in the file, in bytes.
    pub at: Option<u64>,
    /// Why the answer is no.
    pub cause: Option<&'a str>,
    /// How many definitions are right.
    pub definitions: Option<u64>,
    /// The face over which the answer is no.
    pub face: Option<&'a str>,
    /// What stands at the place.
    pub found: Option<&'a str>,
    /// The path of the file.
    pub path: Option<&'a str>,
    /// The budget of the question, in moves.
    pub turns: Option<u64>,
    /// The type of what stands at the place. Its member is `type`.
    pub type_text: Option<&'a str>,
    /// What was wanted at the place.
    pub wanted: Option<&'a str>,
}

impl Answer {
    /// What it is called in print.
    fn word(self) -> &'static str
        ensures { result.now ≡ word_of self }
    {
        match self {
            Answer::Yes => "yes",
            Answer::No => "no",
            Answer::Spent => "spent",
            Answer::Fault => "fault",
        }
    }
}

impl<'a> AnswerMembers<'a> {
    /// The answer with no other members.
    pub fn new(answer: Answer) -> AnswerMembers<'a>
        ensures { result ≡ bare answer }
    {
        AnswerMembers {
            answer,
            at: None,
            cause: None,
            definitions: None,
            face: None,
            found: None,
            path: None,
            turns: None,
            type_text: None,
            wanted: None,
        }
    }
}

/// Adds a number, if it is given.
fn put_number(
    alloc: Global,
    object: &mut Map<String, Value>,
    name: &str,
    number: Option<u64>,
) -> Result<(), AllocError>
    ensures { OnOk result (members_view object.new.entries
        ≡ put_if name.now (number_if number) (members_view object.old.entries)) }
{
    match number {
        Some(number) => serde_json::put(object, alloc, name, Value::from(number)),
        None => Ok(()),
    }
}

/// Adds a text, if it is given.
fn put_text(
    alloc: Global,
    object: &mut Map<String, Value>,
    name: &str,
    text: Option<&str>,
) -> Result<(), AllocError>
    ensures { OnOk result (members_view object.new.entries
        ≡ put_if name.now (text_if text.entry) (members_view object.old.entries)) }
{
    match text {
        Some(text) => {
            let value = Value::try_from_str(alloc, text)?;
            serde_json::put(object, alloc, name, value)
        }
        None => Ok(()),
    }
}

/// Adds all members that are given.
fn put_all(
    alloc: Global,
    object: &mut Map<String, Value>,
    members: &AnswerMembers<'_>,
) -> Result<(), AllocError>
    ensures { OnOk result (members_view object.new.entries
        ≡ put_each (all_of members.now) (members_view object.old.entries)) }
{
    put_text(alloc, object, "answer", Some(members.answer.word()))?;
    put_number(alloc, object, "at", members.at)?;
    put_text(alloc, object, "cause", members.cause)?;
    put_number(alloc, object, "definitions", members.definitions)?;
    put_text(alloc, object, "face", members.face)?;
    put_text(alloc, object, "found", members.found)?;
    put_text(alloc, object, "path", members.path)?;
    put_number(alloc, object, "turns", members.turns)?;
    put_text(alloc, object, "type", members.type_text)?;
    put_text(alloc, object, "wanted", members.wanted)
}

/// The answer as JSON with no space, on one line and without its end.
///
/// # Errors
/// Only where memory runs out.
pub fn answer_text(alloc: Global, members: &AnswerMembers<'_>) -> Result<String, AllocError>
    ensures { IfOk result (λ text. string_bytes text ≡ compact_text (object_of members.now)) }
{
    let mut object = Map::new(alloc);
    put_all(alloc, &mut object, members)?;
    Value::Object(object).to_string(alloc)
}
