//! Answers in JSON.

ghost use Rattle.std.specs.Prelude.{◌≡◌, IfOk, IsOk};
ghost use Rattle.std.specs.Cow.{cow_str_bytes};
ghost use Rattle.answer_json.specs.Members.{all_of, given, word_of as answer_word};
ghost use Rattle.outcomes.specs.Json.{json_text, members_of, no_texts, refusal_members};
ghost use Rattle.outcomes.specs.Json.{text_in, texts_of, texts_read, word_of};
ghost use Rattle.outcomes.specs.Outcomes.{status_of};

use crate::outcome::{Outcome, Status};
use crate::refusal::Refusal;
use answer_json::{Answer, AnswerMembers, answer_text};
use evidence::Shown;
use std::alloc::{AllocError, Global};
use std::borrow::CowStr;

/// What an answer with this status is called.
fn answer_of(status: Status) -> Answer
    ensures { answer_word result ≡ word_of status }
{
    match status {
        Status::Yes => Answer::Yes,
        Status::No => Answer::No,
        Status::Spent => Answer::Spent,
        Status::Usage | Status::Fault | Status::Memory => Answer::Fault,
    }
}

/// The texts that a refusal shows.
#[derive(Clone, Copy, Debug)]
struct ShownTexts<'a> {
    face: Option<&'a str>,
    found: Option<&'a str>,
    type_text: Option<&'a str>,
    wanted: Option<&'a str>,
}

/// A refusal that shows nothing.
fn no_texts<'a>() -> ShownTexts<'a>
    ensures { texts_read result ≡ no_texts }
{
    ShownTexts {
        face: None,
        found: None,
        type_text: None,
        wanted: None,
    }
}

/// The texts that a refusal shows.
fn texts_of(shown: &Shown) -> ShownTexts<'_>
    ensures { texts_read result ≡ texts_of shown.now }
{
    match shown {
        Shown::Nothing => no_texts(),
        Shown::Type(text) => ShownTexts {
            type_text: Some(text.as_str()),
            ..no_texts()
        },
        Shown::Two { found, wanted } => ShownTexts {
            found: Some(found.as_str()),
            wanted: Some(wanted.as_str()),
            ..no_texts()
        },
        Shown::OnFace {
            face,
            found,
            wanted,
        } => ShownTexts {
            face: Some(face.as_str()),
            found: Some(found.as_str()),
            wanted: Some(wanted.as_str()),
            ..no_texts()
        },
    }
}

/// The place of a refusal.
fn place_of(refusal: &Refusal) -> Option<u64>
    ensures { result ≡ refusal.now.at }
{
    match refusal.at {
        Some(at) => Some(u64::from(at)),
        None => None,
    }
}

/// The members of a refusal, with the texts that it shows.
fn refusal_members<'a>(refusal: &'a Refusal, texts: ShownTexts<'a>) -> AnswerMembers<'a>
    ensures { given (all_of result) ≡ refusal_members refusal.now (texts_read texts.entry) }
{
    AnswerMembers {
        answer: Answer::No,
        at: place_of(refusal),
        cause: Some(refusal.cause.name()),
        definitions: None,
        face: texts.face,
        found: texts.found,
        path: refusal.path.as_deref(),
        turns: None,
        type_text: texts.type_text,
        wanted: texts.wanted,
    }
}

impl Outcome {
    /// The members of the answer: those that its plain text shows.
    fn members(&self) -> AnswerMembers<'_>
        ensures { given (all_of result) ≡ members_of self.now }
    {
        match self {
            Outcome::Refused(refusal) => refusal_members(refusal, no_texts()),
            Outcome::Refuted(refusal, shown) => refusal_members(refusal, texts_of(shown)),
            Outcome::MissingFile(path) => AnswerMembers {
                cause: Some("MissingFile"),
                path: Some(path.as_str()),
                ..AnswerMembers::new(Answer::No)
            },
            Outcome::ReadFault => AnswerMembers {
                cause: Some("ReadFault"),
                ..AnswerMembers::new(Answer::Fault)
            },
            Outcome::WriteFault => AnswerMembers {
                cause: Some("WriteFault"),
                ..AnswerMembers::new(Answer::Fault)
            },
            Outcome::Checked(count) => AnswerMembers {
                definitions: Some(*count),
                ..AnswerMembers::new(Answer::Yes)
            },
            Outcome::Spent { turns, at, path } => AnswerMembers {
                at: Some(u64::from(*at)),
                path: path.as_deref(),
                turns: Some(*turns),
                ..AnswerMembers::new(Answer::Spent)
            },
            _ => AnswerMembers::new(answer_of(self.status())),
        }
    }

    /// The text in JSON, on one line. A fault of writing is told for certain.
    fn json(&self, alloc: Global) -> Result<CowStr<'static, Global>, AllocError>
        ensures text { IfOk result (λ shown. cow_str_bytes shown ≡ json_text self.now) }
        ensures fault { self.now ≡ Outcome.WriteFault → IsOk result }
    {
        if let Outcome::WriteFault = self {
            let text = "{\"answer\":\"fault\",\"cause\":\"WriteFault\"}\n";
            return Ok(CowStr::Borrowed(text));
        }
        let mut text = answer_text(alloc, &self.members())?;
        text.push_str("\n")?;
        Ok(CowStr::Owned(text))
    }

    /// The text, in JSON if that is asked. The only error is out of memory, and a fault of writing
    /// is told for certain.
    pub fn text_in(&self, alloc: Global, json: bool) -> Result<CowStr<'static, Global>, AllocError>
        ensures text { IfOk result (λ shown. cow_str_bytes shown ≡ text_in json self.now) }
        ensures fault { self.now ≡ Outcome.WriteFault → IsOk result }
    {
        if json {
            return self.json(alloc);
        }
        self.text(alloc)
    }
}
