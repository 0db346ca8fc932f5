//! A law on the answers: what they exclude of each other.

ghost use Rattle.session.specs.Answers.{OneVerdict, OneAnswer, OneCheck};

/// A law on the answers, and no code: of one file there is one verdict, and where it is told what
/// is held, a replay of a path, and of a module if one is named, has one answer, but for a fault of
/// reading and out of memory; so has a check, but for faults of reading and of writing.
pub fn answers_exclude_each_other()
    ensures verdict { OneVerdict }
    ensures answer { OneAnswer }
    ensures check { OneCheck }
{}
