//! Lines of a row that are no pieces of a text.

use crate::flaw::Flaw;
use crate::quoted::{first_number, first_word, word_of, words_of};
use crate::row::{Access, FaultWord, Step};
use p3_base::Word;
use std::alloc::Global;

/// What a line begins that has a text: a piece in the line itself, and those in the lines behind it.
#[derive(Drop)]
pub(crate) enum Head {
    /// A text with a name.
    Let { name: String },
    /// What a file holds before.
    Hold { name: Word },
    /// What is printed.
    Prints,
    /// What a file holds now.
    Holds { name: Word },
    /// How often a pattern stands in a file.
    Counts { name: Word, count: u32 },
}

/// What a line is.
#[derive(Drop)]
pub(crate) enum LineFound<'t> {
    /// A whole step.
    Whole(Step),
    /// The beginning of one that has a text, with the rest of the line.
    Begun(Head, &'t str),
}

/// What a line is that begins with that word.
pub(crate) fn head_of<'t>(alloc: Global, word: &str, rest: &'t str) -> Result<LineFound<'t>, Flaw> {
    match word {
        "let" | "hold" | "prints" | "holds" | "counts" => {
            let (head, piece) = begun(alloc, word, rest)?;
            Ok(LineFound::Begun(head, piece))
        }
        _ => Ok(LineFound::Whole(step_of(alloc, word, rest)?)),
    }
}

/// The beginning of a step that has a text, and the rest of the line.
fn begun<'t>(alloc: Global, word: &str, rest: &'t str) -> Result<(Head, &'t str), Flaw> {
    if word == "prints" {
        return Ok((Head::Prints, rest));
    }
    let (name, rest) = first_word(rest);
    if name.is_empty() {
        return Err(Flaw::Told("a name is wanted"));
    }
    if word == "let" {
        let name = String::from_str(alloc, name)?;
        return Ok((Head::Let { name }, rest));
    }
    let name = word_of(alloc, name)?;
    match word {
        "hold" => Ok((Head::Hold { name }, rest)),
        "holds" => Ok((Head::Holds { name }, rest)),
        _ => {
            let (count, rest) = first_number(rest)?;
            Ok((Head::Counts { name, count }, rest))
        }
    }
}

/// A step without a text.
fn step_of(alloc: Global, word: &str, rest: &str) -> Result<Step, Flaw> {
    match word {
        "run" => Ok(Step::Run {
            words: words_of(alloc, rest)?,
        }),
        "run-sure" => Ok(Step::RunSure {
            words: words_of(alloc, rest)?,
        }),
        "why" => Ok(Step::Why {
            words: words_of(alloc, rest)?,
        }),
        "status" => status_of(rest),
        "absent" => absent_of(alloc, rest),
        "same" => same_of(alloc, rest),
        "fail" => failing_call(rest),
        "fail-put" => failing_put(rest),
        "cuts" => cuts_of(alloc, rest),
        "faults" => faults_of(alloc, rest),
        _ => Err(Flaw::Told("no line begins with this word")),
    }
}

/// Nothing more stands in the line.
fn ended(rest: &str) -> Result<(), Flaw> {
    if rest.is_empty() {
        Ok(())
    } else {
        Err(Flaw::Told("the line has a word too many"))
    }
}

/// `status N`
fn status_of(rest: &str) -> Result<Step, Flaw> {
    let (number, rest) = first_number(rest)?;
    ended(rest)?;
    match u8::try_from(number) {
        Ok(status) => Ok(Step::Status { status }),
        Err(_) => Err(Flaw::Told("a status is 255 at most")),
    }
}

/// `absent NAME ..`
fn absent_of(alloc: Global, rest: &str) -> Result<Step, Flaw> {
    let names = words_of(alloc, rest)?;
    if names.is_empty() {
        return Err(Flaw::Told("a name is wanted"));
    }
    Ok(Step::Absent { names })
}

/// `same NAME NAME`
fn same_of(alloc: Global, rest: &str) -> Result<Step, Flaw> {
    let (name, rest) = first_word(rest);
    let (other, rest) = first_word(rest);
    ended(rest)?;
    if name == other || other.is_empty() {
        return Err(Flaw::Told("two names are wanted"));
    }
    Ok(Step::Same {
        name: word_of(alloc, name)?,
        other: word_of(alloc, other)?,
    })
}

/// `fail CALL leaving BYTES`
fn failing_call(rest: &str) -> Result<Step, Flaw> {
    let (call, rest) = first_number(rest)?;
    let (word, rest) = first_word(rest);
    if word != "leaving" {
        return Err(Flaw::Told("`leaving` is wanted behind the number of the call"));
    }
    let (left, rest) = first_number(rest)?;
    ended(rest)?;
    Ok(Step::FailCall { call, left })
}

/// `fail-put PUT`
fn failing_put(rest: &str) -> Result<Step, Flaw> {
    let (put, rest) = first_number(rest)?;
    ended(rest)?;
    Ok(Step::FailPut { put })
}

/// `cuts NAME ROLE WORD ..`
fn cuts_of(alloc: Global, rest: &str) -> Result<Step, Flaw> {
    let (name, rest) = first_word(rest);
    let (role, rest) = first_word(rest);
    if rest.is_empty() {
        return Err(Flaw::Told("a name, a role and words are wanted"));
    }
    Ok(Step::Cuts {
        name: word_of(alloc, name)?,
        role: String::from_str(alloc, role)?,
        words: words_of(alloc, rest)?,
    })
}

/// `faults WORD ..`, each word with what becomes of its file
fn faults_of(alloc: Global, rest: &str) -> Result<Step, Flaw> {
    if !rest.contains('<') && !rest.contains('>') {
        return Err(Flaw::Told("no word names a file that is read or written"));
    }
    let mut words = Vec::new(alloc);
    for word in rest.split_whitespace() {
        words.push(fault_word(alloc, word)?)?;
    }
    Ok(Step::Faults { words })
}

/// `WORD`, `WORD<ROLE` for a file that is read, or `WORD>ROLE` for one that is written
fn fault_word(alloc: Global, text: &str) -> Result<FaultWord, Flaw> {
    if let Some((word, role)) = text.split_once('<') {
        let word = word_of(alloc, word)?;
        let role = String::from_str(alloc, role)?;
        let access = Access::Read { role };
        return Ok(FaultWord { word, access });
    }
    if let Some((word, role)) = text.split_once('>') {
        let word = word_of(alloc, word)?;
        let role = String::from_str(alloc, role)?;
        let access = Access::Written { role };
        return Ok(FaultWord { word, access });
    }
    let word = word_of(alloc, text)?;
    let access = Access::Unused;
    Ok(FaultWord { word, access })
}
