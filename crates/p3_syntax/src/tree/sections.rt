//! Sections of a half, which stand in any order.

ghost use Rattle.std.specs.Prelude.{◌≡◌, IsSome, Some, IfOk};
ghost use Rattle.std.specs.Str.{str_to_ascii_lowercase};
ghost use Rattle.p3_task.specs.Names.{same_name};
ghost use Rattle.p3_task.specs.Grammar.Halves.{section_place};
ghost use Rattle.p3_outline.specs.Nodes.{expression_of};
ghost use Rattle.p3_syntax.specs.Reading.{Gives};
ghost use Rattle.p3_syntax.specs.Sections.{the_section, the_sections, the_half, half_place, each_section, the_found, named_once, only_named, constraints_among};

use crate::tree::constraints::constraint_or_empty;
use crate::tree::parts::{HeadedParts, headed, only, pair, parts};
use crate::tree::words::name;
use p3_base::{List, NoMemory};
use p3_lexer::is;
use p3_outline::{Parts, View};
use p3_task::{Constraint, Part, Ref};
use std::alloc::Global;

/// A section.
fn section<'o, 'a>(view: View<'o, 'a>) -> HeadedParts<'o, 'a>
    requires tree { IsSome (section_place (expression_of view)) }
    ensures { section_place (expression_of view.entry) ≡ Some (the_section result) }
{
    headed(parts(view))
}

/// The sections that parts are.
fn each_section<'o, 'a>(
    alloc: Global,
    parts: Parts<'o, 'a>,
) -> Result<Vec<HeadedParts<'o, 'a>>, NoMemory>
    requires tree { IsSome (each_section parts) }
    ensures { IfOk result (λ found. each_section parts.entry ≡ Some (the_sections found.items)) }
{
    let mut left = parts;
    let mut found = Vec::new(alloc);
    while let Some(view) = left.next() {
        found.push(section(view))?;
    }
    Ok(found)
}

/// A half with its name.
#[derive(Drop)]
pub struct NamedSections<'o, 'a> {
    /// The name.
    pub name: Ref,
    /// The sections in order.
    pub sections: Vec<HeadedParts<'o, 'a>>,
}

/// The sections of a half.
pub fn named_sections<'o, 'a>(
    alloc: Global,
    view: View<'o, 'a>,
) -> Result<NamedSections<'o, 'a>, NoMemory>
    requires tree { IsSome (half_place (expression_of view)) }
    ensures { IfOk result (λ half. half_place (expression_of view.entry) ≡ Some (the_half half)) }
{
    let mut behind = parts(view);
    // The word `define`.
    behind.next();
    let (_, second) = pair(parts(behind.next().unwrap()));
    let name = name(alloc, second)?;
    let sections = each_section(alloc, behind)?;
    Ok(NamedSections { name, sections })
}

/// Whether a section has this keyword.
#[tactic(auto, using(p3_lexer::proofs::ClassLemmas::same_name_sym))]
pub fn is_named(word: &[u8], keyword: &[u8]) -> bool
    requires { str_to_ascii_lowercase keyword.now ≡ keyword.now }
    ensures { result ≡ same_name (str_to_ascii_lowercase word.now) keyword.now }
{
    is(word, keyword)
}

/// The section with this keyword, where there is one.
#[tactic(auto, using(crate::proofs::Loops::one_more))]
pub fn at_most_one<'o, 'a>(
    keyword: &[u8],
    sections: &[HeadedParts<'o, 'a>],
) -> Option<HeadedParts<'o, 'a>>
    requires lowered { str_to_ascii_lowercase keyword.now ≡ keyword.now }
    requires tree { IsSome (named_once keyword.now (the_sections sections.now)) }
    ensures { named_once keyword.now (the_sections sections.now) ≡ Some (the_found result) }
{
    for section in sections {
        if is_named(section.word.text, keyword) {
            return Some(*section);
        }
    }
    None
}

/// The section with this keyword.
#[tactic(auto, using(crate::proofs::SectionLemmas::only_of))]
pub fn exactly_one<'o, 'a>(keyword: &[u8], sections: &[HeadedParts<'o, 'a>]) -> HeadedParts<'o, 'a>
    requires lowered { str_to_ascii_lowercase keyword.now ≡ keyword.now }
    requires tree { IsSome (only_named keyword.now (the_sections sections.now)) }
    ensures { only_named keyword.now (the_sections sections.now) ≡ Some (the_section result) }
{
    at_most_one(keyword, sections).unwrap()
}

/// The constraints. Where the section is absent, there are none.
pub fn constraints(
    alloc: Global,
    sections: &[HeadedParts<'_, '_>],
) -> Result<Part<Constraint>, NoMemory>
    requires tree { IsSome (constraints_among (the_sections sections.now)) }
    ensures { Gives result (constraints_among (the_sections sections.now)) }
{
    match at_most_one(b":constraints", sections) {
        None => Ok(Part {
            at: 0,
            body: Constraint::Both(List::new(alloc)),
        }),
        Some(section) => {
            let body = constraint_or_empty(alloc, only(section.behind))?;
            Ok(Part {
                at: section.word.at,
                body,
            })
        }
    }
}
