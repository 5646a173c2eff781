//! What is known of atoms.

ghost use Rattle.std.specs.Prelude.{◌≡◌, ◌++◌, ◌∷◌, [], None, true, IfOk, OnOk, IsTrue};
ghost use Rattle.std.specs.List.{list_all};
ghost use Rattle.p3_formula.specs.Forms.{State, truth};
ghost use Rattle.p3_formula.specs.Literals.{entries_of, fixed, fixed_parts, is_met, literals_of, said_of, with_all, with_one};

use crate::Form;
use crate::literals::Literal;
use indexmap::IndexMap;
use p3_base::NoMemory;
use std::alloc::Global;
use std::marker::Model;

/// How many literals are looked through before the others are looked up.
const FEW: usize = 16;

/// Literals of different atoms. A form fixes few of them mostly, and to look through these is quicker
/// than to hash, so that there is a map only where they are more.
#[derive(Drop)]
pub struct Known {
    few: Vec<Literal>,
    many: Option<IndexMap<usize, bool>>,
}

impl Model for Known {
    ghost use Rattle.std.specs.Prelude.{◌≡◌, ◌<◌, ◌++◌, List, [], length};
    ghost use Rattle.p3_formula.specs.Literals.{entries_of, literals_of};
    ghost use Rattle.p3_formula.specs.declared.literals.Literal.{Literal};

    ghost Value = { List Literal };

    ghost view = { λ known. known.few.items ++ literals_of (entries_of known.many) };

    ghost invariant = { λ known. length known.few.items < 16 → entries_of known.many ≡ [] };
}

impl Known {
    /// Nothing is known.
    pub fn new(alloc: Global) -> Known
        ensures { result ≡ [] }
    {
        Known {
            few: Vec::new(alloc),
            many: None,
        }
    }

    /// What is known where the form holds: its atoms that are joined by conjunctions alone, also under
    /// the negation of disjunctions. Of an atom that stands there twice it is what is said first.
    #[tactic(auto, using(crate::proofs::LiteralLaws::known_law))]
    pub fn where_holds(alloc: Global, form: &Form) -> Result<Known, NoMemory>
        ensures value { IfOk result (λ known. known ≡ with_all [] (fixed form.now true)) }
        ensures law { IfOk result (λ known. (state : State) → IsTrue (truth state form.now)
            → IsTrue (list_all (is_met state) known)) }
    {
        let mut known = Known::new(alloc);
        note_fixed(&mut known, form, true)?;
        Ok(known)
    }

    /// What is known of the atom.
    #[tactic(auto, using(crate::proofs::LiteralLaws::said_laws))]
    pub fn of(&self, atom: usize) -> Option<bool>
        ensures { result ≡ said_of self.now atom }
    {
        match said_among(&self.few, atom) {
            Some(holds) => Some(holds),
            None => said_further(&self.many, atom),
        }
    }

    /// The literal is known too, where nothing is of its atom.
    pub fn note_once(&mut self, literal: Literal) -> Result<(), NoMemory>
        ensures { OnOk result (self.new ≡ with_one self.old literal) }
    {
        if self.of(literal.atom).is_some() {
            return Ok(());
        }
        self.note(literal)
    }

    /// The literal is known too.
    #[tactic(auto, using(crate::proofs::LiteralLaws::note_laws))]
    pub(crate) fn note(&mut self, literal: Literal) -> Result<(), NoMemory>
        requires { said_of self.old literal.atom ≡ None }
        ensures { OnOk result (self.new ≡ self.old ++ literal ∷ []) }
    {
        if self.few.len() < FEW {
            self.few.push(literal)?;
            return Ok(());
        }
        note_further(*self.few.allocator(), &mut self.many, literal)
    }
}

/// Says of the atom what the literals in the map do, where there is one.
#[tactic(auto, using(crate::proofs::LiteralLaws::said_entry))]
fn said_further(many: &Option<IndexMap<usize, bool>>, atom: usize) -> Option<bool>
    ensures { result ≡ said_of (literals_of (entries_of many.now)) atom }
{
    match many {
        Some(many) => many.get(&atom).copied(),
        None => None,
    }
}

/// Puts the literal behind those in the map, and makes the map where there is none.
#[tactic(auto, using(crate::proofs::LiteralLaws::noted))]
fn note_further(
    alloc: Global,
    many: &mut Option<IndexMap<usize, bool>>,
    literal: Literal,
) -> Result<(), NoMemory>
    requires { said_of (literals_of (entries_of many.old)) literal.atom ≡ None }
    ensures { OnOk result (literals_of (entries_of many.new)
        ≡ literals_of (entries_of many.old) ++ literal ∷ []) }
{
    match many {
        Some(many) => {
            many.insert(literal.atom, literal.holds)?;
        }
        None => {
            let mut first = IndexMap::new(alloc);
            first.insert(literal.atom, literal.holds)?;
            *many = Some(first);
        }
    }
    Ok(())
}

/// Looks through the literals for what the first of the atom says of it.
fn said_among(literals: &[Literal], atom: usize) -> Option<bool>
    ensures { result ≡ said_of literals.now atom }
{
    for literal in literals {
        if literal.atom == atom {
            return Some(literal.holds);
        }
    }
    None
}

/// Notes what the form fixes where it has that truth, each literal where nothing is known of its atom.
#[cycle(fixed)]
#[tactic(auto, using(crate::proofs::LiteralLaws::fixed_laws))]
fn note_fixed(known: &mut Known, form: &Form, holds: bool) -> Result<(), NoMemory>
    ensures { OnOk result (known.new ≡ with_all known.old (fixed form.now holds)) }
{
    match form {
        Form::True | Form::False => Ok(()),
        Form::Atom(atom) => known.note_once(Literal { atom: *atom, holds }),
        Form::Not(part) => note_fixed(known, part.get(), !holds),
        Form::And(parts) => note_where(known, parts.items(), holds, true),
        Form::Or(parts) => note_where(known, parts.items(), holds, false),
    }
}

/// Notes what each of the parts fixes, where the truth of the whole settles that of its parts.
#[cycle(fixed)]
#[tactic(auto, using(crate::proofs::LiteralLaws::parts_laws))]
fn note_where(known: &mut Known, parts: &[Form], holds: bool, every: bool) -> Result<(), NoMemory>
    ensures { OnOk result (known.new ≡ with_all known.old (fixed_parts every holds parts.now)) }
{
    if holds != every {
        return Ok(());
    }
    for part in parts {
        note_fixed(known, part, every)?;
    }
    Ok(())
}
