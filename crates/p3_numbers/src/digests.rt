//! The keys of tables whose names are known before the table is filled.

ghost use Rattle.std.specs.Prelude.{◌≡◌, [], ◌++◌, flat_map, map};
ghost use Rattle.std.specs.Hash.DefaultHasher as sip;
ghost use Rattle.p3_task.specs.Offences.{kind_names};
ghost use Rattle.p3_task.specs.States.{meaning, meanings};
ghost use Rattle.p3_task.specs.Types.{declared_objects, names_of};
ghost use Rattle.p3_numbers.specs.Keys.{parameter_types, start_of, told_all, told_more, value_words};

use crate::{Digest, Key};
use p3_base::Name;
use p3_task::{Header, Init, Kind, Ref, Task, Term, Typed};

/// A type and its parent are told.
fn tell_kind(digest: &mut Digest, kind: &Kind)
    ensures { digest.new.told ≡ told_all digest.old.told (kind_names kind.now) }
{
    digest.tell(kind.name.name.bytes());
    if let Some(parent) = &kind.parent {
        digest.tell(parent.name.bytes());
    }
}

/// A digest of types and their parents.
pub fn kind_digest(kinds: &[Kind]) -> Digest
    ensures { result.told ≡ told_all sip.initial (flat_map kind_names kinds.now) }
{
    let mut digest = Digest::new();
    for kind in kinds {
        tell_kind(&mut digest, kind);
    }
    digest
}

/// The key of the names of a task's constants and objects.
pub fn object_key(task: &Task) -> Key
    ensures { result.start
        ≡ start_of (map (λ item. item.name.name) (declared_objects task.now)) }
{
    let mut digest = Digest::new();
    digest.tell_declared(task.domain.constants.items());
    digest.tell_declared(task.problem.objects.items());
    digest.key()
}

/// The key of names.
pub fn name_key(names: &[&Name]) -> Key
    ensures { result.start ≡ start_of (map (λ name. name.now) names.now) }
{
    let mut digest = Digest::new();
    for name in names {
        digest.tell(name.bytes());
    }
    digest.key()
}

/// The key of listed names.
pub fn listed_key(names: &[Name]) -> Key
    ensures { result.start ≡ start_of names.now }
{
    let mut digest = Digest::new();
    for name in names {
        digest.tell(name.bytes());
    }
    digest.key()
}

/// The key of the names of what is declared.
pub fn item_key(items: &[&Typed]) -> Key
    ensures { result.start ≡ start_of (map (λ item. item.now.name.name) items.now) }
{
    let mut digest = Digest::new();
    for item in items {
        digest.tell(item.name.name.bytes());
    }
    digest.key()
}

/// The key of lists of types.
pub fn list_key(lists: &[&[Ref]]) -> Key
    ensures { result.start ≡ start_of (flat_map (λ types. names_of types.now) lists.now) }
{
    let mut digest = Digest::new();
    for types in lists {
        digest.tell_types(*types);
    }
    digest.key()
}

/// The types of parameters are told.
fn tell_parameters(digest: &mut Digest, parameters: &[Typed])
    ensures { digest.new.told ≡ told_all digest.old.told (parameter_types parameters.now) }
{
    for parameter in parameters {
        digest.tell_types(parameter.types.items());
    }
}

/// The types of the parameters of headers are told.
fn tell_headers(digest: &mut Digest, headers: &[Header])
    ensures { digest.new.told ≡ told_all digest.old.told
        (flat_map (λ header. parameter_types header.params) headers.now) }
{
    for header in headers {
        tell_parameters(digest, header.params.items());
    }
}

/// The key of the lists of types of the parameters of predicates and functions.
pub fn parameter_key(task: &Task) -> Key
    ensures { result.start ≡ start_of
        (flat_map (λ header. parameter_types header.params) task.now.domain.predicates
        ++ flat_map (λ header. parameter_types header.params) task.now.domain.functions) }
{
    let mut digest = Digest::new();
    tell_headers(&mut digest, task.domain.predicates.items());
    tell_headers(&mut digest, task.domain.functions.items());
    digest.key()
}

/// What a term of the initial state means is told.
fn tell_term(digest: &mut Digest, term: &Term)
    ensures { digest.new.told ≡ told_more digest.old.told (meaning [] term.now) }
{
    match term {
        Term::Var(variable) => digest.tell(variable.name.bytes()),
        Term::Const(object) => digest.tell(object.name.bytes()),
    }
}

/// What terms of the initial state mean is told.
fn tell_terms(digest: &mut Digest, terms: &[Term])
    ensures { digest.new.told ≡ told_all digest.old.told (meanings [] terms.now) }
{
    for term in terms {
        tell_term(digest, term);
    }
}

/// The function and its objects are told, where an entry gives them a value.
fn tell_value(digest: &mut Digest, entry: &Init)
    ensures { digest.new.told ≡ told_all digest.old.told (value_words entry.now) }
{
    match entry {
        Init::True { .. } => {}
        Init::False { .. } => {}
        Init::Value { function, args, .. } => {
            digest.tell(function.name.bytes());
            tell_terms(digest, args.items());
        }
    }
}

/// The key of the functions with their objects that are given values.
pub fn value_key(entries: &[Init]) -> Key
    ensures { result.start ≡ start_of (flat_map value_words entries.now) }
{
    let mut digest = Digest::new();
    for entry in entries {
        tell_value(&mut digest, entry);
    }
    digest.key()
}
