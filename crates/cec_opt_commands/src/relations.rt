// The words right after a command that give relations of the inputs of a text.

ghost use Rattle.std.specs.Prelude.{◌≡◌, ◌∷◌, ◌<◌, [], None, length, map, option_map, IfOk, IfSome};
ghost use Rattle.std.specs.List.{list_all};
ghost use Rattle.std.specs.String.{string_bytes};
ghost use Rattle.cec_opt_texts.specs.Related.{named_relation, names_between_commas};
ghost use Rattle.cec_opt_commands.specs.Relations.{
  all_given,
  given_by,
  implication_of,
  is_nonempty,
  is_relation,
  never_of,
  relation_by,
  rest_by,
};

use base_types::NoMemory;
use cec_opt_texts::GivenRelation;
use std::alloc::Global;

/// The relations that words begin with.
pub(crate) fn given_by(alloc: Global, words: &[String]) -> Result<Vec<GivenRelation<'_>>, NoMemory>
    ensures { IfOk result (λ list. map named_relation list.items ≡ given_by (map string_bytes words.now)) }
{
    let mut list = Vec::new(alloc);
    let mut rest = words;
    while let Some((relation, more)) = first_relation(rest) {
        list.push(relation)?;
        rest = more;
    }
    Ok(list)
}

/// The words after the relations. It takes no memory.
pub(crate) fn rest_by(words: &[String]) -> &[String]
    ensures { map string_bytes result.now ≡ rest_by (map string_bytes words.now) }
{
    let mut rest = words;
    while let Some((_, more)) = first_relation(rest) {
        rest = more;
    }
    rest
}

/// The relation that words begin with, and the words after it.
pub(crate) fn first_relation(words: &[String]) -> Option<(GivenRelation<'_>, &[String])>
    ensures none { result ≡ None → given_by (map string_bytes words.now) ≡ [] }
    ensures all { result ≡ None → rest_by (map string_bytes words.now) ≡ map string_bytes words.now }
    ensures some { IfSome result (λ found. given_by (map string_bytes words.now)
        ≡ named_relation found.0 ∷ given_by (map string_bytes found.1.now)) }
    ensures rest { IfSome result
        (λ found. rest_by (map string_bytes words.now) ≡ rest_by (map string_bytes found.1.now)) }
    ensures shorter { IfSome result (λ found. length found.1.now < length words.now) }
{
    let (key, rest) = words.split_first()?;
    let (value, more) = rest.split_first()?;
    let relation = relation_by(key.as_bytes(), value)?;
    Some((relation, more))
}

// The relation of two words.
fn relation_by<'a>(key: &[u8], value: &'a str) -> Option<GivenRelation<'a>>
    ensures { option_map named_relation result ≡ relation_by key.now value.now }
{
    if key == b"--never".as_slice() {
        never_of(value)
    } else if key == b"--implies".as_slice() {
        implication_of(value)
    } else {
        None
    }
}

// At most one of two names or more.
fn never_of(names: &str) -> Option<GivenRelation<'_>>
    ensures { option_map named_relation result ≡ never_of (names_between_commas names.now) }
{
    match names.split_once(',') {
        None => None,
        Some(_) => exclusion(names),
    }
}

// The same of names with a comma between two of them.
fn exclusion(names: &str) -> Option<GivenRelation<'_>>
    ensures { option_map named_relation result ≡ all_given (names_between_commas names.now) }
{
    if are_given(names) {
        Some(GivenRelation::Never(names.as_bytes()))
    } else {
        None
    }
}

// Whether no name is empty.
fn are_given(names: &str) -> bool
    ensures { result ≡ list_all is_nonempty (names_between_commas names.now) }
{
    names.split(',').all(|name| !name.is_empty())
}

// Of two names the second one whenever the first one.
fn implication_of(names: &str) -> Option<GivenRelation<'_>>
    ensures { option_map named_relation result ≡ implication_of (names_between_commas names.now) }
{
    match names.split_once(',') {
        None => None,
        Some((a, b)) => second_name(a, b),
    }
}

// The same of a name and what comes after its comma.
fn second_name<'a>(a: &'a str, b: &'a str) -> Option<GivenRelation<'a>>
    ensures { option_map named_relation result ≡ implication_of (a.now ∷ names_between_commas b.now) }
{
    match b.split_once(',') {
        None => implication(a, b),
        Some(_) => None,
    }
}

// The same of two names.
fn implication<'a>(a: &'a str, b: &'a str) -> Option<GivenRelation<'a>>
    ensures { option_map named_relation result ≡ implication_of (a.now ∷ b.now ∷ []) }
{
    if a.is_empty() || b.is_empty() {
        None
    } else {
        Some(GivenRelation::Implies(a.as_bytes(), b.as_bytes()))
    }
}

/// Whether a word begins a relation.
pub(crate) fn is_relation(word: &[u8]) -> bool
    ensures { result ≡ is_relation word.now }
{
    word == b"--never".as_slice() || word == b"--implies".as_slice()
}
