//! Rows of tables: what a member of an object is read as under a rule, where it may be absent, has to be there, or is a
//! list.

ghost use Rattle.std.specs.Prelude.{◌≡◌, [], ◌∷◌, ◌++◌, Result, Option, Ok, IsTrue, map, count_by, not, option_to_list, OnOk, IfOk};
ghost use Rattle.std.specs.Result.{result_map_both};
ghost use Rattle.siri_json.specs.Shown.{shown};
ghost use Rattle.siri_tables.specs.Refusals.{Gives, is_key};
ghost use Rattle.siri_tables.specs.Rules.{name, at_most, row, required_row, required_value, is_null, entry_count, entries_from, found_from, list_of, names_of, list, nonempty_list, inside, names, list_inside};

use crate::refusal::{TableError, below, below_place, refuse, refuse_at};
use crate::rules::{NameRule, Rule, RuleIn};
use siri_base::{List, Name, OutOfMemory, Reason};
use siri_json::{ObjectOf, Tree, entry_list, is_null, member, object_of};
use std::alloc::Global;

/// What the member of that name is read as under a rule: nothing where there is none, or where its value counts as
/// absent under the rule. What the rule refuses is refused below that name.
#[tactic(auto, unfolding(crate::specs::Rules::row))]
pub fn row<R: Rule>(alloc: Global, tree: &Tree<'_>, key: &str) -> Result<Option<R::Out>, TableError>
    requires { IsTrue (is_key key.now) }
    ensures { Gives result (row R.rule key.now (shown tree.now)) }
{
    match member(tree, key) {
        Some(value) => below(alloc, key, R::read(alloc, value)),
        None => Ok(None),
    }
}

/// What the member of that name is read as, which has to be there: otherwise `Missing` at that name.
#[tactic(auto, unfolding(crate::specs::Rules::required_row))]
pub fn required_row<R: Rule>(
    alloc: Global,
    tree: &Tree<'_>,
    key: &str,
) -> Result<R::Out, TableError>
    requires { IsTrue (is_key key.now) }
    ensures { Gives result (required_row R.rule key.now (shown tree.now)) }
{
    match row::<R>(alloc, tree, key) {
        Ok(Some(found)) => Ok(found),
        Ok(None) => refuse_at(alloc, key, Reason::Missing),
        Err(error) => Err(error),
    }
}

/// What a value is read as that must not count as absent: otherwise `Missing`.
#[tactic(auto, unfolding(crate::specs::Rules::required_value))]
pub fn required_value<R: Rule>(alloc: Global, value: &Tree<'_>) -> Result<R::Out, TableError>
    ensures { Gives result (required_value R.rule (shown value.now)) }
{
    match R::read(alloc, value) {
        Ok(Some(found)) => Ok(found),
        Ok(None) => refuse(alloc, Reason::Missing),
        Err(error) => Err(error),
    }
}

/// What the member of that name is read as in the object that a value stands for: nothing where the value counts as
/// absent, `WrongKind` where it is no object.
#[tactic(auto, unfolding(crate::specs::Rules::inside))]
pub fn inside<R: Rule>(
    alloc: Global,
    value: &Tree<'_>,
    key: &str,
) -> Result<Option<R::Out>, TableError>
    requires { IsTrue (is_key key.now) }
    ensures { Gives result (inside R.rule key.now (shown value.now)) }
{
    match object_of(value) {
        ObjectOf::Is(tree) => row::<R>(alloc, tree, key),
        ObjectOf::Absent => Ok(None),
        ObjectOf::Wrong => refuse(alloc, Reason::WrongKind),
    }
}

/// [`inside`], of the member `outer` of an object.
#[tactic(auto, unfolding(crate::specs::Rules::row))]
pub fn row_inside<R: Rule>(
    alloc: Global,
    tree: &Tree<'_>,
    outer: &str,
    key: &str,
) -> Result<Option<R::Out>, TableError>
    requires outer { IsTrue (is_key outer.now) }
    requires key { IsTrue (is_key key.now) }
    ensures { Gives result (row (inside R.rule key.now) outer.now (shown tree.now)) }
{
    match member(tree, outer) {
        Some(value) => below(alloc, outer, inside::<R>(alloc, value, key)),
        None => Ok(None),
    }
}

/// How many entries of a value aren't null.
pub fn entry_count(value: &Tree<'_>) -> usize
    ensures { result ≡ entry_count (shown value.now) }
{
    count_in(entry_list(value))
}

/// How many of these values aren't null.
fn count_in(values: &[Tree<'_>]) -> usize
    ensures { result ≡ count_by (λ e. not (is_null e)) (map shown values.now) }
{
    values.iter().filter(|entry| !is_null(entry)).count()
}

/// Puts what a value is read as, which must not count as absent, behind others: otherwise `Missing`. So a record goes
/// from its table into the list, and through no other result.
#[tactic(auto, unfolding(crate::specs::Rules::required_value))]
fn push_required<R: RuleIn>(
    alloc: Global,
    with: &R::With,
    value: &Tree<'_>,
    found: &mut Vec<R::Out>,
) -> Result<(), TableError>
    ensures read { Gives result (result_map_both (λ _. tt) (λ refusal. refusal) (required_value (R.rule_in with.now) (shown value.now))) }
    ensures pushed { OnOk result (IfOk (required_value (R.rule_in with.now) (shown value.now)) (λ entry. found.new.items ≡ found.old.items ++ entry ∷ [])) }
{
    found.reserve(1)?;
    match R::read_in(alloc, with, value) {
        Ok(Some(entry)) => {
            found.push_reserved(entry);
            Ok(())
        }
        Ok(None) => refuse(alloc, Reason::Missing),
        Err(error) => Err(error),
    }
}

/// The values under a rule, refused at their places: null is passed over, any other absent one is `Missing`.
fn entries_from<R: RuleIn>(
    alloc: Global,
    with: &R::With,
    values: &[Tree<'_>],
) -> Result<List<R::Out>, TableError>
    ensures { Gives result (entries_from (R.rule_in with.now) 0 (map shown values.now)) }
{
    let mut found = Vec::new(alloc);
    for (place, value) in values.iter().enumerate() {
        if !is_null(value) {
            below_place(place, push_required::<R>(alloc, with, value, &mut found))?;
        }
    }
    Ok(List::of(found))
}

/// The entries of a value, each under a rule: those that are null are passed over, any other that counts as absent is
/// `Missing` at its place. A value that is no list is its own only entry.
#[tactic(auto, unfolding(crate::specs::Rules::list_of))]
pub fn list_of<R: Rule>(alloc: Global, value: &Tree<'_>) -> Result<List<R::Out>, TableError>
    ensures { Gives result (list_of R.rule (shown value.now)) }
{
    entries_from::<R>(alloc, &(), entry_list(value))
}

/// [`list_of`] under a rule that needs `with`; `TooMany`, before any is read, above `most` that aren't null.
#[tactic(auto, unfolding(crate::specs::Rules::list_of))]
fn few_of<R: RuleIn>(
    alloc: Global,
    with: &R::With,
    value: &Tree<'_>,
    most: usize,
) -> Result<List<R::Out>, TableError>
    ensures { Gives result (at_most most (list_of (R.rule_in with.now)) (shown value.now)) }
{
    if entry_count(value) > most {
        return refuse(alloc, Reason::TooMany);
    }
    entries_from::<R>(alloc, with, entry_list(value))
}

/// The entries of the member of that name under a rule, as [`list_of`] reads them, and none where it is absent.
/// `TooMany` at that name where more than `most` entries aren't null, before any is read.
pub fn list<R: Rule>(
    alloc: Global,
    tree: &Tree<'_>,
    key: &str,
    most: usize,
) -> Result<List<R::Out>, TableError>
    requires { IsTrue (is_key key.now) }
    ensures { Gives result (list R.rule most key.now (shown tree.now)) }
{
    list_in::<R>(alloc, tree, key, most, &())
}

/// The same, under a rule that needs this to be known.
#[tactic(auto, unfolding(crate::specs::Rules::list))]
pub fn list_in<R: RuleIn>(
    alloc: Global,
    tree: &Tree<'_>,
    key: &str,
    most: usize,
    with: &R::With,
) -> Result<List<R::Out>, TableError>
    requires { IsTrue (is_key key.now) }
    ensures { Gives result (list (R.rule_in with.now) most key.now (shown tree.now)) }
{
    match member(tree, key) {
        Some(value) => below(alloc, key, few_of::<R>(alloc, with, value, most)),
        None => Ok(List::new(alloc)),
    }
}

/// [`list`], of which there has to be an entry: otherwise `Missing` at that name.
#[tactic(auto, unfolding(crate::specs::Rules::nonempty_list))]
pub fn nonempty_list<R: Rule>(
    alloc: Global,
    tree: &Tree<'_>,
    key: &str,
    most: usize,
) -> Result<List<R::Out>, TableError>
    requires { IsTrue (is_key key.now) }
    ensures { Gives result (nonempty_list R.rule most key.now (shown tree.now)) }
{
    let found = list::<R>(alloc, tree, key, most)?;
    if found.len() == 0 {
        return refuse_at(alloc, key, Reason::Missing);
    }
    Ok(found)
}

/// Puts a name at the end where there is one.
fn push_some(found: &mut Vec<Name>, value: Option<Name>) -> Result<(), OutOfMemory>
    ensures { OnOk result (found.new.items ≡ found.old.items ++ option_to_list value) }
{
    if let Some(value) = value {
        found.push(value)?;
    }
    Ok(())
}

/// The names that values have at `inner`, refused at their places; null and values without one are passed over.
fn names_from(alloc: Global, values: &[Tree<'_>], inner: &str) -> Result<List<Name>, TableError>
    requires { IsTrue (is_key inner.now) }
    ensures { Gives result (found_from (inside name inner.now) 0 (map shown values.now)) }
{
    let mut found = Vec::new(alloc);
    for (place, value) in values.iter().enumerate() {
        if !is_null(value) {
            push_some(
                &mut found,
                below_place(place, inside::<NameRule>(alloc, value, inner))?,
            )?;
        }
    }
    Ok(List::of(found))
}

/// The names that the entries of a value have at a name; entries without one are passed over.
#[tactic(auto, unfolding(crate::specs::Rules::names_of))]
pub fn names_of(alloc: Global, value: &Tree<'_>, inner: &str) -> Result<List<Name>, TableError>
    requires { IsTrue (is_key inner.now) }
    ensures { Gives result (names_of inner.now (shown value.now)) }
{
    names_from(alloc, entry_list(value), inner)
}

/// [`names_of`]; `TooMany`, before any is read, where more than `most` entries aren't null.
fn few_names(
    alloc: Global,
    value: &Tree<'_>,
    inner: &str,
    most: usize,
) -> Result<List<Name>, TableError>
    requires { IsTrue (is_key inner.now) }
    ensures { Gives result (at_most most (names_of inner.now) (shown value.now)) }
{
    if entry_count(value) > most {
        return refuse(alloc, Reason::TooMany);
    }
    names_of(alloc, value, inner)
}

/// The names that the entries of the member `key` have at `inner`; entries without one are passed over. `TooMany` at
/// `key` where more than `most` entries aren't null, before any is read.
#[tactic(auto, unfolding(crate::specs::Rules::names))]
pub fn names(
    alloc: Global,
    tree: &Tree<'_>,
    key: &str,
    inner: &str,
    most: usize,
) -> Result<List<Name>, TableError>
    requires key { IsTrue (is_key key.now) }
    requires inner { IsTrue (is_key inner.now) }
    ensures { Gives result (names inner.now most key.now (shown tree.now)) }
{
    match member(tree, key) {
        Some(value) => below(alloc, key, few_names(alloc, value, inner, most)),
        None => Ok(List::new(alloc)),
    }
}

/// [`list`] of the member `key` of the object at `outer`: no entries where that counts as absent, `WrongKind` at
/// `outer` where it is no object.
#[tactic(auto, unfolding(crate::specs::Rules::list_inside))]
pub fn list_inside<R: Rule>(
    alloc: Global,
    tree: &Tree<'_>,
    outer: &str,
    key: &str,
    most: usize,
) -> Result<List<R::Out>, TableError>
    requires outer { IsTrue (is_key outer.now) }
    requires key { IsTrue (is_key key.now) }
    ensures { Gives result (list_inside outer.now (list R.rule most key.now) (shown tree.now)) }
{
    let Some(value) = member(tree, outer) else {
        return Ok(List::new(alloc));
    };
    match object_of(value) {
        ObjectOf::Is(inner) => below(alloc, outer, list::<R>(alloc, inner, key, most)),
        ObjectOf::Absent => Ok(List::new(alloc)),
        ObjectOf::Wrong => refuse_at(alloc, outer, Reason::WrongKind),
    }
}

/// [`names`] of the member `key` of the object at `outer`: none where that counts as absent, `WrongKind` at `outer`
/// where it is no object.
#[tactic(auto, unfolding(crate::specs::Rules::list_inside))]
pub fn names_inside(
    alloc: Global,
    tree: &Tree<'_>,
    outer: &str,
    key: &str,
    inner: &str,
    most: usize,
) -> Result<List<Name>, TableError>
    requires outer { IsTrue (is_key outer.now) }
    requires key { IsTrue (is_key key.now) }
    requires inner { IsTrue (is_key inner.now) }
    ensures { Gives result (list_inside outer.now (names inner.now most key.now) (shown tree.now)) }
{
    let Some(value) = member(tree, outer) else {
        return Ok(List::new(alloc));
    };
    match object_of(value) {
        ObjectOf::Is(object) => below(alloc, outer, names(alloc, object, key, inner, most)),
        ObjectOf::Absent => Ok(List::new(alloc)),
        ObjectOf::Wrong => refuse_at(alloc, outer, Reason::WrongKind),
    }
}
