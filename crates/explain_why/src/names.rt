//! The names of variables in explanations.

ghost use Rattle.std.specs.Prelude.{◌≡◌, [], ◌∷◌, ◌++◌, ◌≤◌, suc, length, map, take, replicate, bytes_eq, slice_index_or, IfOk, OnOk, string_bytes};
ghost use Rattle.ocl_base.specs.Lists.{is_among};
ghost use Rattle.ocl_core.specs.Core.{cores_of};
ghost use Rattle.ocl_core.specs.CoreView.{core_view, core_link_of, core_spine};
ghost use Rattle.ocl_semantics.specs.Evaluated.{on_null};
ghost use Rattle.explain_why.specs.Names.{variable_name, longest, number_name, next_name, name_in, bound_after, bound_after_all, past, with_next, naming_of};
ghost use Rattle.explain_why.specs.NameWalk.{naming_view, inner_view, bound_after_links, bound_after_values};

use crate::pieces::{put, put_count};
use ocl_base::OutOfMemory;
use ocl_core::{Core, CoreLink};
use std::alloc::Global;

/// The number after a number. No memory holds so many variables or levels that there is none.
pub fn next(number: usize) -> Result<usize, OutOfMemory>
    ensures { IfOk result (λ n. n ≡ suc number) }
{
    match number.checked_add(1) {
        Some(next) => Ok(next),
        None => Err(OutOfMemory),
    }
}

/// Puts a variable by its number.
pub fn put_variable(alloc: Global, out: &mut String, number: usize) -> Result<(), OutOfMemory>
    ensures { OnOk result (string_bytes out.new ≡ string_bytes out.old ++ variable_name number) }
{
    if number == 0 {
        return put(out, "self");
    }
    put(out, "x")?;
    put_count(alloc, out, number)
}

/// What is known of names where a part of a tree stands.
#[derive(Clone, Copy)]
pub(crate) struct Naming<'n, 's> {
    /// The names that the text gives to the tree's variables, in the order in which they are bound.
    given: &'n [String],
    /// How many of them are bound in what stands before the part.
    at: usize,
    /// The names of the variables that the part sees, the outermost first.
    seen: &'s [String],
}

/// The same of a part that has these names for itself, as a body.
#[derive(Drop)]
pub(crate) struct Inner<'n> {
    given: &'n [String],
    at: usize,
    seen: Vec<String>,
}

impl<'n> Inner<'n> {
    /// What is known of names there.
    pub(crate) fn naming(&self) -> Naming<'n, '_>
        ensures { naming_view result ≡ inner_view self.now }
    {
        Naming {
            given: self.given,
            at: self.at,
            seen: &self.seen,
        }
    }
}

// ---- the name of the variable that is bound next

/// Whether one of some names is this.
fn is_named(names: &[String], name: &str) -> bool
    ensures { result ≡ is_among bytes_eq (map string_bytes names.now) name.now }
{
    'names: for other in names {
        if name == other.as_str() {
            return true;
        }
    }
    false
}

/// The length of the longest name.
fn longest(names: &[String]) -> usize
    ensures { result ≡ longest (map string_bytes names.now) }
{
    match names {
        [] => 0,
        [name, rest @ ..] => name.len().max(longest(rest)),
    }
}

/// Puts so many primes.
fn put_primes(out: &mut String, count: usize) -> Result<(), OutOfMemory>
    ensures { OnOk result (string_bytes out.new ≡ string_bytes out.old ++ replicate count 39) }
{
    for _ in 0..count {
        put(out, "'")?;
    }
    Ok(())
}

/// The name of a variable by its number.
fn numbered(alloc: Global, number: usize) -> Result<String, OutOfMemory>
    ensures { IfOk result (λ name. string_bytes name ≡ variable_name number) }
{
    let mut name = String::new(alloc);
    put_variable(alloc, &mut name, number)?;
    Ok(name)
}

/// The name by its number of the variable that is bound next, which no other has.
fn number_name(alloc: Global, naming: Naming<'_, '_>) -> Result<String, OutOfMemory>
    ensures { IfOk result (λ name. string_bytes name ≡ number_name (naming_view naming.entry)
        (variable_name (length (naming_view naming.entry).seen))) }
{
    let mut name = numbered(alloc, naming.seen.len())?;
    if is_named(naming.given, &name) || is_named(naming.seen, &name) {
        put_primes(&mut name, longest(naming.seen))?;
    }
    Ok(name)
}

/// The name that the text gives to the variable that is bound next; empty, where it gives none.
fn given_name<'n>(naming: Naming<'n, '_>) -> &'n str
    ensures { result.now ≡ slice_index_or (naming_view naming.entry).given naming.entry.at [] }
{
    if naming.at < naming.given.len() {
        &naming.given[naming.at]
    } else {
        ""
    }
}

/// The name of the variable that is bound next.
#[tactic(auto, unfolding(crate::specs::Names::next_name))]
pub(crate) fn next_name(alloc: Global, naming: Naming<'_, '_>) -> Result<String, OutOfMemory>
    ensures { IfOk result (λ name. string_bytes name ≡ next_name (naming_view naming.entry)) }
{
    let given = given_name(naming);
    if given.is_empty() || is_named(naming.seen, given) {
        return number_name(alloc, naming);
    }
    copy_name(alloc, given)
}

/// A name once more.
pub fn copy_name(alloc: Global, name: &str) -> Result<String, OutOfMemory>
    ensures { IfOk result (λ copy. string_bytes copy ≡ name.now) }
{
    let mut copy = String::new(alloc);
    put(&mut copy, name)?;
    Ok(copy)
}

/// Names once more.
fn copy_names(alloc: Global, names: &[String]) -> Result<Vec<String>, OutOfMemory>
    ensures { IfOk result (λ copy. map string_bytes copy.items ≡ map string_bytes names.now) }
{
    let mut copies = Vec::new(alloc);
    'names: for name in names {
        copies.push(copy_name(alloc, name)?)?;
    }
    Ok(copies)
}

/// Puts the name of the variable of a number.
pub(crate) fn put_name(
    alloc: Global,
    out: &mut String,
    naming: Naming<'_, '_>,
    number: usize,
) -> Result<(), OutOfMemory>
    ensures { OnOk result (string_bytes out.new ≡
        string_bytes out.old ++ name_in (naming_view naming.entry) number) }
{
    if number < naming.seen.len() {
        return put(out, &naming.seen[number]);
    }
    put_variable(alloc, out, number)
}

// ---- where parts stand

/// How many variables are bound up to the end of a tree, by how many are before it.
#[cycle(bound)]
#[tactic(auto, using(ocl_core::proofs::ForAbove::views))]
fn bound_after(core: &Core, bound: usize) -> Result<usize, OutOfMemory>
    ensures { IfOk result (λ n. n ≡ bound_after (core_view core.now) bound) }
{
    match core {
        Core::Constant { .. } | Core::Variable { .. } | Core::AllInstances { .. } => Ok(bound),
        Core::Spine { first, links } => {
            let before = bound_after(first, bound)?;
            bound_after_links(links, before)
        }
        Core::Let { values, body } => {
            let before = bound_after_values(values, bound)?;
            bound_after(body, before)
        }
        Core::If {
            condition,
            then_branch,
            else_branch,
            ..
        } => {
            let before = bound_after(condition, bound)?;
            let between = bound_after(then_branch, before)?;
            bound_after(else_branch, between)
        }
    }
}

/// The same of links.
#[cycle(bound)]
fn bound_after_links(links: &[CoreLink], bound: usize) -> Result<usize, OutOfMemory>
    ensures { IfOk result (λ n. n ≡ bound_after_links links.now bound) }
{
    let mut bound = bound;
    'links: for link in links {
        bound = bound_after_link(link, bound)?;
    }
    Ok(bound)
}

/// The same of what a link has besides what stands before it.
#[cycle(bound)]
#[tactic(auto, using(ocl_core::proofs::ForAbove::views))]
fn bound_after_link(link: &CoreLink, bound: usize) -> Result<usize, OutOfMemory>
    ensures { IfOk result (λ n. n ≡ bound_after (on_null link.now) bound) }
{
    match link {
        CoreLink::Feature { .. } | CoreLink::AsCollection { .. } => Ok(bound),
        CoreLink::Operation { others, .. } => bound_after_all(others, bound),
        CoreLink::Iterate { body, .. } => bound_after(body, next(bound)?),
        CoreLink::Fold { start, body, .. } => {
            let before = bound_after(start, bound)?;
            bound_after(body, next(next(before)?)?)
        }
    }
}

/// The same of several trees.
#[cycle(bound)]
fn bound_after_all(cores: &[Core], bound: usize) -> Result<usize, OutOfMemory>
    ensures { IfOk result (λ n. n ≡ bound_after_all (cores_of (map core_view cores.now)) bound) }
{
    let mut bound = bound;
    'cores: for core in cores {
        bound = bound_after(core, bound)?;
    }
    Ok(bound)
}

/// The same of values, each with the variable that has it.
#[cycle(bound)]
fn bound_after_values(values: &[Core], bound: usize) -> Result<usize, OutOfMemory>
    ensures { IfOk result (λ n. n ≡ bound_after_values (map core_view values.now) bound) }
{
    let mut bound = bound;
    'values: for value in values {
        bound = next(bound_after(value, bound)?)?;
    }
    Ok(bound)
}

/// What is known of names behind a tree.
pub(crate) fn past<'n, 's>(
    core: &Core,
    naming: Naming<'n, 's>,
) -> Result<Naming<'n, 's>, OutOfMemory>
    ensures { IfOk result (λ n. naming_view n ≡
        past (core_view core.now) (naming_view naming.entry)) }
{
    Ok(Naming {
        given: naming.given,
        at: bound_after(core, naming.at)?,
        seen: naming.seen,
    })
}

/// What is known of names behind a link.
pub(crate) fn past_link<'n, 's>(
    link: &CoreLink,
    naming: Naming<'n, 's>,
) -> Result<Naming<'n, 's>, OutOfMemory>
    ensures { IfOk result (λ n. naming_view n ≡
        past (on_null link.now) (naming_view naming.entry)) }
{
    Ok(Naming {
        given: naming.given,
        at: bound_after_link(link, naming.at)?,
        seen: naming.seen,
    })
}

/// What is known of names behind a first operand with links.
pub(crate) fn past_spine<'n, 's>(
    first: &Core,
    links: &[CoreLink],
    naming: Naming<'n, 's>,
) -> Result<Naming<'n, 's>, OutOfMemory>
    ensures { IfOk result (λ n. naming_view n ≡ past
        (core_spine (core_view first.now) (map core_link_of links.now))
        (naming_view naming.entry)) }
{
    let before = bound_after(first, naming.at)?;
    Ok(Naming {
        given: naming.given,
        at: bound_after_links(links, before)?,
        seen: naming.seen,
    })
}

/// What is known of names in the body of what binds the next variable.
pub(crate) fn with_next<'n>(alloc: Global, naming: Naming<'n, '_>) -> Result<Inner<'n>, OutOfMemory>
    ensures { IfOk result (λ n. inner_view n ≡ with_next (naming_view naming.entry)) }
{
    let name = next_name(alloc, naming)?;
    let mut seen = copy_names(alloc, naming.seen)?;
    seen.push(name)?;
    Ok(Inner {
        given: naming.given,
        at: next(naming.at)?,
        seen,
    })
}

/// The same names once more.
pub(crate) fn copy_naming<'n>(
    alloc: Global,
    naming: Naming<'n, '_>,
) -> Result<Inner<'n>, OutOfMemory>
    ensures { IfOk result (λ n. inner_view n ≡ naming_view naming.entry) }
{
    Ok(Inner {
        given: naming.given,
        at: naming.at,
        seen: copy_names(alloc, naming.seen)?,
    })
}

/// What is known of names at a whole tree, by those that its text gives.
pub(crate) fn naming_of<'n>(alloc: Global, given: &'n [String]) -> Result<Inner<'n>, OutOfMemory>
    ensures { IfOk result (λ n. inner_view n ≡ naming_of (map string_bytes given.entry.now)) }
{
    let mut seen = Vec::new(alloc);
    seen.push(copy_name(alloc, "self")?)?;
    Ok(Inner { given, at: 0, seen })
}
