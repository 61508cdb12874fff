//! The indices of the patterns that a certificate tracks, and the patterns.

ghost use Rattle.std.specs.Prelude.{◌≡◌, ◌<◌, ◌++◌, ◌∷◌, ℕ, List, [], AllPairs, Decides, IfOk, OnOk, length, nat_lt};
ghost use Rattle.std.specs.List.{AllByRecursion, cons_option, list_all, slice_get};
ghost use Rattle.model.specs.Certificates.{at_indices, IsZeroFirst};
ghost use Rattle.certificate.specs.Indices.{AreFewIndices, Chooses, HasFewIndices, IsPassedOver, SlicesAt, is_less_first, passes_over, rises};
ghost use Rattle.certificate.specs.Views.{form_view};

use crate::forms::Form;
use std::alloc::{AllocError, Global};
use word_automata::Tracked;

/// The largest number of patterns that are tracked.
pub const MOST_PATTERNS: usize = 64;

/// Returns whether `number` is less than the first of `rest`, if there is one.
fn is_less_first(number: u64, rest: &[u64]) -> bool
    ensures { result ≡ is_less_first number rest.now }
{
    match rest.first() {
        Some(next) => number < *next,
        None => true,
    }
}

/// Returns whether each number is less than the next.
fn rises(numbers: &[u64]) -> bool
    ensures { result ≡ rises numbers.now }
{
    for at in 0..numbers.len() {
        if !is_less_first(numbers[at], &numbers[at + 1..]) {
            return false;
        }
    }
    true
}

/// Returns whether the numbers increase strictly.
fn are_rising(numbers: &[u64]) -> bool
    ensures { Decides result (AllPairs (λ (i j : ℕ). i < j) numbers.now) }
{
    rises(numbers)
}

/// Returns whether the first number is 0.
fn is_zero_first(numbers: &[u64]) -> bool
    ensures { Decides result (IsZeroFirst numbers.now) }
{
    match numbers.first() {
        Some(first) => *first == 0,
        None => false,
    }
}

/// Returns whether there are at most 64 indices, which begin with 0 and increase strictly.
fn are_few(indices: &[u64]) -> bool
    ensures { Decides result (AreFewIndices indices.now) }
{
    indices.len() <= MOST_PATTERNS && is_zero_first(indices) && are_rising(indices)
}

/// Returns whether the indices of a form, if it has any, are at most 64, begin with 0 and increase strictly.
pub fn has_few_indices(form: &Form) -> bool
    ensures { Decides result (HasFewIndices (form_view form.now)) }
{
    match form {
        Form::Whole => true,
        Form::Sliced(indices) => are_few(indices.as_slice()),
        Form::Excepting { indices, .. } => are_few(indices.as_slice()),
    }
}

/// Returns whether this form drops states whose first number is 0.
pub fn passes_over(form: &Form) -> bool
    ensures { result ≡ passes_over (form_view form.now) }
{
    match form {
        Form::Whole => false,
        Form::Sliced(_) => true,
        Form::Excepting { .. } => true,
    }
}

/// Returns whether the state is dropped: `drops` is set, and its first number is 0.
pub fn is_passed_over(drops: bool, state: &[u64]) -> bool
    ensures { Decides result (IsPassedOver drops state.now) }
{
    drops && is_zero_first(state)
}

/// Returns whether each of `indices` is less than `count`.
fn are_below(indices: &[u64], count: usize) -> bool
    ensures { result ≡ list_all (λ i. nat_lt i count) indices.now }
{
    indices.iter().all(|index| *index < count as u64)
}

/// Returns whether each of `indices` is an index of a list of length `count`.
fn are_within(indices: &[u64], count: usize) -> bool
    ensures { Decides result (AllByRecursion (λ i. i < count) indices.now) }
{
    are_below(indices, count)
}

/// Appends a copy of the pattern at `index`, if there is one. Fails only if an allocation fails.
fn add_at(
    alloc: Global,
    found: &mut Vec<Tracked>,
    list: &[Tracked],
    index: u64,
) -> Result<(), AllocError>
    ensures { OnOk result (found.new.items ≡ found.old.items ++ cons_option (slice_get list.now index) []) }
{
    match list.get(index as usize) {
        Some(pattern) => {
            let copy = Tracked::new(alloc, pattern.kind(), pattern.text().clone()?)?;
            found.push(copy)?;
            Ok(())
        }
        None => Ok(()),
    }
}

/// Returns copies of the patterns at `indices`; an index past the end is skipped. Fails only if an allocation fails.
pub fn at_indices(
    alloc: Global,
    list: &[Tracked],
    indices: &[u64],
) -> Result<Vec<Tracked>, AllocError>
    ensures { IfOk result (λ found. found.items ≡ at_indices list.now indices.now) }
{
    let mut found = Vec::new(alloc);
    for one in indices {
        add_at(alloc, &mut found, list, *one)?;
    }
    Ok(found)
}

/// Returns copies of the patterns at `indices`, or `None` if one is past the end. Fails only if an allocation fails.
fn slice(
    alloc: Global,
    list: &[Tracked],
    indices: &[u64],
) -> Result<Option<Vec<Tracked>>, AllocError>
    requires { AreFewIndices indices.now }
    ensures { IfOk result (SlicesAt list.now indices.now) }
{
    if !are_within(indices, list.len()) {
        return Ok(None);
    }
    Ok(Some(at_indices(alloc, list, indices)?))
}

/// Returns the patterns of `list` that states of this form have numbers for, or `None` if an index is past the end.
/// Fails only if an allocation fails.
pub fn chosen(
    alloc: Global,
    form: &Form,
    list: Vec<Tracked>,
) -> Result<Option<Vec<Tracked>>, AllocError>
    requires { HasFewIndices (form_view form.now) }
    ensures { IfOk result (Chooses (form_view form.now) list.items) }
{
    match form {
        Form::Whole => Ok(Some(list)),
        Form::Sliced(indices) => slice(alloc, list.as_slice(), indices.as_slice()),
        Form::Excepting { indices, .. } => slice(alloc, list.as_slice(), indices.as_slice()),
    }
}
