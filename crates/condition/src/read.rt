// The condition record: which bytes are one.
ghost use Rattle.std.specs.Prelude.{◌≡◌, true, false};
ghost use Rattle.names.specs.Read.{ending};
ghost use Rattle.names.specs.Fields.{◌<∘>◌, each, counted, whole};
ghost use Rattle.condition.specs.Condition.{Window, One, Two, window, span, slot, annotation, binder, operator, timepoint_of, argument_list, element_list, unary, binary, predicate_of, comparison_of, exists_of, sum_of, count_of, aggregate_of, arith_of, condition_at, term_at, condition_record};
ghost use Rattle.condition.specs.Places.{version_in};

use crate::choice::read_choice;
use crate::kind::{AggregateKind, Kind, TermKind};
use crate::values::{read_arith_op, read_i64, read_value};
use crate::window::read_window;
use names::{Class, Read, Refusal};

// Two 32-bit numbers, the ends of a span: as many bytes as a number of 64 bits.
pub fn read_span(s: &[u8], at: usize) -> Read
    ensures { result ≡ ending (span s.now at) }
{
    read_i64(s, at)
}

// A name, or a macro's parameter or binder. The byte is matched and not decoded first: an enum of
// the bare kinds would be matched a second time, to read what stands behind the byte.
pub fn read_slot(s: &[u8], at: usize) -> Read
    ensures { result ≡ ending (slot s.now at) }
{
    let Some(&kind) = s.get(at) else {
        return Err(Refusal::Cut);
    };
    match kind {
        0 => names::read_string(s, at + 1, Class::Plain),
        1 | 2 => Ok(at + 1),
        _ => Err(Refusal::UndefinedChoice),
    }
}

// A count of identifiers, 0 for a timepoint.
fn read_annotation(s: &[u8], at: usize) -> Read
    ensures { result ≡ ending (annotation s.now at) }
{
    names::read_strings(s, at, Class::Identifier)
}

pub fn read_binder(s: &[u8], at: usize) -> Read
    ensures { result ≡ ending (binder s.now at) }
{
    let n = read_slot(s, at)?;
    read_annotation(s, n)
}

// Not one function with a closure for the binders here and the arguments and elements below: its
// promise would have to tell what each call of the closure answers, and that the readers of the
// cycle which the closure calls end. The loop of three lines is plainer.
pub fn read_binders(s: &[u8], start: usize) -> Read
    ensures { result ≡ ending (counted (each binder) s.now start) }
{
    let Some(&count) = s.get(start) else {
        return Err(Refusal::Cut);
    };
    let mut at = start + 1;
    for _ in 0..count {
        at = read_binder(s, at)?;
    }
    Ok(at)
}

fn read_operator(s: &[u8], at: usize) -> Read
    ensures { result ≡ ending (operator s.now at) }
{
    read_choice(s, at, 5)
}

// A timepoint: a span and a slot.
fn read_timepoint(s: &[u8], at: usize) -> Read
    ensures { result ≡ ending (timepoint_of s.now at) }
{
    let n = read_span(s, at)?;
    read_slot(s, n)
}

// The version that a record says it has, of the bytes that there are.
pub fn version(s: &[u8]) -> usize
    ensures { result ≡ version_in s.now }
{
    names::u16_at(s, 3)
}

// The condition whose kind byte stands at `at`, read in a version, with so many levels left.
#[cycle(conditions_and_terms)]
pub fn read_subcondition(s: &[u8], at: usize, version: usize, left: usize) -> Read
    ensures { result ≡ ending (condition_at version left s.now at) }
{
    let Some(&byte) = s.get(at) else {
        return Err(Refusal::Cut);
    };
    let kind = Kind::try_from(byte)?;
    if left == 0 {
        return Err(Refusal::TooDeep);
    }
    let next = at + 1;
    match kind {
        Kind::And | Kind::Or => read_binary(s, next, 1, version, left - 1),
        Kind::Not | Kind::Refine => read_unary(s, next, 1, version, left - 1),
        Kind::Formerly | Kind::Previous => read_unary(s, next, version, version, left - 1),
        Kind::Since => read_binary(s, next, version, version, left - 1),
        Kind::Predicate => read_predicate(s, next, version, left - 1),
        Kind::Comparison => read_comparison(s, next, version, left - 1),
        Kind::Exists => read_exists(s, next, version, left - 1),
        Kind::Timepoint => read_timepoint(s, next),
        Kind::Call | Kind::SigilRef => read_span(s, next),
    }
}

// The readers below read one field after another, each at the place where the one before ended. The
// version and the levels left are two numbers, and no struct: `read_subcondition` and `read_term`
// take them as such, the levels are the measure by which the readers end, and each reader between
// the two hands both on as it got them.
//
// A span, a window and a condition: Formerly, Previous. Not and Refine, which have no window, are
// read with that of version 1, which has no bytes.
#[cycle(conditions_and_terms)]
fn read_unary(s: &[u8], at: usize, windows: usize, version: usize, left: usize) -> Read
    ensures { (k : Window → One) → result ≡ ending (unary version (condition_at version left) (term_at version left) (k <∘> window windows) s.now at) }
{
    let p = read_span(s, at)?;
    let n = read_window(s, p, windows)?;
    read_subcondition(s, n, version, left)
}

// A span, a window and two conditions: Since, and with the window of version 1 And and Or.
#[cycle(conditions_and_terms)]
fn read_binary(s: &[u8], at: usize, windows: usize, version: usize, left: usize) -> Read
    ensures { (k : Window → Two) → result ≡ ending (binary version (condition_at version left) (term_at version left) (k <∘> window windows) s.now at) }
{
    let p = read_span(s, at)?;
    let n = read_window(s, p, windows)?;
    let m = read_subcondition(s, n, version, left)?;
    read_subcondition(s, m, version, left)
}

#[cycle(conditions_and_terms)]
fn read_predicate(s: &[u8], at: usize, version: usize, left: usize) -> Read
    ensures { result ≡ ending (predicate_of version (condition_at version left) (term_at version left) s.now at) }
{
    let n = read_span(s, at)?;
    let m = read_span(s, n)?;
    let p = names::read_strings(s, m, Class::PathName)?;
    let q = names::read_string(s, p, Class::Plain)?;
    read_arguments(s, q, version, left)
}

// A count of arguments and the arguments: a name, a path and a term each.
#[cycle(conditions_and_terms)]
fn read_arguments(s: &[u8], start: usize, version: usize, left: usize) -> Read
    ensures { result ≡ ending (argument_list version (condition_at version left) (term_at version left) s.now start) }
{
    let Some(&count) = s.get(start) else {
        return Err(Refusal::Cut);
    };
    let mut at = start + 1;
    for _ in 0..count {
        let n = names::read_string(s, at, Class::Plain)?;
        let m = names::read_path(s, n)?;
        at = read_term(s, m, version, left, false)?;
    }
    Ok(at)
}

#[cycle(conditions_and_terms)]
fn read_comparison(s: &[u8], at: usize, version: usize, left: usize) -> Read
    ensures { result ≡ ending (comparison_of version (condition_at version left) (term_at version left) s.now at) }
{
    let n = read_span(s, at)?;
    let m = read_operator(s, n)?;
    let p = read_term(s, m, version, left, false)?;
    read_term(s, p, version, left, false)
}

// A span, a binder and a condition. A Sum and a Count have a slot, or binders, where the binder
// stands: one reader for them would ask at each field which of them it reads.
#[cycle(conditions_and_terms)]
fn read_exists(s: &[u8], at: usize, version: usize, left: usize) -> Read
    ensures { result ≡ ending (exists_of version (condition_at version left) (term_at version left) s.now at) }
{
    let n = read_span(s, at)?;
    let m = read_binder(s, n)?;
    read_subcondition(s, m, version, left)
}

// The term whose kind byte stands at `at`, read in a version, with so many levels left; below an
// array or not.
#[cycle(conditions_and_terms)]
pub fn read_term(s: &[u8], at: usize, version: usize, left: usize, in_array: bool) -> Read
    ensures { result ≡ ending (term_at version left in_array s.now at) }
{
    let Some(&byte) = s.get(at) else {
        return Err(Refusal::Cut);
    };
    let kind = TermKind::try_from(byte)?;
    if left == 0 {
        return Err(Refusal::TooDeep);
    }
    let next = at + 1;
    match kind {
        TermKind::Entity
        | TermKind::Integer
        | TermKind::Decimal
        | TermKind::String
        | TermKind::Bool => read_value(s, next, kind, version),
        TermKind::ContextField | TermKind::ScopeField => names::read_path(s, next),
        TermKind::Var => names::read_string(s, next, Class::Plain),
        TermKind::Array => read_elements(s, next, version, left - 1),
        TermKind::Aggregate if in_array => Err(Refusal::AggregateBelowArray),
        TermKind::Aggregate => read_aggregate(s, next, version, left - 1),
        TermKind::Arith => read_arith(s, next, version, left - 1, in_array),
        TermKind::Wildcard | TermKind::ParamRef | TermKind::BinderRef => Ok(next),
    }
}

#[cycle(conditions_and_terms)]
fn read_arith(s: &[u8], at: usize, version: usize, left: usize, in_array: bool) -> Read
    ensures { result ≡ ending (arith_of version (condition_at version left) (term_at version left) in_array s.now at) }
{
    let n = read_arith_op(s, at, version)?;
    let m = read_term(s, n, version, left, in_array)?;
    read_term(s, m, version, left, in_array)
}

// A count of an array's elements and the elements.
#[cycle(conditions_and_terms)]
fn read_elements(s: &[u8], start: usize, version: usize, left: usize) -> Read
    ensures { result ≡ ending (element_list version (condition_at version left) (term_at version left) s.now start) }
{
    let Some(&count) = s.get(start) else {
        return Err(Refusal::Cut);
    };
    let mut at = start + 1;
    for _ in 0..count {
        at = read_term(s, at, version, left, true)?;
    }
    Ok(at)
}

#[cycle(conditions_and_terms)]
fn read_aggregate(s: &[u8], at: usize, version: usize, left: usize) -> Read
    ensures { result ≡ ending (aggregate_of version (condition_at version left) (term_at version left) s.now at) }
{
    let Some(&byte) = s.get(at) else {
        return Err(Refusal::Cut);
    };
    match AggregateKind::try_from(byte)? {
        AggregateKind::Sum => read_sum(s, at + 1, version, left),
        AggregateKind::Count => read_count(s, at + 1, version, left),
        AggregateKind::Call => read_span(s, at + 1),
    }
}

#[cycle(conditions_and_terms)]
fn read_sum(s: &[u8], at: usize, version: usize, left: usize) -> Read
    ensures { result ≡ ending (sum_of version (condition_at version left) (term_at version left) s.now at) }
{
    let n = read_span(s, at)?;
    let m = read_slot(s, n)?;
    let p = read_binders(s, m)?;
    read_subcondition(s, p, version, left)
}

// A span, binders and a condition: no one reader with `read_exists`, for the reason given there.
#[cycle(conditions_and_terms)]
fn read_count(s: &[u8], at: usize, version: usize, left: usize) -> Read
    ensures { result ≡ ending (count_of version (condition_at version left) (term_at version left) s.now at) }
{
    let n = read_span(s, at)?;
    let m = read_binders(s, n)?;
    read_subcondition(s, m, version, left)
}

// The whole record.
pub fn read_condition(s: &[u8]) -> Read
    ensures { result ≡ ending (whole condition_record s.now) }
{
    let at = names::read_start(s, b"DWC", 3)?;
    let end = read_subcondition(s, at, version(s), 32)?;
    names::read_end(s, end)
}
