//! Events and heads of patterns written as text: a word and the numbers behind it.
use super::driver::Told;
use sno_match::{DirectWay, Event, Pending};
use sno_pattern::Shape;
use sno_value::{Name, Prim, SymId};
use std::alloc::{AllocError, Global};

/// A word and at most three numbers.
#[derive(Clone, Copy, Drop)]
struct Facts {
    word: &'static str,
    first: Option<usize>,
    second: Option<usize>,
    third: Option<usize>,
}

/// The events of a match, as `way 0 2 at 7 with 1 0 1 with 2 0 2;`: `at` has the steps and `with` each assignment of
/// the pending list of the last way.
pub fn drawn_events(alloc: Global, told: &[Told]) -> Result<String, AllocError> {
    let mut text = String::new(alloc);
    for one in told {
        push_facts(alloc, &mut text, facts_of_event(one.event))?;
        push_facts(
            alloc,
            &mut text,
            facts_with("at", Some(one.steps as usize), None, None),
        )?;
        push_pending(alloc, &mut text, &one.pending)?;
        text.push_str(";")?;
    }
    Ok(text)
}

/// One event, and numbers behind it.
pub fn drawn_with(alloc: Global, event: Event, facts: &[usize]) -> Result<String, AllocError> {
    let mut text = String::new(alloc);
    push_facts(alloc, &mut text, facts_of_event(event))?;
    for fact in facts {
        push_number(alloc, &mut text, Some(*fact))?;
    }
    Ok(text)
}

/// The head of a pattern, as `ARBNO 0` or `. 0 7`.
pub fn push_head(alloc: Global, text: &mut String, shape: Shape) -> Result<(), AllocError> {
    push_facts(alloc, text, facts_of_shape(shape))
}

/// A way that was found directly, and the assignments that wait.
pub fn drawn_way(alloc: Global, way: &DirectWay) -> Result<String, AllocError> {
    let mut text = String::new(alloc);
    let facts = facts_with("way", Some(way.start), Some(way.end), None);
    push_facts(alloc, &mut text, facts)?;
    push_pending(alloc, &mut text, way.pending())?;
    Ok(text)
}

fn push_pending(alloc: Global, text: &mut String, pending: &[Pending]) -> Result<(), AllocError> {
    for pending in pending {
        let target = Some(number_of(pending.target));
        let facts = facts_with("with", target, Some(pending.start), Some(pending.end));
        push_facts(alloc, text, facts)?;
    }
    Ok(())
}

fn push_facts(alloc: Global, text: &mut String, facts: Facts) -> Result<(), AllocError> {
    if !text.is_empty() {
        text.push_str(" ")?;
    }
    text.push_str(facts.word)?;
    push_number(alloc, text, facts.first)?;
    push_number(alloc, text, facts.second)?;
    push_number(alloc, text, facts.third)
}

/// Adds a blank and a number, if there is one.
pub fn push_number(
    alloc: Global,
    text: &mut String,
    number: Option<usize>,
) -> Result<(), AllocError> {
    if let Some(number) = number {
        let digits = format!(in alloc; " {number}")?;
        text.push_str(digits.as_str())?;
    }
    Ok(())
}

fn facts_with(
    word: &'static str,
    first: Option<usize>,
    second: Option<usize>,
    third: Option<usize>,
) -> Facts {
    Facts {
        word,
        first,
        second,
        third,
    }
}

fn facts_of_event(event: Event) -> Facts {
    match event {
        Event::Way { start, end } => facts_with("way", Some(start), Some(end), None),
        Event::Assign { target, start, end } => {
            facts_with("assign", Some(number_of(target)), Some(start), Some(end))
        }
        Event::Cursor { target, at } => facts_with(
            "cursor",
            Some(number_of(target)),
            Some(at),
            None,
        ),
        Event::Value { expr, .. } => facts_with("value", Some(expr.0 as usize), None, None),
        Event::Exhausted => facts_with("exhausted", None, None, None),
        Event::Aborted => facts_with("aborted", None, None, None),
        Event::Limit => facts_with("limit", None, None, None),
    }
}

fn facts_of_shape(shape: Shape) -> Facts {
    match shape {
        Shape::Primitive => facts_with("primitive", None, None, None),
        Shape::Fence => facts_with("FENCE", None, None, None),
        Shape::Cut(p) => facts_with("CUT", Some(p.0 as usize), None, None),
        Shape::Abort => facts_with("ABORT", None, None, None),
        Shape::Succeed => facts_with("SUCCEED", None, None, None),
        Shape::Arbno(p) => facts_with("ARBNO", Some(p.0 as usize), None, None),
        Shape::Alt(p, q) => facts_with("|", Some(p.0 as usize), Some(q.0 as usize), None),
        Shape::Cat(p, q) => facts_with("&", Some(p.0 as usize), Some(q.0 as usize), None),
        Shape::Cond(p, target) => facts_with(
            ".",
            Some(p.0 as usize),
            Some(number_of(target)),
            None,
        ),
        Shape::Imm(p, target) => facts_with("$", Some(p.0 as usize), Some(number_of(target)), None),
        Shape::Cursor(target) => facts_with("@", Some(number_of(target)), None, None),
        Shape::Defer(expr) => facts_with("*", Some(expr.0 as usize), None, None),
        Shape::DeferPrim(Prim::Span, expr) => facts_with(
            "*SPAN",
            Some(expr.0 as usize),
            None,
            None,
        ),
        Shape::DeferPrim(_, expr) => facts_with("*another", Some(expr.0 as usize), None, None),
    }
}

/// The number of a variable. Another name has the number 999.
fn number_of(name: Name) -> usize {
    match name {
        Name::Var(SymId(number)) => number as usize,
        _ => 999,
    }
}
