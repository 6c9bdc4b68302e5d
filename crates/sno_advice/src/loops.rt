//! Loops of a program: a statement is in one where it stands between a label and a later statement that goes to it, or
//! is one of the two.
use crate::survey::{count_statements, label_of, targets_of};
use sno_text::{Program, Target};
use std::alloc::{AllocError, Global};

/// Which statements are in loops.
#[derive(Drop)]
pub struct Loops {
    /// The last statement of a loop that begins at each statement, by their numbers; 0 where none does.
    ends: Vec<u32>,
    /// The greatest of the ends up to each statement.
    reach: Vec<u32>,
}

impl Loops {
    /// Whether a statement is in a loop.
    pub fn contains(&self, number: u32) -> bool {
        match self.reach.get(number as usize) {
            Some(reach) => number <= *reach,
            None => false,
        }
    }

    /// The last statement of the loop that begins at a statement; 0 where none does.
    pub fn end(&self, number: u32) -> u32 {
        match self.ends.get(number as usize) {
            Some(end) => *end,
            None => 0,
        }
    }
}

/// The loops of a program.
pub fn find_loops(alloc: Global, text: &[u8], program: &Program) -> Result<Loops, AllocError> {
    let count = count_statements(program);
    let mut ends = vec![in alloc; 0; count as usize + 1]?;
    for number in 1..count.saturating_add(1) {
        if let Some(statement) = program.statement(number) {
            let (first, second) = targets_of(statement.jump);
            set_end(text, program, &mut ends, number, first);
            set_end(text, program, &mut ends, number, second);
        }
    }
    let reach = reach_of(alloc, ends.as_slice())?;
    Ok(Loops { ends, reach })
}

/// The greatest of the numbers up to each.
fn reach_of(alloc: Global, ends: &[u32]) -> Result<Vec<u32>, AllocError> {
    let mut reach = Vec::new(alloc);
    let mut most = 0;
    for end in ends {
        most = most.max(*end);
        reach.push(most)?;
    }
    Ok(reach)
}

/// Sets the end of the loop that a target closes, if it leads back.
fn set_end(
    text: &[u8],
    program: &Program,
    ends: &mut Vec<u32>,
    number: u32,
    target: Option<Target>,
) {
    let Some(label) = label_of(text, target) else {
        return;
    };
    let Some(begin) = program.label(label) else {
        return;
    };
    let at = begin as usize;
    if begin <= number && at < ends.len() {
        ends[at] = number;
    }
}
