//! What the reader is asked: the trees of a text or the sizes of its tables, or how it is refused.
use super::drawing::Drawing;
use super::rows::Question;
use sno_text::{Program, ReadError, read_expression, read_program};
use sno_value::ExprId;
use std::alloc::Global;
use std::test::Fail;

/// The tree of an expression. No statement is written behind it, since its program has none.
#[derive(Drop)]
pub struct Expressions;

impl Question for Expressions {
    fn answer(alloc: Global, text: &[u8]) -> Result<String, Fail> {
        match read_expression(alloc, text) {
            Ok((program, root)) => drawn_expression(alloc, &program, root),
            Err(error) => refusal(alloc, error),
        }
    }
}

fn drawn_expression(alloc: Global, program: &Program, root: ExprId) -> Result<String, Fail> {
    let mut drawing = Drawing::new(alloc);
    drawing.write_tree(alloc, program, root)?;
    drawing.write_program(alloc, program)?;
    Ok(drawing.text)
}

/// The statements of a program.
#[derive(Drop)]
pub struct Programs;

impl Question for Programs {
    fn answer(alloc: Global, text: &[u8]) -> Result<String, Fail> {
        match read_program(alloc, text) {
            Ok(program) => drawn_program(alloc, &program),
            Err(error) => refusal(alloc, error),
        }
    }
}

fn drawn_program(alloc: Global, program: &Program) -> Result<String, Fail> {
    let mut drawing = Drawing::new(alloc);
    drawing.write_program(alloc, program)?;
    Ok(drawing.text)
}

/// How many statements and nodes the program of an expression has.
#[derive(Drop)]
pub struct Nodes;

impl Question for Nodes {
    fn answer(alloc: Global, text: &[u8]) -> Result<String, Fail> {
        match read_expression(alloc, text) {
            Ok((program, _)) => size_of_tables(alloc, &program),
            Err(error) => refusal(alloc, error),
        }
    }
}

/// How many statements and nodes a program has.
#[derive(Drop)]
pub struct Sizes;

impl Question for Sizes {
    fn answer(alloc: Global, text: &[u8]) -> Result<String, Fail> {
        match read_program(alloc, text) {
            Ok(program) => size_of_tables(alloc, &program),
            Err(error) => refusal(alloc, error),
        }
    }
}

/// The last statement is END, whose number is that of the statements.
fn size_of_tables(alloc: Global, program: &Program) -> Result<String, Fail> {
    let statements = program.label(b"END").unwrap_or(0);
    let nodes = program.nodes();
    Ok(format!(in alloc; "{statements} statements, {nodes} nodes")?)
}

fn refusal(alloc: Global, error: ReadError) -> Result<String, Fail> {
    Ok(format!(in alloc; "{error}")?)
}
