//! Trees written as text, with all brackets: `X (Y | -1)` as `(cat X (| Y (- 1)))`.
ghost use Rattle.std.specs.Prelude.{◌<◌, length};
ghost use Rattle.sno_text.specs.Program.{IsCoreOf, IsOptionWithin, IsTargetOf, IsJumpOf};

use sno_text::{Core, Jump, Node, Operator, Program, Span, Target, UnaryOperator};
use sno_value::ExprId;
use std::alloc::{AllocError, Global};
use std::str::from_utf8;

/// What is still to be written of a tree.
#[derive(Clone, Copy)]
enum Task {
    Operand(ExprId),
    Close,
}

/// Trees as text, and how many nodes they have together.
#[derive(Drop)]
pub struct Drawing {
    pub text: String,
    nodes: u32,
    tasks: Vec<Task>,
}

fn unary_sign(operator: UnaryOperator) -> &'static str {
    match operator {
        UnaryOperator::Plus => "(+",
        UnaryOperator::Minus => "(-",
        UnaryOperator::Indirect => "($",
        UnaryOperator::NameOf => "(.",
        UnaryOperator::Defer => "(*",
        UnaryOperator::Cursor => "(@",
        UnaryOperator::Query => "(?",
        UnaryOperator::Not => "(~",
    }
}

fn sign(operator: Operator) -> &'static str {
    match operator {
        Operator::Alternate => "(|",
        Operator::Concatenate => "(cat",
        Operator::Add => "(+",
        Operator::Subtract => "(-",
        Operator::Divide => "(/",
        Operator::Multiply => "(*",
        Operator::Power => "(**",
        Operator::Conditional => "(.",
        Operator::Immediate => "($",
    }
}

impl Drawing {
    pub fn new(alloc: Global) -> Drawing {
        Drawing {
            text: String::new(alloc),
            nodes: 0,
            tasks: Vec::new(alloc),
        }
    }

    fn write(&mut self, text: &str) -> Result<(), AllocError> {
        self.text.push_str(text)?;
        Ok(())
    }

    fn write_bytes(&mut self, bytes: &[u8]) -> Result<(), AllocError> {
        self.text.push_str(from_utf8(bytes).unwrap_or("?"))?;
        Ok(())
    }

    fn plan(&mut self, operands: &[ExprId]) -> Result<(), AllocError> {
        self.tasks.push(Task::Close)?;
        for id in operands.iter().rev() {
            self.tasks.push(Task::Operand(*id))?;
        }
        Ok(())
    }

    /// Writes what stands before the operands of a node, and plans them.
    fn begin_node(
        &mut self,
        alloc: Global,
        program: &Program,
        id: ExprId,
    ) -> Result<(), AllocError> {
        if id.0 >= program.nodes() {
            self.write("?")?;
            return Ok(());
        }
        self.nodes = self.nodes.saturating_add(1);
        match program.node(id) {
            Node::Variable(name) => self.write_leaf("", program.text(*name), ""),
            Node::Integer(value) => self.write_integer(alloc, *value),
            Node::Literal(text) => self.write_leaf("'", program.text(*text), "'"),
            Node::Keyword(name) => self.write_leaf("&", program.text(*name), ""),
            Node::Unary(operator, operand) => {
                self.begin_operands(unary_sign(*operator), b"", &[*operand])
            }
            Node::Binary(operator, left, right) => {
                self.begin_operands(sign(*operator), b"", &[*left, *right])
            }
            Node::Call(name, arguments) => {
                self.begin_operands("(call ", program.text(*name), arguments.as_slice())
            }
            Node::Item(name, subscripts) => {
                self.begin_operands("(item ", program.text(*name), subscripts.as_slice())
            }
        }
    }

    /// Writes a leaf between two signs.
    fn write_leaf(&mut self, before: &str, bytes: &[u8], behind: &str) -> Result<(), AllocError> {
        self.write(before)?;
        self.write_bytes(bytes)?;
        self.write(behind)
    }

    fn write_integer(&mut self, alloc: Global, value: i64) -> Result<(), AllocError> {
        let digits = format!(in alloc; "{value}")?;
        self.write(digits.as_str())
    }

    /// Writes a sign and a name, and plans the operands behind them.
    fn begin_operands(
        &mut self,
        sign: &str,
        name: &[u8],
        operands: &[ExprId],
    ) -> Result<(), AllocError> {
        self.write(sign)?;
        self.write_bytes(name)?;
        self.plan(operands)
    }

    /// Writes the tree of an expression.
    pub fn write_tree(
        &mut self,
        alloc: Global,
        program: &Program,
        root: ExprId,
    ) -> Result<(), AllocError> {
        self.begin_node(alloc, program, root)?;
        'tasks: for _ in 0..100_000 {
            let Some(task) = self.tasks.pop() else {
                break;
            };
            self.write_task(alloc, program, task)?;
        }
        Ok(())
    }

    fn write_task(
        &mut self,
        alloc: Global,
        program: &Program,
        task: Task,
    ) -> Result<(), AllocError> {
        match task {
            Task::Close => self.write(")"),
            Task::Operand(id) => {
                self.write(" ")?;
                self.begin_node(alloc, program, id)
            }
        }
    }

    /// Writes a word and a tree, where there is one.
    fn write_part(
        &mut self,
        alloc: Global,
        program: &Program,
        word: &str,
        root: Option<ExprId>,
    ) -> Result<(), AllocError> {
        if let Some(root) = root {
            self.write(word)?;
            self.write_tree(alloc, program, root)?;
        }
        Ok(())
    }

    /// Writes a word and a name, where there is one.
    fn write_name(
        &mut self,
        program: &Program,
        word: &str,
        name: Option<Span>,
    ) -> Result<(), AllocError>
        requires { IsOptionWithin name (length program.now.text) }
    {
        if let Some(name) = name {
            self.write(word)?;
            self.write_bytes(program.text(name))?;
        }
        Ok(())
    }

    fn write_core(
        &mut self,
        alloc: Global,
        program: &Program,
        core: Option<Core>,
    ) -> Result<(), AllocError> {
        let Some(core) = core else {
            return Ok(());
        };
        self.write_part(alloc, program, " subject ", Some(core.subject))?;
        self.write_part(alloc, program, " pattern ", core.pattern)?;
        if core.equals {
            self.write(" =")?;
        }
        self.write_part(alloc, program, " object ", core.object)
    }

    fn write_target(
        &mut self,
        alloc: Global,
        program: &Program,
        word: &str,
        target: Target,
    ) -> Result<(), AllocError>
        requires { IsTargetOf (length program.now.text) (length program.now.nodes) target }
    {
        self.write(word)?;
        match target {
            Target::Label(name) => self.write_bytes(program.text(name))?,
            Target::Computed(id) => {
                self.write("$")?;
                self.write_tree(alloc, program, id)?;
            }
        }
        Ok(())
    }

    fn write_jump(&mut self, alloc: Global, program: &Program, jump: Jump) -> Result<(), AllocError>
        requires { IsJumpOf (length program.now.text) (length program.now.nodes) jump }
    {
        match jump {
            Jump::Fall => {}
            Jump::Always(target) => self.write_target(alloc, program, " goto ", target)?,
            Jump::Either(success, failure) => {
                self.write(" branch")?;
                if let Some(target) = success {
                    self.write_target(alloc, program, " success ", target)?;
                }
                if let Some(target) = failure {
                    self.write_target(alloc, program, " failure ", target)?;
                }
            }
        }
        Ok(())
    }

    /// Writes the statements of a program, each with its line, and ` / ` between them; and whether there are nodes that
    /// were not written.
    pub fn write_program(&mut self, alloc: Global, program: &Program) -> Result<(), AllocError> {
        for number in 1..1000 {
            let Some(statement) = program.statement(number) else {
                break;
            };
            if number > 1 {
                self.write(" / ")?;
            }
            let line = format!(in alloc; "{}", statement.line)?;
            self.write(line.as_str())?;
            self.write_name(program, " label ", statement.label)?;
            self.write_core(alloc, program, statement.core)?;
            self.write_jump(alloc, program, statement.jump)?;
            self.write_name(program, " entry ", statement.entry)?;
        }
        if self.nodes != program.nodes() {
            self.write(" and other nodes")?;
        }
        Ok(())
    }
}
