//! The patterns that expressions make. A node that is there is taken again, and counted (`made`).
ghost use Rattle.std.specs.Prelude.{◌<◌, ◌≤◌, ◌↔◌, IsTrue, length, None, Some};
ghost use Rattle.sno_pattern.specs.Pattern.{Text, Leaf, Alt, Cat, Arbno, Cut, Cond, Imm, Place, Defer};
ghost use Rattle.sno_pattern.specs.Arguments.{IsArgOf, IsGoodArg};
ghost use Rattle.sno_runtime.specs.Operators.{makes};
ghost use Rattle.sno_runtime.specs.Runtime.{made_nodes, tree_of, IsPatternOf};
ghost use Rattle.sno_runtime.specs.inner.Runtime.{Does};
ghost use Rattle.sno_runtime.specs.inner.Primitives.{makes_primitive};

use crate::runtime::Runtime;
use crate::stops::Exit;
use sno_pattern::{Arg, Shape};
use sno_value::{ExprId, Name, PatId, Prim};

impl Runtime {
    /// A text. Here and below error 9 is told where there are 4,000,000 nodes.
    pub fn text(&mut self, bytes: &[u8]) -> Result<PatId, Exit>
        requires { length bytes.now ≤ 1_000_000 }
        ensures { Does tree_of IsPatternOf (makes (Leaf (Text bytes.now))) self.old self.new result }
    {
        let last = self.made_last();
        let same = self.has_text(last, bytes);
        if let Some(id) = self.again(same, last)? {
            return Ok(id);
        }
        let id = self.patterns.text(bytes)?;
        Ok(self.keep_made(id))
    }

    /// The same of a string, whose block it shares.
    pub fn text_of(&mut self, text: &sno_value::Text) -> Result<PatId, Exit>
        requires { length text.now ≤ 1_000_000 }
        ensures { Does tree_of IsPatternOf (makes (Leaf (Text text.now))) self.old self.new result }
    {
        let last = self.made_last();
        let same = self.has_text(last, text.as_slice());
        if let Some(id) = self.again(same, last)? {
            return Ok(id);
        }
        let id = self.patterns.text_of(text)?;
        Ok(self.keep_made(id))
    }

    /// A primitive with its argument: a count for those that take one, and a set for the others. A null set is error
    /// 6, and a negative count error 7.
    pub fn prim(&mut self, prim: Prim, arg: Arg<'_>) -> Result<PatId, Exit>
        requires { IsArgOf prim arg }
        ensures { Does tree_of IsPatternOf (makes_primitive prim arg.entry) self.old self.new result }
    {
        if is_good(arg) {
            let last = self.made_last();
            let same = self.patterns.is_prim(last, prim, arg);
            if let Some(id) = self.again(same, last)? {
                return Ok(id);
            }
        }
        self.prim_anew(prim, arg)
    }

    /// The same with a node of its own. Where the argument is good, there is room.
    fn prim_anew(&mut self, prim: Prim, arg: Arg<'_>) -> Result<PatId, Exit>
        requires arg { IsArgOf prim arg }
        requires room { IsGoodArg arg → made_nodes self.old < 4000000 }
        ensures { Does tree_of IsPatternOf (makes_primitive prim arg.entry) self.old self.new result }
    {
        let id = self.patterns.prim(prim, arg)?;
        Ok(self.keep_made(id))
    }

    /// ARBNO(P).
    pub fn arbno(&mut self, body: PatId) -> Result<PatId, Exit>
        requires { body.0 < length self.old.nodes }
        ensures { Does tree_of IsPatternOf (makes (Arbno (tree_of self.old.nodes body))) self.old self.new result }
    {
        let last = self.made_last();
        let same = self.has_shape(last, Shape::Arbno(body));
        if let Some(id) = self.again(same, last)? {
            return Ok(id);
        }
        let id = self.patterns.arbno(body)?;
        Ok(self.keep_made(id))
    }

    /// FENCE(P).
    pub fn cut(&mut self, body: PatId) -> Result<PatId, Exit>
        requires { body.0 < length self.old.nodes }
        ensures { Does tree_of IsPatternOf (makes (Cut (tree_of self.old.nodes body))) self.old self.new result }
    {
        let last = self.made_last();
        let same = self.has_shape(last, Shape::Cut(body));
        if let Some(id) = self.again(same, last)? {
            return Ok(id);
        }
        let id = self.patterns.cut(body)?;
        Ok(self.keep_made(id))
    }

    /// P | Q.
    pub fn alt(&mut self, first: PatId, second: PatId) -> Result<PatId, Exit>
        requires first { first.0 < length self.old.nodes }
        requires second { second.0 < length self.old.nodes }
        ensures { Does tree_of IsPatternOf (makes (Alt (tree_of self.old.nodes first) (tree_of self.old.nodes second)))
            self.old self.new result }
    {
        let last = self.made_last();
        let same = self.has_shape(last, Shape::Alt(first, second));
        if let Some(id) = self.again(same, last)? {
            return Ok(id);
        }
        let id = self.patterns.alt(first, second)?;
        Ok(self.keep_made(id))
    }

    /// P Q, one behind the other.
    pub fn cat(&mut self, first: PatId, second: PatId) -> Result<PatId, Exit>
        requires first { first.0 < length self.old.nodes }
        requires second { second.0 < length self.old.nodes }
        ensures { Does tree_of IsPatternOf (makes (Cat (tree_of self.old.nodes first) (tree_of self.old.nodes second)))
            self.old self.new result }
    {
        let last = self.made_last();
        let same = self.has_shape(last, Shape::Cat(first, second));
        if let Some(id) = self.again(same, last)? {
            return Ok(id);
        }
        let id = self.patterns.cat(first, second)?;
        Ok(self.keep_made(id))
    }

    /// P . N.
    pub fn cond(&mut self, body: PatId, target: Name) -> Result<PatId, Exit>
        requires { body.0 < length self.old.nodes }
        ensures { Does tree_of IsPatternOf (makes (Cond (tree_of self.old.nodes body) target))
            self.old self.new result }
    {
        let last = self.made_last();
        let same = self.has_shape(last, Shape::Cond(body, target));
        if let Some(id) = self.again(same, last)? {
            return Ok(id);
        }
        let id = self.patterns.cond(body, target)?;
        Ok(self.keep_made(id))
    }

    /// P $ N.
    pub fn imm(&mut self, body: PatId, target: Name) -> Result<PatId, Exit>
        requires { body.0 < length self.old.nodes }
        ensures { Does tree_of IsPatternOf (makes (Imm (tree_of self.old.nodes body) target)) self.old self.new result }
    {
        let last = self.made_last();
        let same = self.has_shape(last, Shape::Imm(body, target));
        if let Some(id) = self.again(same, last)? {
            return Ok(id);
        }
        let id = self.patterns.imm(body, target)?;
        Ok(self.keep_made(id))
    }

    /// @N.
    pub fn cursor(&mut self, target: Name) -> Result<PatId, Exit>
        ensures { Does tree_of IsPatternOf (makes (Place target)) self.old self.new result }
    {
        let last = self.made_last();
        let same = self.has_shape(last, Shape::Cursor(target));
        if let Some(id) = self.again(same, last)? {
            return Ok(id);
        }
        let id = self.patterns.cursor(target)?;
        Ok(self.keep_made(id))
    }

    /// *E: the pattern that the expression gives each time that a match reaches it.
    pub fn defer(&mut self, expression: ExprId) -> Result<PatId, Exit>
        ensures { Does tree_of IsPatternOf (makes (Defer None expression.0)) self.old self.new result }
    {
        let last = self.made_last();
        let same = self.has_shape(last, Shape::Defer(expression));
        if let Some(id) = self.again(same, last)? {
            return Ok(id);
        }
        let id = self.patterns.defer(expression)?;
        Ok(self.keep_made(id))
    }

    /// A primitive whose argument is what the expression gives each time that a match reaches it.
    pub fn defer_prim(&mut self, prim: Prim, expression: ExprId) -> Result<PatId, Exit>
        ensures { Does tree_of IsPatternOf (makes (Defer (Some prim) expression.0)) self.old self.new result }
    {
        let last = self.made_last();
        let same = self.has_shape(last, Shape::DeferPrim(prim, expression));
        if let Some(id) = self.again(same, last)? {
            return Ok(id);
        }
        let id = self.patterns.defer_prim(prim, expression)?;
        Ok(self.keep_made(id))
    }
}

/// Whether an argument is neither a null set nor a negative count.
#[inline(always)]
fn is_good(arg: Arg<'_>) -> bool
    ensures { IsTrue result ↔ IsGoodArg arg.entry }
{
    match arg {
        Arg::Count(n) => n >= 0,
        Arg::Set(bytes) => !bytes.is_empty(),
    }
}
