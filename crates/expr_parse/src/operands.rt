//! Operands: what stands between operators.

ghost use Rattle.bas_ast.specs.Words.{role};
ghost use Rattle.expr_parse.specs.Nests.{Nests};
ghost use Rattle.expr_parse.specs.Parse as spec;
ghost use Rattle.expr_parse.specs.Reads.{Reads};
ghost use Rattle.expr_parse.specs.Prefixes.{prefixed_number, function_of_text, prefixed_text};

use crate::failure::{Failure, optional, past, with};
use crate::found::Found;
use crate::grammar::{Front, Grammar};
use crate::marks::{close, comma, indirection, tilde};
use crate::trees::{bracketed, copies, instr, middle, part};
use crate::words::{
    Prefix, TextPrefix, alone, alone_text, apply, apply_text, prefix_of, side_of, text_function_of,
    text_prefix_of,
};
use bas_ast::{
    Keyword, NumExpr, NumberFormat, Side, StrExpr, Terminal, TextFunction, Variable, Width,
};
use sqlite_items::Boxed;
use std::alloc::Global;

/// The level of operands.
const FACTOR: u8 = 6;

impl<F: for<'b> Fn(Global, usize, u8, &'b [Terminal]) -> Front<'b>> Grammar<F> {
    /// An indirection after a variable.
    #[tactic(auto, unfolding(crate::specs::Parse::offset, crate::specs::Parse::on_front))]
    pub fn offset(&self, least: u8, list: &mut &[Terminal]) -> Result<(Width, NumExpr), Failure>
        requires { Nests self.now.depth (F.pre self.now.inner) (F.post self.now.inner) }
        ensures { Reads (spec.offset (spec.expression self.now.depth) least list.old.now) result list.new.now }
    {
        let width = indirection(list)?;
        if least > FACTOR {
            return Err(Failure::Absent);
        }
        let x = self.number(7, list)?;
        Ok((width, x))
    }

    /// What begins with a variable of numbers.
    #[tactic(auto, unfolding(crate::specs::Parse::placed, crate::specs::Parse::or_front))]
    fn placed(
        &self,
        least: u8,
        variable: Variable,
        list: &mut &[Terminal],
    ) -> Result<Found, Failure>
        requires { Nests self.now.depth (F.pre self.now.inner) (F.post self.now.inner) }
        ensures { Reads (spec.placed (spec.expression self.now.depth) least variable list.old.now) result list.new.now }
    {
        let mut after = *list;
        let (variable, offset) = with(variable, optional(self.offset(least, &mut after)))?;
        match offset {
            Some((width, x)) => {
                *list = after;
                let (variable, x) = with(variable, Boxed::new(self.alloc, x))?;
                Ok(Found::Number(6, NumExpr::IndirectSum(width, variable, x)))
            }
            None => Ok(Found::Number(7, NumExpr::Variable(variable))),
        }
    }

    /// What begins with an array's element of numbers.
    #[tactic(auto, unfolding(crate::specs::Parse::on_front))]
    fn element(&self, least: u8, name: u16, list: &mut &[Terminal]) -> Result<Found, Failure>
        requires { Nests self.now.depth (F.pre self.now.inner) (F.post self.now.inner) }
        ensures { Reads (spec.element (spec.expression self.now.depth) least name list.old.now) result list.new.now }
    {
        let subscripts = self.subscripts(list)?;
        self.placed(least, Variable::Element(name, subscripts), list)
    }

    /// An array's element of strings.
    #[tactic(auto, unfolding(crate::specs::Parse::on_front))]
    fn text_element(&self, name: u16, list: &mut &[Terminal]) -> Result<Found, Failure>
        requires { Nests self.now.depth (F.pre self.now.inner) (F.post self.now.inner) }
        ensures { Reads (spec.text_element (spec.expression self.now.depth) name list.old.now) result list.new.now }
    {
        let subscripts = self.subscripts(list)?;
        Ok(Found::Text(StrExpr::Variable(Variable::Element(name, subscripts))))
    }

    /// A function of numbers, with its arguments.
    #[tactic(auto, unfolding(crate::specs::Parse::on_front))]
    fn function(&self, name: u16, list: &mut &[Terminal]) -> Result<Found, Failure>
        requires { Nests self.now.depth (F.pre self.now.inner) (F.post self.now.inner) }
        ensures { Reads (spec.function (spec.expression self.now.depth) name list.old.now) result list.new.now }
    {
        let arguments = self.arguments(list)?;
        Ok(Found::Number(7, NumExpr::Function(name, arguments)))
    }

    /// A function of strings, with its arguments.
    #[tactic(auto, unfolding(crate::specs::Parse::on_front))]
    fn text_function(&self, name: u16, list: &mut &[Terminal]) -> Result<Found, Failure>
        requires { Nests self.now.depth (F.pre self.now.inner) (F.post self.now.inner) }
        ensures { Reads (spec.text_function (spec.expression self.now.depth) name list.old.now) result list.new.now }
    {
        let arguments = self.arguments(list)?;
        Ok(Found::Text(StrExpr::Function(name, arguments)))
    }

    /// An expression in brackets.
    #[tactic(auto, unfolding(crate::specs::Parse::bracket, crate::specs::Parse::on_front, crate::specs::Parse::on_some))]
    fn bracket(&self, list: &mut &[Terminal]) -> Result<Found, Failure>
        requires { Nests self.now.depth (F.pre self.now.inner) (F.post self.now.inner) }
        ensures { Reads (spec.bracket (spec.expression self.now.depth) list.old.now) result list.new.now }
    {
        let found = self.deeper(1, list)?;
        let found = past(found, close(list))?;
        Ok(bracketed(self.alloc, found)?)
    }

    /// INSTR(
    #[tactic(auto, unfolding(crate::specs::Parse::instr, crate::specs::Parse::on_front, crate::specs::Parse::on_some))]
    fn instr(&self, list: &mut &[Terminal]) -> Result<Found, Failure>
        requires { Nests self.now.depth (F.pre self.now.inner) (F.post self.now.inner) }
        ensures { Reads (spec.instr (spec.expression self.now.depth) list.old.now) result list.new.now }
    {
        let y = self.text(4, list)?;
        let y = past(y, comma(list))?;
        self.instr_from(y, list)
    }

    /// INSTR( after its first string.
    #[tactic(auto, unfolding(crate::specs::Parse::on_front))]
    fn instr_from(&self, y: StrExpr, list: &mut &[Terminal]) -> Result<Found, Failure>
        requires { Nests self.now.depth (F.pre self.now.inner) (F.post self.now.inner) }
        ensures { Reads (spec.instr_from (spec.expression self.now.depth) y list.old.now) result list.new.now }
    {
        let (y, z) = with(y, self.text(4, list))?;
        let ((y, z), from) = with((y, z), self.end(list))?;
        Ok(Found::Number(7, instr(self.alloc, y, z, from)?))
    }

    /// MID$(
    #[tactic(auto, unfolding(crate::specs::Parse::middle, crate::specs::Parse::on_front, crate::specs::Parse::on_some))]
    fn middle(&self, list: &mut &[Terminal]) -> Result<Found, Failure>
        requires { Nests self.now.depth (F.pre self.now.inner) (F.post self.now.inner) }
        ensures { Reads (spec.middle (spec.expression self.now.depth) list.old.now) result list.new.now }
    {
        let y = self.text(4, list)?;
        let y = past(y, comma(list))?;
        self.middle_from(y, list)
    }

    /// MID$( after its string.
    #[tactic(auto, unfolding(crate::specs::Parse::on_front))]
    fn middle_from(&self, y: StrExpr, list: &mut &[Terminal]) -> Result<Found, Failure>
        requires { Nests self.now.depth (F.pre self.now.inner) (F.post self.now.inner) }
        ensures { Reads (spec.middle_from (spec.expression self.now.depth) y list.old.now) result list.new.now }
    {
        let (y, x) = with(y, self.number(1, list))?;
        let ((y, x), count) = with((y, x), self.end(list))?;
        Ok(Found::Text(middle(self.alloc, y, x, count)?))
    }

    /// STRING$(
    #[tactic(auto, unfolding(crate::specs::Parse::copies, crate::specs::Parse::on_front, crate::specs::Parse::on_some))]
    fn copies(&self, list: &mut &[Terminal]) -> Result<Found, Failure>
        requires { Nests self.now.depth (F.pre self.now.inner) (F.post self.now.inner) }
        ensures { Reads (spec.copies (spec.expression self.now.depth) list.old.now) result list.new.now }
    {
        let x = self.number(1, list)?;
        let x = past(x, comma(list))?;
        let both = with(x, self.text(4, list))?;
        let (x, y) = past(both, close(list))?;
        Ok(Found::Text(copies(self.alloc, x, y)?))
    }

    /// LEFT$( or RIGHT$(
    #[tactic(auto, unfolding(crate::specs::Parse::part, crate::specs::Parse::on_front))]
    fn part(&self, side: Side, list: &mut &[Terminal]) -> Result<Found, Failure>
        requires { Nests self.now.depth (F.pre self.now.inner) (F.post self.now.inner) }
        ensures { Reads (spec.part (spec.expression self.now.depth) side list.old.now) result list.new.now }
    {
        let y = self.text(4, list)?;
        let (y, count) = with(y, self.end(list))?;
        Ok(Found::Text(part(self.alloc, side, y, count)?))
    }

    /// STR$
    #[tactic(auto, unfolding(crate::specs::Parse::written, crate::specs::Parse::on_front, crate::specs::Parse::on_some))]
    fn written(&self, list: &mut &[Terminal]) -> Result<Found, Failure>
        requires { Nests self.now.depth (F.pre self.now.inner) (F.post self.now.inner) }
        ensures { Reads (spec.written (spec.expression self.now.depth) list.old.now) result list.new.now }
    {
        if tilde(list).is_ok() {
            return self.written_as(NumberFormat::Hexadecimal, list);
        }
        self.written_as(NumberFormat::Decimal, list)
    }

    /// STR$ of a number in a format.
    #[tactic(auto, unfolding(crate::specs::Parse::on_front))]
    fn written_as(&self, format: NumberFormat, list: &mut &[Terminal]) -> Result<Found, Failure>
        requires { Nests self.now.depth (F.pre self.now.inner) (F.post self.now.inner) }
        ensures { Reads (spec.written_as (spec.expression self.now.depth) format list.old.now) result list.new.now }
    {
        let x = self.number(6, list)?;
        let x = Boxed::new(self.alloc, x)?;
        Ok(Found::Text(StrExpr::Written(format, x)))
    }

    /// What begins with a keyword that has punctuation of its own.
    fn worded(&self, word: Keyword, list: &mut &[Terminal]) -> Result<Found, Failure>
        requires { Nests self.now.depth (F.pre self.now.inner) (F.post self.now.inner) }
        ensures { Reads (spec.worded (spec.expression self.now.depth) word list.old.now) result list.new.now }
    {
        match word {
            Keyword::Instr => self.instr(list),
            Keyword::Mid => self.middle(list),
            Keyword::Copies => self.copies(list),
            Keyword::Str => self.written(list),
            _ => Err(Failure::Absent),
        }
    }

    /// What begins with a name, a bracket or a keyword with punctuation of its own.
    #[tactic(auto, unfolding(crate::specs::Parse::formed))]
    fn formed(
        &self,
        least: u8,
        terminal: Terminal,
        list: &mut &[Terminal],
    ) -> Result<Found, Failure>
        requires { Nests self.now.depth (F.pre self.now.inner) (F.post self.now.inner) }
        ensures { Reads (spec.formed (spec.expression self.now.depth) least terminal list.old.now) result list.new.now }
    {
        match terminal {
            Terminal::IntName(name) => self.placed(least, Variable::Simple(name), list),
            Terminal::IntArray(name) => self.element(least, name, list),
            Terminal::StrName(name) => {
                Ok(Found::Text(StrExpr::Variable(Variable::Simple(name))))
            }
            Terminal::StrArray(name) => self.text_element(name, list),
            Terminal::NumFunctionOpen(name) => self.function(name, list),
            Terminal::StrFunctionOpen(name) => self.text_function(name, list),
            Terminal::Open => self.bracket(list),
            Terminal::Keyword(word) => self.worded(word, list),
            _ => Err(Failure::Absent),
        }
    }

    /// A number after a prefix.
    #[tactic(auto, unfolding(crate::specs::Parse::on_front))]
    fn number_after(&self, prefix: Prefix, list: &mut &[Terminal]) -> Result<Found, Failure>
        requires { Nests self.now.depth (F.pre self.now.inner) (F.post self.now.inner) }
        ensures { Reads (spec.number_after (spec.expression self.now.depth) (prefixed_number prefix) list.old.now) result list.new.now }
    {
        let x = self.number(6, list)?;
        Ok(Found::Number(7, apply(self.alloc, prefix, x)?))
    }

    /// A number made of a string.
    #[tactic(auto, unfolding(crate::specs::Parse::on_front))]
    fn number_of_text(
        &self,
        function: TextFunction,
        list: &mut &[Terminal],
    ) -> Result<Found, Failure>
        requires { Nests self.now.depth (F.pre self.now.inner) (F.post self.now.inner) }
        ensures { Reads (spec.number_of_text (spec.expression self.now.depth) (function_of_text function) list.old.now) result list.new.now }
    {
        let y = self.text(6, list)?;
        let y = Boxed::new(self.alloc, y)?;
        Ok(Found::Number(7, NumExpr::OfText(function, y)))
    }

    /// A string made of a number by a prefix.
    #[tactic(auto, unfolding(crate::specs::Parse::on_front))]
    fn text_after(&self, prefix: TextPrefix, list: &mut &[Terminal]) -> Result<Found, Failure>
        requires { Nests self.now.depth (F.pre self.now.inner) (F.post self.now.inner) }
        ensures { Reads (spec.text_after (spec.expression self.now.depth) (prefixed_text prefix) list.old.now) result list.new.now }
    {
        let x = self.number(6, list)?;
        Ok(Found::Text(apply_text(self.alloc, prefix, x)?))
    }

    /// What begins with a word or a sign before an operand.
    #[tactic(auto, unfolding(crate::specs::Parse::prefixed, crate::specs::Parse::on_some))]
    fn prefixed(
        &self,
        least: u8,
        terminal: Terminal,
        list: &mut &[Terminal],
    ) -> Result<Found, Failure>
        requires { Nests self.now.depth (F.pre self.now.inner) (F.post self.now.inner) }
        ensures { Reads (spec.prefixed (spec.expression self.now.depth) least (role terminal) terminal list.old.now) result list.new.now }
    {
        if let Some(prefix) = prefix_of(terminal) {
            return self.number_after(prefix, list);
        }
        if let Some(function) = text_function_of(terminal) {
            return self.number_of_text(function, list);
        }
        if let Some(prefix) = text_prefix_of(terminal) {
            return self.text_after(prefix, list);
        }
        if let Some(side) = side_of(terminal) {
            return self.part(side, list);
        }
        self.formed(least, terminal, list)
    }

    /// What begins with a terminal.
    #[tactic(auto, unfolding(crate::specs::Parse::opened, crate::specs::Parse::on_some))]
    fn opened(
        &self,
        least: u8,
        terminal: Terminal,
        list: &mut &[Terminal],
    ) -> Result<Found, Failure>
        requires { Nests self.now.depth (F.pre self.now.inner) (F.post self.now.inner) }
        ensures { Reads (spec.opened (spec.expression self.now.depth) least (role terminal) terminal list.old.now) result list.new.now }
    {
        if let Some(x) = alone(self.alloc, terminal) {
            return Ok(Found::Number(7, x));
        }
        if let Some(y) = alone_text(self.alloc, terminal) {
            return Ok(Found::Text(y));
        }
        self.prefixed(least, terminal, list)
    }

    /// An operand.
    #[tactic(auto, unfolding(crate::specs::Parse::operand))]
    pub fn operand(&self, least: u8, list: &mut &[Terminal]) -> Result<Found, Failure>
        requires { Nests self.now.depth (F.pre self.now.inner) (F.post self.now.inner) }
        ensures { Reads (spec.operand (spec.expression self.now.depth) least list.old.now) result list.new.now }
    {
        match *list {
            [terminal, rest @ ..] => {
                *list = rest;
                self.opened(least, *terminal, list)
            }
            [] => Err(Failure::Absent),
        }
    }
}
