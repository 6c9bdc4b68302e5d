//! The engine beside the plain search, over generated patterns.
ghost use Rattle.std.specs.Prelude.{◌<◌};

use super::forms::Form;
use super::searches::{Search, compare_forms};
use sno_value::{ExprId, PatId, Prim};
use std::alloc::{AllocError, Global};
use std::process::Abort;
use std::test::Fail;

const PATTERNS: usize = 6_000;

const TEXTS: [&str; 5] = ["", "A", "B", "AB", "AA"];

const SETS: [&str; 3] = ["A", "AB", "()"];

pub const SUBJECTS: [&str; 10] = [
    "", "A", "AB", "AAA", "(A)B", "())", "BABA", "A(", "ABAB", "AABBA",
];

/// Numbers that look like chance.
#[derive(Drop)]
pub struct Chance(pub u64);

impl Chance {
    /// A number below `n`, or 0 where there is none.
    pub fn below(&mut self, n: usize) -> usize
        ensures { 0 < n → result < n }
    {
        self.0 = self
            .0
            .wrapping_mul(6364136223846793005)
            .wrapping_add(1442695040888963407);
        let high = (self.0 >> 33) as usize;
        if n == 0 { 0 } else { high % n }
    }

    /// One of some texts.
    pub fn among(&mut self, texts: &[&'static str]) -> &'static [u8] {
        let place = self.below(texts.len());
        match texts.get(place) {
            Some(text) => text.as_bytes(),
            None => b"",
        }
    }

    fn number(&mut self) -> u32 {
        (self.below(4) % 4) as u32
    }

    fn counted(&mut self, prim: Prim) -> Form {
        Form::Count(prim, self.number() as u64)
    }

    fn set(&mut self, prim: Prim) -> Form {
        Form::Set(prim, self.among(&SETS))
    }

    fn part(&mut self, parts: usize) -> PatId {
        PatId((self.below(parts) % 1000) as u32)
    }

    fn primitive(&mut self) -> Form {
        match self.below(20) {
            0 => self.counted(Prim::Len),
            1 => self.counted(Prim::Pos),
            2 => self.counted(Prim::Rpos),
            3 => self.counted(Prim::Tab),
            4 => self.counted(Prim::Rtab),
            5 => self.set(Prim::Any),
            6 => self.set(Prim::NotAny),
            7 => self.set(Prim::Span),
            8 => self.set(Prim::Break),
            9 => Form::Bal,
            10 => Form::Rem,
            11 | 12 => Form::Arb,
            13 => Form::Cursor(self.number()),
            14 | 15 => self.set(Prim::BreakX),
            _ => Form::Text(self.among(&TEXTS)),
        }
    }

    /// A form over `parts` forms that are there.
    fn form(&mut self, parts: usize) -> Form {
        match self.below(32) {
            _ if parts == 0 => self.primitive(),
            0 | 1 | 2 | 3 | 4 => Form::Cat(self.part(parts), self.part(parts)),
            5 | 6 | 7 | 8 => Form::Alt(self.part(parts), self.part(parts)),
            9 | 10 | 11 => Form::Arbno(self.part(parts)),
            12 | 13 => Form::Cond(self.part(parts), self.number()),
            14 | 15 => Form::Imm(self.part(parts), self.number()),
            16 => Form::Fence,
            17 => Form::Abort,
            18 => Form::Succeed,
            19 => Form::Defer(None, ExprId(self.number())),
            20 => Form::Defer(Some(Prim::Span), ExprId(self.number())),
            21 => Form::Fail,
            22 | 23 | 24 | 25 => Form::Cut(self.part(parts)),
            _ => self.primitive(),
        }
    }

    /// At least one form.
    pub fn forms(&mut self, alloc: Global) -> Result<Vec<Form>, AllocError> {
        let mut forms = Vec::new(alloc);
        for _ in 0..=self.below(8) {
            let form = self.form(forms.len());
            forms.push(form)?;
        }
        Ok(forms)
    }

    /// Answers for deferred parts: some let the part fail, and some are one of the forms.
    pub fn answers(
        &mut self,
        alloc: Global,
        forms: usize,
    ) -> Result<Vec<Option<PatId>>, AllocError> {
        let mut answers = Vec::new(alloc);
        for _ in 0..self.below(4) {
            let answer = self.part(forms);
            let fails = self.below(3) == 0;
            answers.push(if fails { None } else { Some(answer) })?;
        }
        Ok(answers)
    }
}

/// Compares what a match over either stack and the plain search tell of one pattern, and gives the number of events.
fn compare(rt: &impl Abort, alloc: Global, chance: &mut Chance) -> Result<usize, Fail> {
    let forms = chance.forms(alloc)?;
    compare_answered(rt, alloc, chance, &forms)
}

/// The same of the last of some forms, in a search that looks like chance.
fn compare_answered(
    rt: &impl Abort,
    alloc: Global,
    chance: &mut Chance,
    forms: &[Form],
) -> Result<usize, Fail> {
    let answers = chance.answers(alloc, forms.len())?;
    let anchored = chance.below(2) == 0;
    let limit = chance.below(90) as u32;
    let s = Search {
        subject: chance.among(&SUBJECTS),
        anchored,
        limit,
        answers: &answers,
    };
    compare_forms(rt, alloc, forms, s)
}

#[test]
fn tells_what_the_plain_search_tells(rt: HostRuntime) -> Result<(), Fail> {
    let mut chance = Chance(2);
    let mut events = 0usize;
    for _ in 0..PATTERNS {
        let more = compare(&rt, rt.alloc(), &mut chance)?;
        events = events.saturating_add(more);
    }
    assert!(rt; events > 20_000);
    Ok(())
}
