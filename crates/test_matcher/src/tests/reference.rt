//! A plain search by recursion over lists of goals, written like the definition. It has no stack of its own and tells
//! all events at once.
use super::driver::Told;
use super::ends::ends;
use super::forms::{Form, variable};
use sno_match::{Event, Pending};
use sno_value::{Name, PatId};
use std::alloc::{AllocError, Global};

#[derive(Clone, Copy, Drop)]
enum Step {
    Match(PatId),
    CloseCond(Name, usize),
    CloseImm(Name, usize),
    CloseRepeat(PatId, usize),
    /// With the steps that were left when the cut was entered.
    CloseCut(u32),
}

#[derive(Clone, Copy, Drop)]
enum Verdict {
    Exhausted,
    Aborted,
    Limit,
    Waiting,
    /// What follows the cut with this mark is exhausted.
    CutOff(u32),
}

#[derive(Drop)]
struct Search<'a> {
    alloc: Global,
    forms: &'a [Form],
    subject: &'a [u8],
    answers: &'a [Option<PatId>],
    start: usize,
    limit: u32,
    left: u32,
    given: usize,
    pending: Vec<Pending>,
    told: Vec<Told>,
}

/// All events of a match of one of the forms.
pub fn search_events(
    alloc: Global,
    forms: &[Form],
    pattern: PatId,
    subject: &[u8],
    anchored: bool,
    limit: u32,
    answers: &[Option<PatId>],
) -> Result<Vec<Told>, AllocError> {
    let mut search = Search {
        alloc,
        forms,
        subject,
        answers,
        start: 0,
        limit,
        left: limit,
        given: 0,
        pending: Vec::new(alloc),
        told: Vec::new(alloc),
    };
    search.search_all(pattern, anchored)?;
    Ok(search.told)
}

impl Search<'_> {
    /// Searches from the first start, and where it isn't anchored from each.
    fn search_all(&mut self, pattern: PatId, anchored: bool) -> Result<(), AllocError> {
        let goals = [Step::Match(pattern)];
        let mut verdict = self.search(&goals, 0, &[], self.limit)?;
        if !anchored {
            for start in 0..self.subject.len() {
                if let Some(stop) = self.next_try(verdict) {
                    verdict = stop;
                    break;
                }
                self.start = start + 1;
                verdict = self.search(&goals, start + 1, &[], self.limit)?;
            }
        }
        match verdict {
            Verdict::Exhausted => self.tell(Event::Exhausted),
            Verdict::Aborted => self.tell(Event::Aborted),
            Verdict::Limit => self.tell(Event::Limit),
            Verdict::Waiting | Verdict::CutOff(_) => Ok(()),
        }
    }

    fn tell(&mut self, event: Event) -> Result<(), AllocError> {
        let told = Told {
            event,
            steps: self.limit.saturating_sub(self.left),
            pending: self.pending.as_slice().to_vec(self.alloc)?,
        };
        self.told.push(told)?;
        Ok(())
    }

    /// A further try is a step. It is None where the try is to be made, else the verdict.
    fn next_try(&mut self, verdict: Verdict) -> Option<Verdict> {
        match verdict {
            Verdict::Exhausted if self.left == 0 => Some(Verdict::Limit),
            Verdict::Exhausted => {
                self.left -= 1;
                None
            }
            _ => Some(verdict),
        }
    }

    /// The search of these goals. There are never more goals to enter than `depth`.
    #[cycle(reference)]
    fn search(
        &mut self,
        goals: &[Step],
        at: usize,
        pending: &[Pending],
        depth: u32,
    ) -> Result<Verdict, AllocError> {
        let (first, rest) = match goals {
            [] => {
                self.pending = pending.to_vec(self.alloc)?;
                self.tell(Event::Way {
                    start: self.start,
                    end: at,
                })?;
                return Ok(Verdict::Exhausted);
            }
            [first, rest @ ..] => (*first, rest),
        };
        if self.left == 0 || depth == 0 {
            return Ok(Verdict::Limit);
        }
        self.left -= 1;
        self.enter(first, rest, at, pending, depth - 1)
    }

    #[cycle(reference)]
    fn enter(
        &mut self,
        first: Step,
        rest: &[Step],
        at: usize,
        pending: &[Pending],
        depth: u32,
    ) -> Result<Verdict, AllocError> {
        match first {
            Step::Match(place) => {
                let Some(form) = self.forms.get(place.0 as usize) else {
                    return Ok(Verdict::Exhausted);
                };
                let verdict = self.enter_form(*form, place, rest, at, pending, depth)?;
                Ok(verdict)
            }
            Step::CloseCond(target, start) => {
                let more = joined(
                    self.alloc,
                    pending,
                    &[Pending {
                        target,
                        start,
                        end: at,
                    }],
                )?;
                let verdict = self.search(rest, at, &more, depth)?;
                Ok(verdict)
            }
            Step::CloseImm(target, start) => {
                self.tell(Event::Assign {
                    target,
                    start,
                    end: at,
                })?;
                let verdict = self.search(rest, at, pending, depth)?;
                Ok(verdict)
            }
            Step::CloseRepeat(place, start) => {
                if at == start {
                    return Ok(Verdict::Exhausted);
                }
                let goals = joined(self.alloc, &[Step::Match(place)], rest)?;
                let verdict = self.search(&goals, at, pending, depth)?;
                Ok(verdict)
            }
            Step::CloseCut(mark) => match self.search(rest, at, pending, depth)? {
                Verdict::Exhausted => Ok(Verdict::CutOff(mark)),
                verdict => Ok(verdict),
            },
        }
    }

    #[cycle(reference)]
    fn enter_form(
        &mut self,
        form: Form,
        place: PatId,
        rest: &[Step],
        at: usize,
        pending: &[Pending],
        depth: u32,
    ) -> Result<Verdict, AllocError> {
        match form {
            Form::Cat(p, q) => self.search_behind(
                &[Step::Match(p), Step::Match(q)],
                rest,
                at,
                pending,
                depth,
            ),
            Form::Cond(p, n) => self.search_behind(
                &[Step::Match(p), Step::CloseCond(variable(n), at)],
                rest,
                at,
                pending,
                depth,
            ),
            Form::Imm(p, n) => self.search_behind(
                &[Step::Match(p), Step::CloseImm(variable(n), at)],
                rest,
                at,
                pending,
                depth,
            ),
            Form::Alt(p, q) => self.search_either(
                &[Step::Match(p)],
                &[Step::Match(q)],
                rest,
                at,
                pending,
                depth,
            ),
            Form::Arbno(p) => self.search_either(
                &[],
                &[Step::Match(p), Step::CloseRepeat(place, at)],
                rest,
                at,
                pending,
                depth,
            ),
            Form::Cursor(n) => {
                self.tell(Event::Cursor {
                    target: variable(n),
                    at,
                })?;
                let verdict = self.search(rest, at, pending, depth)?;
                Ok(verdict)
            }
            Form::Fence => match self.search(rest, at, pending, depth)? {
                Verdict::Exhausted => Ok(Verdict::Aborted),
                verdict => Ok(verdict),
            },
            Form::Cut(p) => self.search_first(p, rest, at, pending, depth),
            Form::Abort => Ok(Verdict::Aborted),
            Form::Succeed => self.search_again(rest, at, pending, depth),
            Form::Defer(prim, expr) => {
                self.tell(Event::Value { prim, expr })?;
                let Some(answer) = self.answers.get(self.given) else {
                    return Ok(Verdict::Waiting);
                };
                self.given = self.given.saturating_add(1);
                match answer {
                    None => Ok(Verdict::Exhausted),
                    Some(p) => self.search_behind(&[Step::Match(*p)], rest, at, pending, depth),
                }
            }
            primitive => self.search_ends(primitive, rest, at, pending, depth),
        }
    }

    #[cycle(reference)]
    fn search_behind(
        &mut self,
        front: &[Step],
        rest: &[Step],
        at: usize,
        pending: &[Pending],
        depth: u32,
    ) -> Result<Verdict, AllocError> {
        let goals = joined(self.alloc, front, rest)?;
        self.search(&goals, at, pending, depth)
    }

    #[cycle(reference)]
    fn search_either(
        &mut self,
        first: &[Step],
        second: &[Step],
        rest: &[Step],
        at: usize,
        pending: &[Pending],
        depth: u32,
    ) -> Result<Verdict, AllocError> {
        let verdict = self.search_behind(first, rest, at, pending, depth)?;
        if let Some(stop) = self.next_try(verdict) {
            return Ok(stop);
        }
        self.search_behind(second, rest, at, pending, depth)
    }

    /// A cut, whose mark is the number of steps left behind its own.
    #[cycle(reference)]
    fn search_first(
        &mut self,
        body: PatId,
        rest: &[Step],
        at: usize,
        pending: &[Pending],
        depth: u32,
    ) -> Result<Verdict, AllocError> {
        let mark = self.left;
        let front = [Step::Match(body), Step::CloseCut(mark)];
        match self.search_behind(&front, rest, at, pending, depth)? {
            Verdict::CutOff(cut) if cut == mark => Ok(Verdict::Exhausted),
            verdict => Ok(verdict),
        }
    }

    #[cycle(reference)]
    fn search_again(
        &mut self,
        rest: &[Step],
        at: usize,
        pending: &[Pending],
        depth: u32,
    ) -> Result<Verdict, AllocError> {
        let mut verdict = self.search(rest, at, pending, depth)?;
        'tries: for _ in 0..self.limit {
            match self.next_try(verdict) {
                Some(stop) => return Ok(stop),
                None => verdict = self.search(rest, at, pending, depth)?,
            }
        }
        Ok(verdict)
    }

    #[cycle(reference)]
    fn search_ends(
        &mut self,
        primitive: Form,
        rest: &[Step],
        at: usize,
        pending: &[Pending],
        depth: u32,
    ) -> Result<Verdict, AllocError> {
        let mut verdict = Verdict::Exhausted;
        let mut tried = false;
        let ends = ends(self.alloc, primitive, self.subject, at)?;
        'tries: for end in &ends {
            if tried {
                if let Some(stop) = self.next_try(verdict) {
                    return Ok(stop);
                }
            }
            tried = true;
            verdict = self.search(rest, *end, pending, depth)?;
        }
        Ok(verdict)
    }
}

fn joined<T: Copy>(alloc: Global, front: &[T], rest: &[T]) -> Result<Vec<T>, AllocError> {
    let mut all = front.to_vec(alloc)?;
    all.extend_from_slice(rest)?;
    Ok(all)
}
