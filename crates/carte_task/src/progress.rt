ghost use Rattle.std.specs.Prelude.{◌≡◌, ◌+◌, ◌<◌, ◌≤◌, ◌∷◌, ◌++◌, [], List, length, None, IfOk, OnOk, drop};
ghost use Rattle.carte_name.specs.declared.kind.Kind.{Kind as SomeKind};
ghost use Rattle.carte_task.specs.declared.code.Instr.{Instr};
ghost use Rattle.carte_value.specs.Once.{answer_in};
ghost use Rattle.carte_value.specs.Truths.{NoneTwice};
ghost use Rattle.carte_effect.specs.Effects.{SameStops, paired};
ghost use Rattle.carte_task.specs.Answered.{Answered, AnsweredOnto};

use crate::code::{Instr, Next, Wanted};
use crate::known::Known;
use crate::{Effect, Halt, Hashed, execute};
use carte_value::{Kind, Name, Names, NoMemory, Seeded, SharedLinks, Value, Values};
use std::alloc::Global;

/// How far a task has come: the place in its code, the stack, the names to be looked up first, and the answers so far in order.
#[derive(Drop)]
pub(crate) struct Progress {
    pub(crate) at: usize,
    pub(crate) values: Vec<Value>,
    pub(crate) wanted: Wanted,
    pub(crate) looked: usize,
    pub(crate) next: Next,
    pub(crate) answers: Known,
}

// The value of a name: a second look-up takes the first answer.
fn answer<E: Effect>(
    alloc: Global,
    answers: &mut Known,
    name: &Name,
    effect: &mut E,
) -> Result<Value, Halt<E::Stop>>
    ensures truth { E.truth effect.new ≡ E.truth effect.old }
    ensures stops { SameStops (E.stops effect.old) (E.stops effect.new) }
    ensures answered { Answered (E.truth effect.old) (E.stops effect.old) (E.log effect.old) (E.log effect.new) answers.old.entries answers.new.entries name.now result }
{
    if let Some(value) = answers.find(name) {
        return Ok(value.value().copy(alloc)?);
    }
    let own = name.copy(alloc)?;
    answers.reserve()?;
    let value = match effect.fetch(alloc, name) {
        Ok(value) => value,
        Err(halt) => return Err(halt),
    };
    let copy = value.value().copy(alloc);
    answers.put(own, value);
    Ok(copy?)
}

// Looks a name up onto the stack.
fn look_onto<E: Effect>(
    alloc: Global,
    answers: &mut Known,
    name: &Name,
    values: &mut Vec<Value>,
    effect: &mut E,
) -> Result<(), Halt<E::Stop>>
    ensures truth { E.truth effect.new ≡ E.truth effect.old }
    ensures stops { SameStops (E.stops effect.old) (E.stops effect.new) }
    ensures pushed { AnsweredOnto (E.truth effect.old) (E.stops effect.old) (E.log effect.old) (E.log effect.new) answers.old.entries answers.new.entries name.now values.old.items values.new.items result }
{
    if let Err(_refused) = values.reserve(1) {
        return Err(Halt::NoMemory);
    }
    match answer(alloc, answers, name, effect) {
        Ok(value) => {
            values.push_reserved(value);
            Ok(())
        }
        Err(halt) => Err(halt),
    }
}

impl Progress {
    ghost use Rattle.carte_task.specs.State.{answers_in, pending, rest_in, Looked, Proceeds, Stepped, Goes};
    ghost use Rattle.carte_value.specs.Once.{once};
    ghost use Rattle.carte_task.specs.Code.{exec, top};
    ghost use Rattle.carte_effect.specs.Outcomes.{links_of};

    /// At the start of its code.
    pub(crate) fn new(alloc: Global, hasher: Seeded) -> Progress
        ensures answers { answers_in result ≡ [] }
        ensures rest { (kind : SomeKind) (code : List Instr) → rest_in kind code result ≡ once [] (exec kind 0 code []) }
    {
        Progress::knowing(alloc, Known::new(alloc, hasher))
    }

    /// At the start of its code, with values for these names.
    pub(crate) fn filled(
        alloc: Global,
        names: &Names,
        values: Values,
        hasher: Seeded,
    ) -> Result<Progress, NoMemory>
        requires { NoneTwice names.now }
        ensures answers { IfOk result (λ p. answers_in p ≡ paired names.now values) }
        ensures rest { IfOk result (λ p. (kind : SomeKind) (code : List Instr) → rest_in kind code p ≡ once (answers_in p) (exec kind 0 code [])) }
    {
        let mut answers = Known::new(alloc, hasher);
        fill(alloc, names, values, &mut answers)?;
        Ok(Progress::knowing(alloc, answers))
    }

    // At the start of its code, with these answers.
    fn knowing(alloc: Global, answers: Known) -> Progress
        ensures answers { answers_in result ≡ answers.entries }
        ensures rest { (kind : SomeKind) (code : List Instr) → rest_in kind code result ≡ once answers.entries (exec kind 0 code []) }
    {
        Progress {
            at: 0,
            values: Vec::new(alloc),
            wanted: Wanted::Nothing,
            looked: 0,
            next: Next::Behind(0),
            answers,
        }
    }

    /// The newest value.
    pub(crate) fn top(&self, alloc: Global) -> Result<Value, NoMemory>
        ensures { IfOk result (λ v. v ≡ top self.now.values.items) }
    {
        execute::top(alloc, &self.values)
    }

    /// The names that were asked, in order, with the digests of their values.
    pub(crate) fn links(&self, alloc: Global) -> Result<SharedLinks, NoMemory>
        ensures { IfOk result (λ links. links ≡ links_of (answers_in self.now)) }
    {
        let links = self.answers.links(alloc)?;
        SharedLinks::of(alloc, links)
    }

    /// Looks up the names that are to be looked up first, each onto the stack.
    fn look_up<E: Effect>(&mut self, alloc: Global, effect: &mut E) -> Result<(), Halt<E::Stop>>
        ensures truth { E.truth effect.new ≡ E.truth effect.old }
        ensures stops { SameStops (E.stops effect.old) (E.stops effect.new) }
        ensures kept { (self.new.at ≡ self.old.at) × (self.new.next ≡ self.old.next) }
        ensures looked { Looked (E.truth effect.old) (E.stops effect.old) (E.log effect.old) (E.log effect.new) self.old self.new result }
    {
        while let Some(name) = self.wanted.get(self.looked) {
            match look_onto(alloc, &mut self.answers, name, &mut self.values, effect) {
                Ok(()) => {}
                Err(halt) => return Err(halt),
            }
            self.looked += 1;
        }
        Ok(())
    }

    /// Goes on once the names are looked up.
    #[inline(always)]
    fn settle(&mut self, alloc: Global, len: usize) -> Result<(), NoMemory>
        requires { pending self.old ≡ [] }
        ensures answers { answers_in self.new ≡ answers_in self.old }
        ensures rest { (kind : SomeKind) (code : List Instr) → length code ≡ len → rest_in kind code self.new ≡ rest_in kind code self.old }
        ensures on { self.old.at ≤ self.new.at }
        ensures settled { OnOk result ((self.new.next ≡ Next.Behind 0) × (pending self.new ≡ [])) }
    {
        match self.next {
            Next::Behind(count) => {
                self.at = behind(self.at, count, len);
                self.next = Next::Behind(0);
                Ok(())
            }
            Next::Joined(count) => {
                execute::join(alloc, &mut self.values, count)?;
                self.next = Next::Behind(0);
                Ok(())
            }
        }
    }

    /// Does one instruction; false where there is none left. A name alone is looked up at once, with nothing kept for it.
    fn step<E: Effect>(
        &mut self,
        alloc: Global,
        kind: Kind,
        code: &[Instr],
        effect: &mut E,
    ) -> Result<bool, Halt<E::Stop>>
        requires names { pending self.old ≡ [] }
        requires next { self.old.next ≡ Next.Behind 0 }
        ensures truth { E.truth effect.new ≡ E.truth effect.old }
        ensures stops { SameStops (E.stops effect.old) (E.stops effect.new) }
        ensures goes { Goes kind code.now (E.truth effect.old) (E.stops effect.old) (E.log effect.old) (E.log effect.new) self.old self.new result }
    {
        match code.get(self.at) {
            Some(Instr::Look(name)) => {
                match look_onto(alloc, &mut self.answers, name, &mut self.values, effect) {
                    Ok(()) => {}
                    Err(halt) => return Err(halt),
                }
                self.at += 1;
                Ok(true)
            }
            _ => Ok(self.act(alloc, kind, code)?),
        }
    }

    // Does one instruction, with the names that it wants left to be looked up; false where there is none left.
    fn act(&mut self, alloc: Global, kind: Kind, code: &[Instr]) -> Result<bool, NoMemory>
        requires names { pending self.old ≡ [] }
        requires next { self.old.next ≡ Next.Behind 0 }
        ensures answers { answers_in self.new ≡ answers_in self.old }
        ensures rest { rest_in kind code.now self.new ≡ rest_in kind code.now self.old }
        ensures end { IfOk result (λ more. Stepped kind code.now self.old self.new more) }
    {
        if self.at >= code.len() {
            return Ok(false);
        }
        match execute::apply(alloc, kind, &code[self.at], &mut self.values)? {
            None => {
                self.at += 1;
                Ok(true)
            }
            Some(pending) => {
                self.at += 1;
                self.wanted = pending.wanted;
                self.looked = 0;
                self.next = pending.next;
                Ok(true)
            }
        }
    }

    /// Goes on to the end, or to a name without an answer.
    pub(crate) fn drive<E: Effect>(
        &mut self,
        alloc: Global,
        kind: Kind,
        code: &[Instr],
        effect: &mut E,
    ) -> Result<(), Halt<E::Stop>>
        ensures truth { E.truth effect.new ≡ E.truth effect.old }
        ensures stops { SameStops (E.stops effect.old) (E.stops effect.new) }
        ensures proceeds { Proceeds kind code.now (E.truth effect.old) (E.stops effect.old) (E.log effect.old) (E.log effect.new) self.old self.new result }
    {
        'steps: loop {
            match self.look_up(alloc, effect) {
                Ok(()) => {}
                Err(halt) => return Err(halt),
            }
            self.settle(alloc, code.len())?;
            match self.step(alloc, kind, code, effect) {
                Ok(true) => {}
                Ok(false) => return Ok(()),
                Err(halt) => return Err(halt),
            }
        }
    }
}

// The place behind that many instructions, or behind all of them.
fn behind(at: usize, count: usize, len: usize) -> usize
    ensures on { at ≤ result }
    ensures drop { (code : List Instr) → length code ≡ len → drop result code ≡ drop count (drop at code) }
{
    if count == 0 {
        return at;
    }
    if at < len && count < len - at {
        at + count
    } else {
        at.max(len)
    }
}

// Answers for names, in order, as far as there are values.
fn fill(alloc: Global, names: &Names, values: Values, answers: &mut Known) -> Result<(), NoMemory>
    requires names { NoneTwice names.now }
    requires answers { answers.old.entries ≡ [] }
    ensures { OnOk result (answers.new.entries ≡ paired names.now values) }
{
    let mut rest = values.as_slice();
    for name in names.as_slice() {
        let Some((value, later)) = rest.split_first() else {
            return Ok(());
        };
        put(alloc, name, value.copy(alloc)?, answers)?;
        rest = later;
    }
    Ok(())
}

fn put(alloc: Global, name: &Name, value: Value, answers: &mut Known) -> Result<(), NoMemory>
    requires { answer_in answers.old.entries name.now ≡ None }
    ensures { OnOk result (answers.new.entries ≡ answers.old.entries ++ (name.now, value) ∷ []) }
{
    let name = name.copy(alloc)?;
    answers.reserve()?;
    answers.put(name, Hashed::unhashed(value));
    Ok(())
}
