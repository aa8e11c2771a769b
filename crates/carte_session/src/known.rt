// Lines that were answered while nothing changed, with their replies.
ghost use Rattle.std.specs.Prelude.{◌≡◌, ◌⊎◌, ◌++◌, ◌∷◌, [], IfOk, IfSome, OnErr, OnOk, string_bytes};
ghost use Rattle.carte_value.specs.Lists.{Has};
ghost use Rattle.carte_session.specs.Staying.{Learns};

use crate::Answer;
use carte_value::NoMemory;
use std::alloc::Global;
use std::marker::Model;

/// So many lines are known at most: few are asked again and again.
const MOST: usize = 16;

/// A line with more bytes isn't known, nor one with such a reply: what is known stays in memory.
const LONGEST: usize = 65_536;

/// A line that was answered, and its reply. Contracts see them as a pair.
#[derive(Drop)]
pub(crate) struct Answered {
    line: Vec<u8>,
    reply: String,
}

impl Model for Answered {
    ghost use Rattle.std.specs.Prelude.{ℕ, List, string_bytes};

    ghost Value = { List ℕ × List ℕ };

    ghost view = { λ a. (a.line.items, string_bytes a.reply) };
}

impl Answered {
    fn of(alloc: Global, line: &[u8], reply: &str) -> Result<Answered, NoMemory>
        ensures { IfOk result (λ a. a ≡ (line.now, reply.now)) }
    {
        let mut bytes = Vec::new(alloc);
        bytes.extend_from_slice(line)?;
        let reply = String::from_str(alloc, reply)?;
        Ok(Answered { line: bytes, reply })
    }

    // Its reply, where it is this line.
    fn reply_to(&self, line: &[u8]) -> Option<&str>
        ensures { IfSome result (λ reply. self.now ≡ (line.now, reply.now)) }
    {
        if self.line.as_slice() == line {
            Some(self.reply.as_str())
        } else {
            None
        }
    }
}

/// Lines that would be answered as they were, since nothing has changed: they are answered again without a step of the
/// machine.
#[derive(Drop)]
pub(crate) struct Known {
    pub(crate) lines: Vec<Answered>,
}

impl Known {
    /// None. They take no memory.
    pub(crate) fn new(alloc: Global) -> Known
        ensures { result.lines.items ≡ [] }
    {
        Known {
            lines: Vec::new(alloc),
        }
    }

    /// The reply to a line that is known.
    pub(crate) fn reply_to(&self, line: &[u8]) -> Option<&str>
        ensures { IfSome result (λ reply. Has self.now.lines.items (line.now, reply.now)) }
    {
        for answered in self.lines.iter() {
            if let Some(reply) = answered.reply_to(line) {
                return Some(reply);
            }
        }
        None
    }

    /// Learns what a line was answered, where all stays as it is, and else forgets what it knew. Where there is no memory
    /// for it, it isn't known.
    pub(crate) fn learn(&mut self, alloc: Global, line: &[u8], answer: &Answer)
        ensures { Learns answer.now.stays self.old.lines.items line.now (string_bytes answer.now.text) self.new.lines.items }
    {
        if !answer.stays {
            self.lines.clear();
            return;
        }
        self.make_place();
        let _put = self.put(alloc, line, answer.text.as_str());
    }

    // The oldest aren't told from the others, so all go where there are too many.
    fn make_place(&mut self)
        ensures { (self.new.lines.items ≡ []) ⊎ (self.new.lines.items ≡ self.old.lines.items) }
    {
        if self.lines.len() >= MOST {
            self.lines.clear();
        }
    }

    // No room is given to what is long.
    fn put(&mut self, alloc: Global, line: &[u8], reply: &str) -> Result<(), NoMemory>
        ensures put { OnOk result (self.new.lines.items ≡ self.old.lines.items ++ (line.now, reply.now) ∷ []) }
        ensures refused { OnErr result (self.new.lines.items ≡ self.old.lines.items) }
    {
        if line.len() > LONGEST || reply.len() > LONGEST {
            return Err(NoMemory);
        }
        let answered = Answered::of(alloc, line, reply)?;
        self.lines.reserve(1)?;
        self.lines.push_reserved(answered);
        Ok(())
    }
}
