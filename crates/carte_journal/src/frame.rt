// A body as it is written to a journal.
ghost use Rattle.std.specs.Prelude.{◌≡◌, ◌<◌, ◌^◌, false, length, IfOk};
ghost use Rattle.carte_bank.specs.Moves.{is_move};
ghost use Rattle.carte_journal.specs.Frames.{piece_of};

use carte_value::NoMemory;
use std::alloc::Global;
use std::marker::Model;

/// A body that is ready to be written. It is made before a commit, so that the commit needs no memory.
#[derive(Drop)]
pub struct Frame {
    piece: Vec<u8>,
}

impl Model for Frame {
    ghost use Rattle.std.specs.Prelude.{◌≡◌, ◌<◌, ◌^◌, ℕ, List, false, length};
    ghost use Rattle.carte_bank.specs.Moves.{is_move};
    ghost use Rattle.carte_journal.specs.Frames.{body_in, piece_of};

    ghost Value = { List ℕ };

    ghost view = { λ f. body_in f.piece.items };

    ghost invariant = { λ f. (f.piece.items ≡ piece_of (body_in f.piece.items)) × (length (body_in f.piece.items) < 2 ^ 32)
        × (is_move (body_in f.piece.items) ≡ false) };
}

impl Frame {
    /// The frame of a body, which is no move: 9 bytes, the first of them 2, would lead a reader away.
    pub fn of(alloc: Global, body: &[u8]) -> Result<Frame, NoMemory>
        requires short { length body.now < 2 ^ 32 }
        requires other { is_move body.now ≡ false }
        ensures { IfOk result (λ f. f ≡ body.now) }
    {
        let mut piece = Vec::with_capacity(alloc, body.len() + 5)?;
        piece.extend_from_slice(body)?;
        Frame::made(piece)
    }

    /// The same of a body that stays where it is, so that a large one isn't held twice. It takes 5 bytes more.
    pub fn made(body: Vec<u8>) -> Result<Frame, NoMemory>
        requires short { length body.items < 2 ^ 32 }
        requires other { is_move body.items ≡ false }
        ensures { IfOk result (λ f. f ≡ body.items) }
    {
        let [first, second, third, fourth] = (body.len() as u32).to_be_bytes();
        let mut piece = body;
        piece.push(0)?;
        piece.insert(0, fourth)?;
        piece.insert(0, third)?;
        piece.insert(0, second)?;
        piece.insert(0, first)?;
        Ok(Frame { piece })
    }

    /// The length of its body.
    pub(crate) fn len(&self) -> usize
        ensures len { result ≡ length self.now }
        ensures short { length self.now < 2 ^ 32 }
    {
        self.piece.len() - 5
    }

    /// The bytes behind its gate byte.
    pub(crate) fn piece(&self) -> &[u8]
        ensures piece { result.now ≡ piece_of self.now }
        ensures short { length self.now < 2 ^ 32 }
        ensures other { is_move self.now ≡ false }
    {
        &self.piece
    }
}
