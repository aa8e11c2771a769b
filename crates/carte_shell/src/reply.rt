// What a request is answered.
ghost use Rattle.std.specs.Prelude.{◌≡◌, false, IfOk, string_bytes};
ghost use Rattle.carte_shell.specs.Replies.{plain, refusal, said};

use carte_book::Reason;
use carte_report::refused_line;
use carte_value::NoMemory;
use std::alloc::Global;

/// The reply to a request.
#[derive(Debug, Drop)]
pub struct Reply {
    /// Whole lines.
    pub text: String,
    /// Why a target has no value, where one of a build or an explanation has none. The text tells it too.
    pub refused: Option<Reason>,
    /// Whether nothing was changed, so that the same request would be answered so again.
    pub stays: bool,
}

impl Reply {
    pub(crate) fn plain(text: String) -> Reply
        ensures reply { said result ≡ plain (string_bytes text) }
        ensures stays { result.stays ≡ false }
    {
        Reply {
            text,
            refused: None,
            stays: false,
        }
    }

    /// The same to a request that changed nothing, where that is so.
    pub(crate) fn staying(self, stays: bool) -> Reply
        ensures reply { said result ≡ said self }
        ensures stays { result.stays ≡ stays }
    {
        Reply {
            text: self.text,
            refused: self.refused,
            stays,
        }
    }

    pub(crate) fn refusal(alloc: Global, reason: Reason) -> Result<Reply, NoMemory>
        ensures { IfOk result (λ reply. said reply ≡ refusal reason) }
    {
        let text = refused_line(alloc, &reason)?;
        Ok(Reply {
            text,
            refused: Some(reason),
            stays: false,
        })
    }
}
