ghost use Rattle.std.specs.Prelude.{◌≡◌};

use crate::cell::Cell;
use carte_tree::{Func, Op};
use carte_value::{Name, Text};

/// What a formula text is made of. A `Word` names a rule or an input of a rule file.
#[derive(Debug, Drop)]
pub enum Token {
    Number(i64),
    Text(Text),
    Word(Name),
    Cell(Cell),
    Func(Func),
    Op(Op),
    Open,
    Close,
    Comma,
    Colon,
}

/// A token and the place of its first byte.
#[derive(Debug, Drop)]
pub struct Placed {
    pub place: usize,
    pub token: Token,
}

/// What kind of token a run of bytes is on the way to.
#[derive(Clone, Copy, Debug, PartialEq, Eq)]
pub enum Class {
    /// A number.
    Digits,
    /// A name of a rule file.
    Word,
    /// A function's name in a rule file.
    Capitals,
    /// A cell or a function of a sheet.
    Letters,
    /// `<`, which may become `<=` or `<>`.
    Less,
    /// `>`, which may become `>=`.
    Greater,
    /// A text that goes on.
    Inside,
    /// A text that ends here, unless another quote follows.
    Quote,
}

/// A token that is its byte or two, and owns nothing.
#[derive(Clone, Copy, Debug, PartialEq, Eq)]
pub enum Sign {
    Op(Op),
    Open,
    Close,
    Comma,
    Colon,
}

impl Sign {
    ghost use Rattle.carte_lexer.specs.Tokens.{sign_token};

    /// The sign as a token.
    pub fn token(self) -> Token
        ensures { result ≡ sign_token self }
    {
        match self {
            Sign::Op(op) => Token::Op(op),
            Sign::Open => Token::Open,
            Sign::Close => Token::Close,
            Sign::Comma => Token::Comma,
            Sign::Colon => Token::Colon,
        }
    }
}

/// What a byte begins where no token is pending.
#[derive(Clone, Copy, Debug, PartialEq, Eq)]
pub enum Start {
    Blank,
    Sign(Sign),
    Run(Class),
    Wrong,
}
