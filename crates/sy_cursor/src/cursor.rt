//! A cursor over the tokens.

ghost use Rattle.std.specs.Prelude.{◌≡◌, length};
ghost use Rattle.sy_tree.specs.Qualification as qualification;
ghost use Rattle.sy_tree.specs.Units as units;
ghost use Rattle.sy_reading.specs.Input as spec;
ghost use Rattle.sy_cursor.specs.Reads.{Reads};

use std::alloc::{AllocError, Global};
use sy_lex::{Row, Text, Token, Word};
use sy_note::Spot;
use sy_tree::{Lexeme, Qualified};
use thiserror::Error;

/// Why a reader stops. Where the grammar stops it, the cursor stands at the token that doesn't fit.
#[derive(Clone, Copy, Debug, PartialEq, Eq, Error)]
pub enum Stop {
    #[error("the tokens don't fit the grammar")]
    Grammar,
    #[error("out of memory")]
    Memory,
}

impl From<AllocError> for Stop {
    ghost use Rattle.std.specs.Prelude.{◌≡◌};
    ghost use Rattle.sy_cursor.specs.declared.cursor.Stop.TheVariants.{Memory};

    ghost from_gives = { λ _ e. e ≡ Memory };

    fn from(_: AllocError) -> Stop {
        Stop::Memory
    }
}

/// A part of a tree, and the height of the highest node in it.
pub type WithHeight<A> = (A, u32);

/// The greatest height of a tree.
pub const MAX_HEIGHT: u32 = 64;

/// A cursor over tokens.
#[derive(Drop)]
pub struct Tokens<'a> {
    pub alloc: Global,
    pub rest: &'a [Token],
    /// The token that was taken last, with those behind it.
    pub taken: &'a [Token],
}

/// A node over children of that height, unless it is too high.
pub fn check_height<A: Drop>(
    tokens: &Tokens<'_>,
    tree: A,
    height: u32,
) -> Result<WithHeight<A>, Stop>
    ensures { Reads (spec.check_height tree height tokens.now.rest.now) result tokens.now.rest.now }
{
    if height < MAX_HEIGHT {
        Ok((tree, height + 1))
    } else {
        Err(Stop::Grammar)
    }
}

fn same_row(row: Row, other: Row) -> bool
    ensures { result ≡ qualification.same_row row other }
{
    matches!(
        (row, other),
        (Row::Ident, Row::Ident)
            | (Row::Reserved, Row::Reserved)
            | (Row::Int, Row::Int)
            | (Row::Char, Row::Char)
            | (Row::Str, Row::Str)
            | (Row::Include, Row::Include)
            | (Row::Mark, Row::Mark)
    )
}

fn is_word(word: &Word, row: Row, text: &[u8]) -> bool
    ensures { result ≡ spec.is_word row text.now word.now }
{
    same_row(word.row, row) && word.text.items() == text
}

macro_rules! is_one_of {
    ($text:expr; $($word:literal),+) => {
        $($text == $word.as_slice())||+
    };
}

fn ends_by(word: &Word) -> bool
    ensures { result ≡ units.ends_by word.now }
{
    let text = word.text.items();
    same_row(word.row, Row::Mark)
        && is_one_of!(
            text;
            b")", b"]", b"}", b",", b";", b":", b"=", b"+=", b"-=", b"*=", b"/=", b"%=", b"&=", b"|=", b"^=", b"<<=", b">>="
        )
}

impl<'a> Tokens<'a> {
    /// A cursor at the first of these tokens.
    pub fn new(alloc: Global, tokens: &'a [Token]) -> Tokens<'a>
        ensures { result.rest.now ≡ tokens.now }
    {
        Tokens {
            alloc,
            rest: tokens,
            taken: tokens,
        }
    }

    /// Whether the next token ends an expression.
    pub fn ends(&self) -> bool
        ensures { result ≡ units.ends self.now.rest.now }
    {
        match self.rest {
            [] => false,
            [first, ..] => ends_by(&first.word),
        }
    }

    /// How many tokens are left.
    pub fn count_left(&self) -> usize
        ensures { result ≡ length self.now.rest.now }
    {
        self.rest.len()
    }

    /// The tokens behind the next one.
    pub fn behind(&self) -> Tokens<'a>
        ensures { result.rest.now ≡ spec.next self.now.rest.now }
    {
        let rest = match self.rest {
            [] => self.rest,
            [_, rest @ ..] => rest,
        };
        Tokens::new(self.alloc, rest)
    }

    /// Whether that word comes next.
    #[tactic(auto, unfolding(sy_reading::specs::Input::sees))]
    pub fn sees(&self, row: Row, text: &[u8]) -> bool
        ensures { result ≡ spec.sees row text.now self.now.rest.now }
    {
        match self.rest {
            [] => false,
            [first, ..] => is_word(&first.word, row, text),
        }
    }

    /// Whether a word of that row comes next.
    #[tactic(auto, unfolding(sy_reading::specs::Input::sees_row))]
    pub fn sees_row(&self, row: Row) -> bool
        ensures { result ≡ spec.sees_row row self.now.rest.now }
    {
        match self.rest {
            [] => false,
            [first, ..] => same_row(first.word.row, row),
        }
    }

    /// Whether a name of that namespace comes next.
    #[tactic(auto, unfolding(sy_reading::specs::Input::sees_namespace))]
    pub fn sees_namespace(&self, space: &[u8]) -> bool
        ensures { result ≡ spec.sees_namespace space.now self.now.rest.now }
    {
        self.sees(Row::Ident, space) && self.behind().sees(Row::Mark, b"::")
    }

    /// The text of the next token if it is a mark, or an empty text.
    #[tactic(auto, unfolding(sy_reading::specs::Input::mark_text))]
    pub fn mark(&self) -> &'a [u8]
        ensures { result.now ≡ spec.mark_text self.now.rest.now }
    {
        match self.rest {
            [] => &[],
            [first, ..] => {
                if same_row(first.word.row, Row::Mark) {
                    first.word.text.items()
                } else {
                    &[]
                }
            }
        }
    }

    /// Takes that word, and gives its place.
    #[tactic(auto, unfolding(sy_reading::specs::Input::expect))]
    pub fn expect(&mut self, row: Row, text: &[u8]) -> Result<Spot, Stop>
        ensures { Reads (spec.expect row text.now self.old.rest.now) result self.new.rest.now }
    {
        match self.rest {
            [] => Err(Stop::Grammar),
            [first, rest @ ..] => {
                if is_word(&first.word, row, text) {
                    self.taken = self.rest;
                    self.rest = rest;
                    Ok(first.spot)
                } else {
                    Err(Stop::Grammar)
                }
            }
        }
    }

    /// Takes any token, and gives its place.
    #[tactic(auto, unfolding(sy_reading::specs::Input::advance))]
    pub fn advance(&mut self) -> Result<Spot, Stop>
        ensures { Reads (spec.advance self.old.rest.now) result self.new.rest.now }
    {
        match self.rest {
            [] => Err(Stop::Grammar),
            [first, rest @ ..] => {
                self.taken = self.rest;
                self.rest = rest;
                Ok(first.spot)
            }
        }
    }

    /// Takes a token of that row, with a copy of its text.
    #[tactic(auto, unfolding(sy_reading::specs::Input::expect_row))]
    pub fn expect_row(&mut self, row: Row) -> Result<Lexeme, Stop>
        ensures { Reads (spec.expect_row row self.old.rest.now) result self.new.rest.now }
    {
        match self.rest {
            [] => Err(Stop::Grammar),
            [first, rest @ ..] => {
                if same_row(first.word.row, row) {
                    let text = Text::copied(self.alloc, first.word.text.items())?;
                    self.taken = self.rest;
                    self.rest = rest;
                    Ok(Lexeme {
                        spot: first.spot,
                        text,
                    })
                } else {
                    Err(Stop::Grammar)
                }
            }
        }
    }

    /// Refuses the token that was taken last: the cursor stands at it again.
    pub fn refusal(&mut self) -> Stop
        ensures stop { result ≡ Stop.Grammar }
        ensures place { self.new.rest.now ≡ self.old.taken.now }
    {
        self.rest = self.taken;
        Stop::Grammar
    }

    /// Takes that word, if it comes next.
    #[tactic(auto, unfolding(sy_reading::specs::Input::after))]
    pub fn eat(&mut self, row: Row, text: &[u8]) -> bool
        ensures found { result ≡ spec.sees row text.now self.old.rest.now }
        ensures after { self.new.rest.now ≡ spec.after row text.now self.old.rest.now }
    {
        let found = self.sees(row, text);
        if found {
            self.taken = self.rest;
            self.rest = self.behind().rest;
        }
        found
    }

    /// Takes any name of that namespace.
    #[tactic(auto, unfolding(sy_reading::specs::Input::expect_name))]
    pub fn expect_name(&mut self, space: &[u8]) -> Result<(Spot, Lexeme), Stop>
        ensures { Reads (spec.expect_name space.now self.old.rest.now) result self.new.rest.now }
    {
        let namespace = self.expect(Row::Ident, space)?;
        self.expect(Row::Mark, b"::")?;
        let name = self.expect_row(Row::Ident)?;
        Ok((namespace, name))
    }

    /// Takes that name of that namespace.
    #[tactic(auto, unfolding(sy_reading::specs::Input::within))]
    pub fn within(&mut self, space: &[u8], text: &[u8]) -> Result<Qualified, Stop>
        ensures { Reads (spec.within space.now text.now self.old.rest.now) result self.new.rest.now }
    {
        let namespace = self.expect(Row::Ident, space)?;
        self.expect(Row::Mark, b"::")?;
        let name = self.expect(Row::Ident, text)?;
        Ok(Qualified { namespace, name })
    }
}
