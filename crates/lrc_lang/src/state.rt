// A text of which some symbols have come.

ghost use Rattle.std.specs.Prelude.{◌≡◌, ◌≤◌, is_some};
ghost use Rattle.lrc_program.specs.declared.TheConstants.{MOST_WORDS};

use crate::body::Body;
use crate::fault::FaultKind;
use crate::symbol::Symbol;
use crate::token::{Keyword, Sign};
use lrc_program::{MOST_WORDS, Program};
use std::alloc::Global;

/// What must come next.
#[derive(Clone, Copy)]
enum Stage {
    Words,
    WordsNumber,
    WordsEnd,
    Locks,
    LocksNumber,
    LocksEnd,
    Statements,
    /// Nothing: the text has ended.
    Nothing,
}

/// The state of the parser between two symbols.
#[derive(Drop)]
pub struct ParserState {
    stage: Stage,
    words: u32,
    locks: u8,
    body: Body,
    ghost some_words: { 1 ≤ words },
    ghost few_words: { words ≤ MOST_WORDS },
    ghost few_locks: { locks ≤ 64 },
}

impl ParserState {
    ghost use Rattle.lrc_lang.specs.Parser.Seen.{symbol_seen};
    ghost use Rattle.lrc_lang.specs.Parser.SeenState.{state_seen, TakesSymbol};
    ghost use Rattle.lrc_lang.specs.Parser.State.{start, in_statements, program_in, state_with};
    ghost use Rattle.lrc_program.specs.Sizes.{names_in, depth_of, most_operators};
    ghost use Rattle.lrc_program.specs.Tree.{program_of};

    /// Returns the state before the first symbol.
    pub fn start(alloc: Global) -> ParserState
        ensures { state_seen result ≡ start }
    {
        ParserState {
            stage: Stage::Words,
            words: 1,
            locks: 0,
            body: Body::start(alloc),
        }
    }

    /// Returns whether this symbol can come here, sizes aside.
    pub fn takes(&self, symbol: Symbol) -> bool
        ensures { result ≡ is_some (state_with (state_seen self.now) (symbol_seen symbol)) }
    {
        match (self.stage, symbol) {
            (Stage::Words, Symbol::Keyword(Keyword::Words))
            | (Stage::WordsNumber | Stage::LocksNumber, Symbol::Number(_))
            | (Stage::WordsEnd | Stage::LocksEnd, Symbol::Sign(Sign::Semicolon))
            | (Stage::Locks, Symbol::Keyword(Keyword::Locks)) => true,
            (Stage::Statements, _) => self.goes_on(symbol),
            _ => false,
        }
    }

    // Whether this symbol can stand among the statements, or end them.
    fn goes_on(&self, symbol: Symbol) -> bool
        ensures { result ≡ is_some (in_statements (state_seen self.now) (symbol_seen symbol)) }
    {
        match symbol {
            Symbol::End => self.body.is_whole(),
            _ => self.body.takes(symbol),
        }
    }

    /// Takes one more symbol. It fails if the symbol cannot come here, if its number is over a limit, or if memory runs
    /// out.
    pub fn take(&mut self, symbol: Symbol) -> Result<(), FaultKind>
        ensures { TakesSymbol result (state_seen self.old) (symbol_seen symbol)
            (state_seen self.new) }
    {
        match (self.stage, symbol) {
            (Stage::Words, Symbol::Keyword(Keyword::Words)) => self.stage = Stage::WordsNumber,
            (Stage::WordsNumber, Symbol::Number(words)) => {
                if words < 1 || words > u64::from(MOST_WORDS) {
                    return Err(FaultKind::OverLimit);
                }
                self.words = words as u32;
                self.stage = Stage::WordsEnd;
            }
            (Stage::WordsEnd, Symbol::Sign(Sign::Semicolon)) => self.stage = Stage::Locks,
            (Stage::Locks, Symbol::Keyword(Keyword::Locks)) => self.stage = Stage::LocksNumber,
            (Stage::LocksNumber, Symbol::Number(locks)) => {
                if locks > 64 {
                    return Err(FaultKind::OverLimit);
                }
                self.locks = locks as u8;
                self.stage = Stage::LocksEnd;
            }
            (Stage::LocksEnd, Symbol::Sign(Sign::Semicolon)) => self.stage = Stage::Statements,
            (Stage::Statements, Symbol::End) => {
                self.body.finish()?;
                self.stage = Stage::Nothing;
            }
            (Stage::Statements, _) => self.body.take(symbol)?,
            _ => return Err(FaultKind::Unexpected),
        }
        Ok(())
    }

    /// Takes out the program once the text has ended, and leaves no statements.
    pub fn take_program(&mut self) -> Program
        requires names { names_in (program_in (state_seen self.old)).statements ≤ 32 }
        requires depth { depth_of (program_in (state_seen self.old)).statements ≤ 32 }
        requires operators { most_operators (program_in (state_seen self.old)).statements ≤ 256 }
        ensures { program_of result ≡ program_in (state_seen self.old) }
    {
        Program {
            words: self.words,
            locks: self.locks,
            statements: self.body.take_statements(),
        }
    }
}
