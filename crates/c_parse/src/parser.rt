//! The parser.

ghost use Rattle.std.specs.Prelude.{◌≡◌, ◌⊎◌, List, [], IfErr, IfOk, MatchResult, Ok, Err};
ghost use Rattle.c_tree.specs.declared.external.External.{External};
ghost use Rattle.c_productions.specs.refinement.Meaning.{lowest};
ghost use Rattle.c_parse.specs.refinement.Calls.{Finishes, IsLow, ReadsToken, Starts, goal_of};
ghost use Rattle.c_parse.specs.Units.{ParsesTo, Parses, Stops, Tells};

use crate::fault::CParse;
use crate::runs::{Taking, finish, take};
use crate::steps::Goal;
use crate::waiting::Waiting;
use c_productions::{Kind, Value};
use c_token::Token;
use c_tree::{External, Unit};
use std::alloc::{AllocError, Global};

/// The greatest height of a unit.
const MOST_HIGH: usize = 200;

/// What has been read.
#[derive(Drop)]
struct Parser {
    /// The external declarations that are whole.
    done: Unit,
    /// Where the next one begins.
    at: usize,
    goal: Goal,
    waiting: Waiting,
}

impl Parser {
    /// Before an external declaration. Takes no memory.
    fn new(alloc: Global, done: Unit, at: usize) -> Self
        ensures { result ≡ record { done = done; at = at; goal = Goal.Made Kind.External Value.Start; waiting = [] } }
    {
        Parser {
            done,
            at,
            goal: Goal::Made(Kind::External, Value::Start),
            waiting: Waiting::new(alloc),
        }
    }

    /// ReadsToken the first token of an external declaration.
    fn begin(alloc: Global, done: Unit, token: &Token) -> Result<Self, CParse>
        ensures { Starts done token.now result }
    {
        let goal = Goal::Made(Kind::External, Value::Start);
        let mut waiting = Waiting::new(alloc);
        let at = token.at;
        match take(alloc, &mut waiting, goal, &token.word)? {
            Taking::Taken(goal) => Ok(Parser {
                done,
                at,
                goal,
                waiting,
            }),
            // It would have no words, which never comes.
            Taking::Whole(_, _) => Err(CParse::Memory),
            Taking::Refused => Err(CParse::Syntax { at }),
        }
    }

    /// ReadsToken a token, which may be the first of an external declaration.
    fn read(self, alloc: Global, token: &Token) -> Result<Self, CParse>
        ensures { ReadsToken self token.now result }
    {
        let Parser {
            done,
            at,
            goal,
            mut waiting,
        } = self;
        match take(alloc, &mut waiting, goal, &token.word)? {
            Taking::Taken(goal) => Ok(Parser {
                done,
                at,
                goal,
                waiting,
            }),
            Taking::Whole(specifier, form) => {
                let done = done.with(External {
                    at,
                    specifier,
                    form,
                })?;
                Parser::begin(alloc, done, token)
            }
            Taking::Refused => Err(CParse::Syntax { at: token.at }),
        }
    }

    /// The least height of the external declaration that is being read.
    fn lowest(&self) -> Result<usize, AllocError>
        ensures { IfOk result (λ n. n ≡ lowest (goal_of self.now.goal) self.now.waiting) }
    {
        self.goal.lowest(&self.waiting)
    }

    /// The same, if what is being read may be low enough. `at` is the place of the last token.
    fn low_enough(self, at: usize) -> Result<Self, CParse>
        ensures { IsLow self at result }
    {
        match self.lowest() {
            Ok(height) => {
                if height > MOST_HIGH {
                    return Err(self.given_up(CParse::TooDeep { at }));
                }
                Ok(self)
            }
            Err(_) => Err(self.given_up(CParse::Memory)),
        }
    }

    /// The fault for which it is given up.
    fn given_up(self, fault: CParse) -> CParse
        ensures { result ≡ fault }
    {
        fault
    }

    /// The unit, where the tokens end.
    fn finish(self, alloc: Global, end: usize) -> Result<Unit, CParse>
        ensures { Finishes self end result }
    {
        let Parser {
            done,
            at,
            goal,
            mut waiting,
        } = self;
        match finish(alloc, &mut waiting, goal)? {
            Some((specifier, form)) => Ok(done.with(External {
                at,
                specifier,
                form,
            })?),
            None => Err(CParse::Syntax { at: end }),
        }
    }
}

/// What the tokens are, or why they aren't read.
fn unit_of(alloc: Global, tokens: &[Token], end: usize) -> Result<Unit, CParse>
    ensures { ParsesTo tokens.now end result }
{
    let Some(first) = tokens.first() else {
        return Ok(Unit::new(alloc));
    };
    let mut parser = Parser::new(alloc, Unit::new(alloc), first.at);
    for token in tokens {
        let next = match parser.read(alloc, token) {
            Ok(next) => next,
            Err(fault) => return Err(fault),
        };
        parser = match next.low_enough(token.at) {
            Ok(low) => low,
            Err(fault) => return Err(fault),
        };
    }
    parser.finish(alloc, end)
}

/// The translation unit that the tokens are (C11, 6.9), of a height of at most 200. `end` is where the source ends.
///
/// Any other tokens have a first place up to which no such unit begins: `Syntax` where none begins at all, `TooDeep`
/// where each is too high. `Memory` where memory ran out. It takes time in proportion to the tokens, whatever stands in
/// what, and doesn't recurse.
pub fn parse(alloc: Global, tokens: &[Token], end: usize) -> Result<Unit, CParse>
    // What is given is what the tokens are by the grammar, and low enough.
    ensures found { IfOk result (Parses tokens.now) }
    // What the tokens are is given, unless memory runs out.
    ensures only { (unit : List External) → Parses tokens.now unit → MatchResult result (λ u. u ≡ unit) (λ e. e ≡ CParse.Memory) }
    // A fault is where the tokens cease to be the beginning of a unit.
    ensures fault { IfErr result (Tells tokens.now end) }
    // Where they cease is told, unless memory runs out.
    ensures stops { (e : CParse) → Stops tokens.now end e → (result ≡ Err e) ⊎ (result ≡ Err CParse.Memory) }
{
    unit_of(alloc, tokens, end)
}
