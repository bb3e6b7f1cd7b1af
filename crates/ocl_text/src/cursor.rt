//! Tokens that are read one after another.

ghost use Rattle.std.specs.Prelude.{◌≡◌, ◌<◌, ◌+◌, [], ◌∷◌, List, length, MatchOption, MatchResult, Option, Some, None, option_map, true, false, drop, IfOk};
ghost use Rattle.ocl_base.specs.Steps.{Fails};
ghost use Rattle.ocl_tokens.specs.Terminals.{terminal};
ghost use Rattle.ocl_text.specs.declared.cursor.ParseFault.TheVariants.{OutOfMemory};
ghost use Rattle.ocl_text.specs.Grammar as grammar;
ghost use Rattle.ocl_text.specs.Parse as spec;
ghost use Rattle.ocl_text.specs.Parses.{Parses, Passes, Moves, from, left, after_next, meaning};
ghost use Rattle.ocl_text.specs.Pending as pending;
ghost use Rattle.ocl_text.specs.Tree.{SurfaceTree, TypeTree};

use crate::name::Name;
use crate::tree::{BinaryOperator, IteratorKind};
use ocl_tokens::{Token, TokenKind};
use std::alloc::{AllocError, AllocFailed, Global};

/// A place among tokens.
#[derive(Drop)]
pub(crate) struct Cursor<'t> {
    pub(crate) tokens: &'t [Token<'t>],
    /// The next token.
    pub(crate) index: usize,
    /// How many links one chain may have.
    pub(crate) chain: usize,
}

/// Why nothing was read, with the index of the refused token, or the count of tokens.
#[derive(Drop)]
pub(crate) enum ParseFault {
    Syntax(usize),
    TooDeep(usize),
    OutOfMemory,
}

impl From<AllocError> for ParseFault {
    ghost from_gives = { λ _ e. e ≡ OutOfMemory };

    fn from(_error: AllocError) -> Self {
        ParseFault::OutOfMemory
    }
}

impl<T: Drop> From<AllocFailed<T>> for ParseFault {
    ghost from_gives = { λ _ e. e ≡ OutOfMemory };

    fn from(_error: AllocFailed<T>) -> Self {
        ParseFault::OutOfMemory
    }
}

/// A token that is asked for by its kind.
#[derive(Clone, Copy)]
pub(crate) enum Mark {
    Identifier,
    Open,
    Close,
    Bar,
    Comma,
    Equal,
    Colon,
    ColonColon,
    Semicolon,
    In,
    Then,
    Else,
    Endif,
    Context,
    Inv,
}

/// What may begin at a token.
#[derive(Clone, Copy)]
pub(crate) enum Start {
    Operand,
    Expression,
    /// An argument, or the end of the arguments.
    Argument,
    Name,
}

/// How many variables an iteration may name.
#[derive(Clone, Copy)]
pub(crate) enum VariableLimit {
    OneVariable,
    TwoVariables,
}

/// A name, and where it stands in the text.
#[derive(Drop)]
pub(crate) struct PlacedName {
    pub(crate) name: Name,
    /// The name, in bytes from 0.
    pub(crate) offset: usize,
}

/// A binary operator of a text.
#[derive(Clone, Copy)]
pub(crate) struct PlacedOperator {
    pub(crate) operator: BinaryOperator,
    /// How many levels are tighter than its own.
    pub(crate) height: usize,
    /// The operator, in bytes from 0.
    pub(crate) offset: usize,
}

impl<'t> Cursor<'t> {
    /// A cursor before the first of these tokens.
    pub(crate) fn new(tokens: &'t [Token<'t>], chain: usize) -> Cursor<'t>
        ensures { result ≡ record { tokens = tokens.entry; index = 0; chain = chain } }
    {
        Cursor {
            tokens,
            index: 0,
            chain,
        }
    }

    /// The token at this index.
    fn token_at(&self, index: usize) -> Option<Token<'t>>
        ensures tokens { MatchOption result (from self.now.tokens.now index ≡ [])
            (λ t. from self.now.tokens.now index
            ≡ terminal t ∷ from self.now.tokens.now (index + 1)) }
        ensures within { MatchOption result (Unit {0})
            (λ _. index < length self.now.tokens.now) }
    {
        if index < self.tokens.len() {
            Some(self.tokens[index])
        } else {
            None
        }
    }

    /// The next token.
    pub(crate) fn peek(&self) -> Option<Token<'t>>
        ensures tokens { MatchOption result (left self.now ≡ [])
            (λ t. left self.now ≡ terminal t ∷ after_next self.now) }
        ensures within { MatchOption result (Unit {0})
            (λ _. self.now.index < length self.now.tokens.now) }
    {
        self.token_at(self.index)
    }

    /// How many tokens are left.
    #[tactic(auto, using(crate::proofs::Counts::length_left))]
    pub(crate) fn count(&self) -> usize
        ensures { result ≡ length (left self.now) }
    {
        self.tokens.len().saturating_sub(self.index)
    }

    /// Whether no token is left.
    pub(crate) fn is_done(&self) -> bool
        ensures { result ≡ spec.is_done (left self.now) }
    {
        self.peek().is_none()
    }

    /// Goes past the next token.
    pub(crate) fn advance(&mut self)
        requires { self.old.index < length self.old.tokens.now }
        ensures { self.new ≡ record self.old { index = self.old.index + 1 } }
    {
        self.index += 1;
    }

    /// Goes past the next token, which has to be there.
    pub(crate) fn next_token(&mut self) -> Result<Token<'t>, ParseFault>
        ensures tokens { MatchResult result
            (λ t. left self.old ≡ terminal t ∷ after_next self.old)
            (λ e. (e ≡ ParseFault.Syntax self.old.index) × (left self.old ≡ [])) }
        ensures moves { IfOk result (λ _.
            self.new ≡ record self.old { index = self.old.index + 1 }) }
    {
        let Some(t) = self.peek() else {
            return Err(ParseFault::Syntax(self.index));
        };
        self.advance();
        Ok(t)
    }

    /// The fault at a token round which no construct may be opened any more.
    #[tactic(auto, unfolding(crate::specs::Parse::too_deep_at))]
    pub(crate) fn too_deep(&self, start: Start) -> ParseFault
        ensures tree { Fails (meaning self.now.tokens.now) result
            (spec.too_deep_at {A = SurfaceTree} (spec.may_begin start) (left self.now)) }
        ensures declared { Fails (meaning self.now.tokens.now) result
            (spec.too_deep_at {A = TypeTree} (spec.may_begin start) (left self.now)) }
        ensures trees { Fails (meaning self.now.tokens.now) result
            (spec.too_deep_at {A = List SurfaceTree} (spec.may_begin start) (left self.now)) }
    {
        match self.peek() {
            Some(t) if may_begin(start, t.kind) => ParseFault::TooDeep(self.index),
            _ => ParseFault::Syntax(self.index),
        }
    }

    /// Whether a token of this kind comes next.
    pub(crate) fn next_is(&self, mark: Mark) -> bool
        ensures { result ≡ grammar.next_is (grammar.is_mark mark) (left self.now) }
    {
        match self.peek() {
            None => false,
            Some(t) => is_mark(mark, t.kind),
        }
    }

    /// Whether a token of this kind comes next. Goes past it.
    #[tactic(auto, using(crate::proofs::Counts::drop_left))]
    pub(crate) fn take(&mut self, mark: Mark) -> bool
        ensures value { result ≡ grammar.next_is (grammar.is_mark mark) (left self.old) }
        ensures taken { result ≡ true → drop 1 (left self.old) ≡ left self.new }
        ensures kept { result ≡ false → left self.old ≡ left self.new }
        ensures moves { Moves self.old self.new }
    {
        let Some(t) = self.peek() else {
            return false;
        };
        let is_next = is_mark(mark, t.kind);
        if is_next {
            self.advance();
        }
        is_next
    }

    /// Whether a second variable comes next, where there may be two. Goes past the comma before it.
    pub(crate) fn take_second(&mut self, limit: VariableLimit) -> bool
        ensures value { result ≡ spec.has_second limit (left self.old) }
        ensures taken { result ≡ true → drop 1 (left self.old) ≡ left self.new }
        ensures kept { result ≡ false → left self.old ≡ left self.new }
        ensures moves { Moves self.old self.new }
    {
        match limit {
            VariableLimit::OneVariable => false,
            VariableLimit::TwoVariables => self.take(Mark::Comma),
        }
    }

    /// Goes past a token of this kind, which has to come next.
    #[tactic(auto, unfolding(crate::specs::Parse::expect))]
    pub(crate) fn expect(&mut self, mark: Mark) -> Result<(), ParseFault>
        ensures { Passes self.old self.new result (spec.expect mark (left self.old)) }
    {
        let start = self.index;
        let t = self.next_token()?;
        if is_mark(mark, t.kind) {
            Ok(())
        } else {
            Err(ParseFault::Syntax(start))
        }
    }

    /// The name that has to come next.
    #[tactic(auto, unfolding(crate::specs::Parse::identifier))]
    pub(crate) fn identifier(&mut self, alloc: Global) -> Result<Name, ParseFault>
        ensures { Parses self.old self.new (λ n. n) result (spec.identifier (left self.old)) }
    {
        let start = self.index;
        let t = self.next_token()?;
        match t.kind {
            TokenKind::Identifier => Ok(Name::new(alloc, t.text)?),
            _ => Err(ParseFault::Syntax(start)),
        }
    }

    /// The name that has to come next, with its offset.
    #[tactic(auto, unfolding(crate::specs::Parse::placed_name))]
    pub(crate) fn placed_name(&mut self, alloc: Global) -> Result<PlacedName, ParseFault>
        ensures { Parses self.old self.new (λ n. (n.name, n.offset)) result
            (spec.placed_name (left self.old)) }
    {
        let start = self.index;
        let t = self.next_token()?;
        match t.kind {
            TokenKind::Identifier => {
                let name = Name::new(alloc, t.text)?;
                let offset = t.span.start;
                Ok(PlacedName { name, offset })
            }
            _ => Err(ParseFault::Syntax(start)),
        }
    }

    /// The binary operator that comes next.
    #[tactic(auto, unfolding(crate::specs::Pending::next_operator))]
    pub(crate) fn next_operator(&self) -> Option<PlacedOperator>
        ensures value { option_map (λ o. (o, after_next self.now)) result
            ≡ pending.next_operator (left self.now) }
        ensures within { MatchOption result (Unit {0})
            (λ _. self.now.index < length self.now.tokens.now) }
    {
        let t = self.peek()?;
        let (height, operator) = operator(t.kind)?;
        Some(PlacedOperator {
            operator,
            height,
            offset: t.span.start,
        })
    }

    /// Whether a dot or an arrow comes next.
    pub(crate) fn begins_step(&self) -> bool
        ensures { result ≡ grammar.next_is grammar.steps_on (left self.now) }
    {
        match self.peek() {
            None => false,
            Some(t) => matches!(t.kind, TokenKind::Dot | TokenKind::Arrow),
        }
    }

    /// Whether an iteration's variable comes next: a name, and what may follow one.
    pub(crate) fn begins_variable(&self) -> bool
        ensures { result ≡ grammar.begins_variable (left self.now) }
    {
        let Some(t) = self.peek() else {
            return false;
        };
        match t.kind {
            TokenKind::Identifier => match self.token_at(self.index + 1) {
                None => false,
                Some(next) => ends_variable(next.kind),
            },
            _ => false,
        }
    }
}

/// The binary operator that a token of this kind is, after the number of tighter levels.
fn operator(kind: TokenKind) -> Option<(usize, BinaryOperator)>
    ensures { result ≡ pending.operator_of kind }
{
    match kind {
        TokenKind::Star => Some((0, BinaryOperator::Multiply)),
        TokenKind::Div => Some((0, BinaryOperator::Divide)),
        TokenKind::Mod => Some((0, BinaryOperator::Modulo)),
        TokenKind::Plus => Some((1, BinaryOperator::Add)),
        TokenKind::Minus => Some((1, BinaryOperator::Subtract)),
        TokenKind::Less => Some((2, BinaryOperator::Less)),
        TokenKind::LessEqual => Some((2, BinaryOperator::LessEqual)),
        TokenKind::Greater => Some((2, BinaryOperator::Greater)),
        TokenKind::GreaterEqual => Some((2, BinaryOperator::GreaterEqual)),
        TokenKind::Equal => Some((3, BinaryOperator::Equal)),
        TokenKind::NotEqual => Some((3, BinaryOperator::NotEqual)),
        TokenKind::And => Some((4, BinaryOperator::And)),
        TokenKind::Or => Some((5, BinaryOperator::Or)),
        TokenKind::Xor => Some((6, BinaryOperator::Xor)),
        TokenKind::Implies => Some((7, BinaryOperator::Implies)),
        _ => None,
    }
}

fn is_mark(mark: Mark, kind: TokenKind) -> bool
    ensures { result ≡ grammar.is_mark mark kind }
{
    match (mark, kind) {
        (Mark::Identifier, TokenKind::Identifier) => true,
        (Mark::Open, TokenKind::Open) => true,
        (Mark::Close, TokenKind::Close) => true,
        (Mark::Bar, TokenKind::Bar) => true,
        (Mark::Comma, TokenKind::Comma) => true,
        (Mark::Equal, TokenKind::Equal) => true,
        (Mark::Colon, TokenKind::Colon) => true,
        (Mark::ColonColon, TokenKind::ColonColon) => true,
        (Mark::Semicolon, TokenKind::Semicolon) => true,
        (Mark::In, TokenKind::In) => true,
        (Mark::Then, TokenKind::Then) => true,
        (Mark::Else, TokenKind::Else) => true,
        (Mark::Endif, TokenKind::Endif) => true,
        (Mark::Context, TokenKind::Context) => true,
        (Mark::Inv, TokenKind::Inv) => true,
        _ => false,
    }
}

fn ends_variable(kind: TokenKind) -> bool
    ensures { result ≡ grammar.ends_variable kind }
{
    matches!(kind, TokenKind::Comma | TokenKind::Bar | TokenKind::Colon)
}

fn begins_operand(kind: TokenKind) -> bool
    ensures { result ≡ spec.begins kind }
{
    matches!(
        kind,
        TokenKind::Number(_)
            | TokenKind::Identifier
            | TokenKind::Minus
            | TokenKind::Not
            | TokenKind::Open
            | TokenKind::If
            | TokenKind::String
            | TokenKind::True
            | TokenKind::False
            | TokenKind::Null
            | TokenKind::Invalid
            | TokenKind::SelfObject
    )
}

fn may_begin(start: Start, kind: TokenKind) -> bool
    ensures { result ≡ spec.may_begin start kind }
{
    match (start, kind) {
        (Start::Expression, TokenKind::Let) => true,
        (Start::Argument, TokenKind::Close) => true,
        (Start::Name, TokenKind::Identifier) => true,
        (Start::Name, _) => false,
        _ => begins_operand(kind),
    }
}

/// The iteration that a name after an arrow names.
pub(crate) fn iterator_of(text: &str) -> Option<IteratorKind>
    ensures { result ≡ grammar.iterator_of text.now }
{
    match text {
        "forAll" => Some(IteratorKind::ForAll),
        "exists" => Some(IteratorKind::Exists),
        "select" => Some(IteratorKind::Select),
        "reject" => Some(IteratorKind::Reject),
        "collect" => Some(IteratorKind::Collect),
        "one" => Some(IteratorKind::One),
        "isUnique" => Some(IteratorKind::IsUnique),
        _ => None,
    }
}

/// Whether a name after an arrow takes a variable, an accumulator and a body.
pub(crate) fn is_fold_name(text: &str) -> bool
    ensures { result ≡ grammar.is_fold_name text.now }
{
    text == "iterate"
}

/// How many variables an iteration may name.
pub(crate) fn variable_limit(iterator: IteratorKind) -> VariableLimit
    ensures { result ≡ grammar.variable_limit iterator }
{
    match iterator {
        IteratorKind::ForAll | IteratorKind::Exists => VariableLimit::TwoVariables,
        _ => VariableLimit::OneVariable,
    }
}
