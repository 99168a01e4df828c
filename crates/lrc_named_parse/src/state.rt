// A named program of which some tokens have come.

ghost use Rattle.std.specs.Prelude.{◌≡◌, ◌&&◌, ℕ, List, is_some, map, IfOk};
ghost use Rattle.lrc_named_expression.specs.Partial.{nothing, partial_with, value_of};
ghost use Rattle.lrc_named_expression.specs.Seen.{partial_seen};
ghost use Rattle.lrc_named_statement.specs.Body.{start as no_statements, whole_of};
ghost use Rattle.lrc_named_statement.specs.Seen.{body_seen};
ghost use Rattle.lrc_lang.specs.Parser.Seen.{GivesNew};
ghost use Rattle.lrc_named_parse.specs.State.{Items as ItemsSeen};
ghost use Rattle.lrc_named_parse.specs.State.{start, state_with, moved, in_expression, continued, expressed, finished};
ghost use Rattle.lrc_named_parse.specs.State.{begin, begin_either, go_on, declared, is_ending, before_item, items_from, items_declared, with_next};
ghost use Rattle.lrc_named_parse.specs.State.{name_constant, name_item, name_function, name_parameter, behind_count, end_count, behind_constant};
ghost use Rattle.lrc_named_parse.specs.State.{behind_item, behind_function, behind_opening, behind_parameter, behind_parameters};
ghost use Rattle.lrc_named_parse.specs.SeenState.{Steps, state_seen, declared_seen, shared_seen, items_seen, purpose_seen};
ghost use Rattle.lrc_named_tokens.specs.View.{token_of};
ghost use Rattle.lrc_named_tree.specs.Tree.{Declaration as DeclarationSeen, Expressions, Named};
ghost use Rattle.lrc_named_tree.specs.View.{named_of, expression_of, expressions_of, block_of, declaration_of};

use lrc_lang::fault::FaultKind;
use lrc_named_expression::partial::Partial;
use lrc_named_statement::body::Body;
use lrc_named_tokens::token::{Keyword, Sign, Token};
use lrc_named_tree::tree::{Declaration, Expression, Name, NamedProgram, Place};
use std::alloc::{AllocError, Global};
use std::mem;

/// What items are.
#[derive(Clone, Copy)]
enum Shared {
    Words,
    Locks,
}

/// Items of which some have come.
#[derive(Drop)]
struct Items<'t> {
    /// Which token the declaration begins with.
    first: u32,
    are: Shared,
    /// The items before the last one.
    before: Vec<Place<'t>>,
}

/// What a declaration uses an expression for.
#[derive(Drop)]
enum Purpose<'t> {
    Constant(u32, Name<'t>),
    /// A size of an item, behind these.
    Size(Items<'t>, Name<'t>, Vec<Expression<'t>>),
    /// The body of a function with these parameters.
    Body(u32, Name<'t>, Vec<Name<'t>>),
}

/// Where the last token left the parser. A first number is which token the declaration begins with.
#[derive(Drop)]
enum Stage<'t> {
    /// The first declaration must begin.
    First,
    /// A declaration may begin, or the statements.
    AtDeclaration,
    BeforeCount(u32),
    AfterCount(u32, u64),
    BeforeConstant(u32),
    AfterConstant(u32, Name<'t>),
    BeforeItem(Items<'t>),
    AfterItem(Items<'t>, Name<'t>, Vec<Expression<'t>>),
    BeforeFunction(u32),
    AfterFunction(u32, Name<'t>),
    /// After the `(` of a function.
    BeforeFirst(u32, Name<'t>),
    BeforeParameter(u32, Name<'t>, Vec<Name<'t>>),
    AfterParameter(u32, Name<'t>, Vec<Name<'t>>),
    AfterParameters(u32, Name<'t>, Vec<Name<'t>>),
    InExpression(Purpose<'t>),
    InStatements,
    Ended,
}

/// The state of the parser between two tokens.
#[derive(Drop)]
pub struct State<'t> {
    alloc: Global,
    declarations: Vec<Declaration<'t>>,
    stage: Stage<'t>,
    /// The expression being parsed, if the stage is in one.
    expression: Partial<'t>,
    /// The statements being parsed, if the stage is in them.
    body: Body<'t>,
}

impl<'t> Purpose<'t> {
    // Whether a token ends an expression that stands for this.
    fn is_ended_by(&self, token: Token<'_>) -> bool
        ensures { result ≡ is_ending (purpose_seen self.now) (token_of token.entry) }
    {
        match token {
            Token::Sign(Sign::Semicolon) => {
                matches!(self, Purpose::Constant(_, _) | Purpose::Body(_, _, _))
            }
            Token::Sign(Sign::CloseBracket) => matches!(self, Purpose::Size(_, _, _)),
            _ => false,
        }
    }
}

// Whether a declaration may begin with this.
fn begins_declaration(token: Token<'_>) -> bool
    ensures { (before : List DeclarationSeen) (at : ℕ) → result
        ≡ is_some (begin before at (token_of token.entry)) }
{
    matches!(
        token,
        Token::Keyword(
            Keyword::Nodes | Keyword::Const | Keyword::Shared | Keyword::Lock | Keyword::Fn
        )
    )
}

// Whether this may stand where a name must.
fn is_name(token: Token<'_>) -> bool
    ensures constant { (before : List DeclarationSeen) (first at : ℕ) → result
        ≡ is_some (name_constant before first at (token_of token.entry)) }
    ensures item { (before : List DeclarationSeen) (items : ItemsSeen) (at : ℕ) → result
        ≡ is_some (name_item before items at (token_of token.entry)) }
    ensures function { (before : List DeclarationSeen) (first at : ℕ) → result
        ≡ is_some (name_function before first at (token_of token.entry)) }
    ensures parameter { (before : List DeclarationSeen) (first : ℕ) (name : Named)
        (parameters : List Named) (at : ℕ) → result
        ≡ is_some (name_parameter before first name parameters at (token_of token.entry)) }
{
    matches!(token, Token::Name(_))
}

// Whether this is a number.
fn is_number(token: Token<'_>) -> bool
    ensures { (before : List DeclarationSeen) (first : ℕ) → result
        ≡ is_some (behind_count before first (token_of token.entry)) }
{
    matches!(token, Token::Number(_))
}

// Whether this is `;`.
fn is_semicolon(token: Token<'_>) -> bool
    ensures { (before : List DeclarationSeen) (first count : ℕ) → result
        ≡ is_some (end_count before first count (token_of token.entry)) }
{
    matches!(token, Token::Sign(Sign::Semicolon))
}

// Whether this is `=`.
fn is_assign(token: Token<'_>) -> bool
    ensures constant { (before : List DeclarationSeen) (first : ℕ) (name : Named) → result
        ≡ is_some (behind_constant before first name (token_of token.entry)) }
    ensures function { (before : List DeclarationSeen) (first : ℕ) (name : Named)
        (parameters : List Named) → result
        ≡ is_some (behind_parameters before first name parameters (token_of token.entry)) }
{
    matches!(token, Token::Sign(Sign::Assign))
}

// Whether this may stand behind an item.
fn follows_item(token: Token<'_>) -> bool
    ensures { (before : List DeclarationSeen) (items : ItemsSeen) (name : Named)
        (sizes : Expressions) → result
        ≡ is_some (behind_item before items name sizes (token_of token.entry)) }
{
    matches!(
        token,
        Token::Sign(Sign::OpenBracket | Sign::Comma | Sign::Semicolon)
    )
}

// Whether this is `(`.
fn is_opening(token: Token<'_>) -> bool
    ensures { (before : List DeclarationSeen) (first : ℕ) (name : Named) → result
        ≡ is_some (behind_function before first name (token_of token.entry)) }
{
    matches!(token, Token::Sign(Sign::OpenParenthesis))
}

// Whether this may stand behind the `(` of a function.
fn follows_opening(token: Token<'_>) -> bool
    ensures { (before : List DeclarationSeen) (first : ℕ) (name : Named) (at : ℕ) → result
        ≡ is_some (behind_opening before first name at (token_of token.entry)) }
{
    matches!(token, Token::Name(_) | Token::Sign(Sign::CloseParenthesis))
}

// Whether this may stand behind a parameter.
fn follows_parameter(token: Token<'_>) -> bool
    ensures { (before : List DeclarationSeen) (first : ℕ) (name : Named) (parameters : List Named) →
        result ≡ is_some (behind_parameter before first name parameters (token_of token.entry)) }
{
    matches!(token, Token::Sign(Sign::Comma | Sign::CloseParenthesis))
}

// Whether this may stand behind a declaration: another one or a statement begins, or the text ends.
fn follows_declaration(token: Token<'_>) -> bool
    ensures { (before : List DeclarationSeen) (at : ℕ) → result
        ≡ is_some (begin_either before at (token_of token.entry)) }
{
    matches!(
        token,
        Token::End
            | Token::Name(_)
            | Token::Keyword(
                Keyword::Nodes
                    | Keyword::Const
                    | Keyword::Shared
                    | Keyword::Lock
                    | Keyword::Fn
                    | Keyword::Acquire
                    | Keyword::Release
                    | Keyword::With
                    | Keyword::Barrier
                    | Keyword::Print
                    | Keyword::Assert
                    | Keyword::If
                    | Keyword::While
                    | Keyword::For
            )
    )
}

impl<'t> State<'t> {
    /// Returns whether `take` accepts this token.
    pub fn takes(&self, token: Token<'_>) -> bool
        ensures { (at : ℕ) → result
            ≡ is_some (state_with (state_seen self.now) at (token_of token.entry)) }
    {
        match &self.stage {
            Stage::First => begins_declaration(token),
            Stage::AtDeclaration => follows_declaration(token),
            Stage::BeforeCount(_) => is_number(token),
            Stage::AfterCount(_, _) => is_semicolon(token),
            Stage::BeforeConstant(_) => is_name(token),
            Stage::AfterConstant(_, _) => is_assign(token),
            Stage::BeforeItem(_) => is_name(token),
            Stage::AfterItem(_, _, _) => follows_item(token),
            Stage::BeforeFunction(_) => is_name(token),
            Stage::AfterFunction(_, _) => is_opening(token),
            Stage::BeforeFirst(_, _) => follows_opening(token),
            Stage::BeforeParameter(_, _, _) => is_name(token),
            Stage::AfterParameter(_, _, _) => follows_parameter(token),
            Stage::AfterParameters(_, _, _) => is_assign(token),
            Stage::InExpression(purpose) => self.is_within(purpose, token),
            Stage::InStatements => self.follows_statements(token),
            Stage::Ended => false,
        }
    }

    // Whether this may stand in an expression, or end it.
    fn is_within(&self, purpose: &Purpose<'t>, token: Token<'_>) -> bool
        ensures { (before : List DeclarationSeen) (at : ℕ) → result ≡ is_some (moved before
            (in_expression (purpose_seen purpose.now) (partial_seen self.now.expression)) at
            (token_of token.entry)) }
    {
        self.ends(purpose, token) || self.expression.takes(token)
    }

    // Whether this token ends the expression.
    fn ends(&self, purpose: &Purpose<'t>, token: Token<'_>) -> bool
        ensures { result ≡ (is_some (value_of (partial_seen self.now.expression))
            && is_ending (purpose_seen purpose.now) (token_of token.entry)) }
    {
        self.expression.is_whole() && purpose.is_ended_by(token)
    }

    // Whether this may stand in the statements, or end them.
    fn follows_statements(&self, token: Token<'_>) -> bool
        ensures { (before : List DeclarationSeen) (at : ℕ) → result
            ≡ is_some (go_on before (body_seen self.now.body) at (token_of token.entry)) }
    {
        match token {
            Token::End => self.body.is_whole(),
            _ => self.body.takes(token),
        }
    }

    /// Returns the state before the first token.
    pub fn start(alloc: Global) -> Self
        ensures { state_seen result ≡ start }
    {
        State {
            alloc,
            declarations: Vec::new(alloc),
            stage: Stage::First,
            expression: Partial::empty(alloc),
            body: Body::start(alloc),
        }
    }

    /// Takes one more token, of this index among those of its text. It fails if the token cannot come here, or if memory
    /// runs out.
    pub fn take(&mut self, at: u32, token: Token<'t>) -> Result<(), FaultKind>
        ensures { GivesNew result (state_seen self.new)
            (state_with (state_seen self.old) at (token_of token.entry)) }
    {
        match mem::replace(&mut self.stage, Stage::Ended) {
            Stage::First => self.begin(at, token),
            Stage::AtDeclaration => self.begin_either(at, token),
            Stage::BeforeCount(first) => self.behind_count(first, token),
            Stage::AfterCount(first, count) => self.end_count(first, count, token),
            Stage::BeforeConstant(first) => self.name_constant(first, at, token),
            Stage::AfterConstant(first, name) => self.behind_constant(first, name, token),
            Stage::BeforeItem(items) => self.name_item(items, at, token),
            Stage::AfterItem(items, name, sizes) => self.behind_item(items, name, sizes, token),
            Stage::BeforeFunction(first) => self.name_function(first, at, token),
            Stage::AfterFunction(first, name) => self.behind_function(first, name, token),
            Stage::BeforeFirst(first, name) => self.behind_opening(first, name, at, token),
            Stage::BeforeParameter(first, name, parameters) => {
                self.name_parameter(first, name, parameters, at, token)
            }
            Stage::AfterParameter(first, name, parameters) => {
                self.behind_parameter(first, name, parameters, token)
            }
            Stage::AfterParameters(first, name, parameters) => {
                self.behind_parameters(first, name, parameters, token)
            }
            Stage::InExpression(purpose) => self.go_on_with(purpose, at, token),
            Stage::InStatements => self.go_on(at, token),
            Stage::Ended => Err(FaultKind::Unexpected),
        }
    }

    /// Takes out the declarations and the statements that have come, and leaves none.
    pub fn take_program(&mut self) -> NamedProgram<'t>
        ensures declarations { map declaration_of result.declarations.items ≡ declared_seen self.old }
        ensures statements { block_of result.statements.items ≡ (body_seen self.old.body).before }
    {
        NamedProgram {
            declarations: mem::replace(&mut self.declarations, Vec::new(self.alloc)),
            statements: self.body.take_statements(),
        }
    }

    // The last token has led here.
    fn go_to(&mut self, stage: Stage<'t>)
        ensures declarations { self.new.declarations ≡ self.old.declarations }
        ensures expression { self.new.expression ≡ self.old.expression }
        ensures body { self.new.body ≡ self.old.body }
        ensures stage { self.new.stage ≡ stage.entry }
    {
        self.stage = stage;
    }

    // An expression begins.
    fn express(&mut self, purpose: Purpose<'t>)
        ensures declarations { self.new.declarations ≡ self.old.declarations }
        ensures stage { (state_seen self.new).stage ≡ in_expression (purpose_seen purpose.entry) nothing }
    {
        self.expression.clear();
        self.go_to(Stage::InExpression(purpose));
    }

    // A declaration is complete.
    fn declared(&mut self, declaration: Declaration<'t>) -> Result<(), FaultKind>
        ensures { Steps result self.old self.new
            (λ before. declared before (declaration_of declaration.entry)) }
    {
        self.declarations.push(declaration)?;
        self.go_to(Stage::AtDeclaration);
        Ok(())
    }

    // Where a declaration must begin.
    fn begin(&mut self, at: u32, token: Token<'t>) -> Result<(), FaultKind>
        ensures { Steps result self.old self.new
            (λ before. begin before at (token_of token.entry)) }
    {
        match token {
            Token::Keyword(Keyword::Nodes) => self.go_to(Stage::BeforeCount(at)),
            Token::Keyword(Keyword::Const) => self.go_to(Stage::BeforeConstant(at)),
            Token::Keyword(Keyword::Shared) => self.begin_items(at, Shared::Words),
            Token::Keyword(Keyword::Lock) => self.begin_items(at, Shared::Locks),
            Token::Keyword(Keyword::Fn) => self.go_to(Stage::BeforeFunction(at)),
            _ => return Err(FaultKind::Unexpected),
        }
        Ok(())
    }

    // Items begin.
    fn begin_items(&mut self, first: u32, are: Shared)
        ensures declarations { self.new.declarations ≡ self.old.declarations }
        ensures stage { (state_seen self.new).stage ≡ before_item (items_from first (shared_seen are)) }
    {
        self.go_to(Stage::BeforeItem(Items {
            first,
            are,
            before: Vec::new(self.alloc),
        }));
    }

    // Where a declaration may begin, or the statements.
    fn begin_either(&mut self, at: u32, token: Token<'t>) -> Result<(), FaultKind>
        ensures { Steps result self.old self.new
            (λ before. begin_either before at (token_of token.entry)) }
    {
        match token {
            Token::Keyword(
                Keyword::Nodes | Keyword::Const | Keyword::Shared | Keyword::Lock | Keyword::Fn,
            ) => self.begin(at, token),
            _ => {
                self.begin_statements();
                self.go_on(at, token)
            }
        }
    }

    // The statements begin.
    fn begin_statements(&mut self)
        ensures declarations { self.new.declarations ≡ self.old.declarations }
        ensures body { body_seen self.new.body ≡ no_statements }
    {
        self.body = Body::start(self.alloc);
    }

    // In the statements, or at their beginning.
    fn go_on(&mut self, at: u32, token: Token<'t>) -> Result<(), FaultKind>
        ensures { Steps result self.old self.new
            (λ before. go_on before (body_seen self.old.body) at (token_of token.entry)) }
    {
        match token {
            Token::End => self.end_statements(),
            _ => {
                self.body.take(at, token)?;
                self.go_to(Stage::InStatements);
                Ok(())
            }
        }
    }

    // The statements end.
    fn end_statements(&mut self) -> Result<(), FaultKind>
        ensures { Steps result self.old self.new
            (λ before. finished before (whole_of (body_seen self.old.body))) }
    {
        match self.body.finish() {
            Ok(()) => {
                self.go_to(Stage::Ended);
                Ok(())
            }
            Err(kind) => Err(kind),
        }
    }

    // Behind `nodes`.
    fn behind_count(&mut self, first: u32, token: Token<'t>) -> Result<(), FaultKind>
        ensures { Steps result self.old self.new
            (λ before. behind_count before first (token_of token.entry)) }
    {
        match token {
            Token::Number(count) => {
                self.go_to(Stage::AfterCount(first, count));
                Ok(())
            }
            _ => Err(FaultKind::Unexpected),
        }
    }

    // Behind the number of nodes.
    fn end_count(&mut self, first: u32, count: u64, token: Token<'t>) -> Result<(), FaultKind>
        ensures { Steps result self.old self.new
            (λ before. end_count before first count (token_of token.entry)) }
    {
        match token {
            Token::Sign(Sign::Semicolon) => self.declared(Declaration::Nodes(first, count)),
            _ => Err(FaultKind::Unexpected),
        }
    }

    // Behind `const`.
    fn name_constant(&mut self, first: u32, at: u32, token: Token<'t>) -> Result<(), FaultKind>
        ensures { Steps result self.old self.new
            (λ before. name_constant before first at (token_of token.entry)) }
    {
        match token {
            Token::Name(bytes) => {
                self.go_to(Stage::AfterConstant(first, Name { at, bytes }));
                Ok(())
            }
            _ => Err(FaultKind::Unexpected),
        }
    }

    // Behind the name of a constant.
    fn behind_constant(
        &mut self,
        first: u32,
        name: Name<'t>,
        token: Token<'t>,
    ) -> Result<(), FaultKind>
        ensures { Steps result self.old self.new
            (λ before. behind_constant before first (named_of name.entry) (token_of token.entry)) }
    {
        match token {
            Token::Sign(Sign::Assign) => {
                self.express(Purpose::Constant(first, name));
                Ok(())
            }
            _ => Err(FaultKind::Unexpected),
        }
    }

    // Where an item must begin.
    fn name_item(&mut self, items: Items<'t>, at: u32, token: Token<'t>) -> Result<(), FaultKind>
        ensures { Steps result self.old self.new
            (λ before. name_item before (items_seen items.entry) at (token_of token.entry)) }
    {
        match token {
            Token::Name(bytes) => {
                let name = Name { at, bytes };
                self.go_to(Stage::AfterItem(items, name, Vec::new(self.alloc)));
                Ok(())
            }
            _ => Err(FaultKind::Unexpected),
        }
    }

    // Behind an item.
    fn behind_item(
        &mut self,
        items: Items<'t>,
        name: Name<'t>,
        sizes: Vec<Expression<'t>>,
        token: Token<'t>,
    ) -> Result<(), FaultKind>
        ensures { Steps result self.old self.new
            (λ before. behind_item before (items_seen items.entry) (named_of name.entry)
            (expressions_of sizes.entry.items) (token_of token.entry)) }
    {
        match token {
            Token::Sign(Sign::OpenBracket) => {
                self.express(Purpose::Size(items, name, sizes));
                Ok(())
            }
            Token::Sign(Sign::Comma) => {
                let items = items.with(name, sizes)?;
                self.go_to(Stage::BeforeItem(items));
                Ok(())
            }
            Token::Sign(Sign::Semicolon) => {
                let items = items.with(name, sizes)?;
                self.declared(items.declaration())
            }
            _ => Err(FaultKind::Unexpected),
        }
    }

    // Behind `fn`.
    fn name_function(&mut self, first: u32, at: u32, token: Token<'t>) -> Result<(), FaultKind>
        ensures { Steps result self.old self.new
            (λ before. name_function before first at (token_of token.entry)) }
    {
        match token {
            Token::Name(bytes) => {
                self.go_to(Stage::AfterFunction(first, Name { at, bytes }));
                Ok(())
            }
            _ => Err(FaultKind::Unexpected),
        }
    }

    // Behind the name of a function.
    fn behind_function(
        &mut self,
        first: u32,
        name: Name<'t>,
        token: Token<'t>,
    ) -> Result<(), FaultKind>
        ensures { Steps result self.old self.new
            (λ before. behind_function before first (named_of name.entry) (token_of token.entry)) }
    {
        match token {
            Token::Sign(Sign::OpenParenthesis) => {
                self.go_to(Stage::BeforeFirst(first, name));
                Ok(())
            }
            _ => Err(FaultKind::Unexpected),
        }
    }

    // Behind the `(` of a function.
    fn behind_opening(
        &mut self,
        first: u32,
        name: Name<'t>,
        at: u32,
        token: Token<'t>,
    ) -> Result<(), FaultKind>
        ensures { Steps result self.old self.new
            (λ before. behind_opening before first (named_of name.entry) at
            (token_of token.entry)) }
    {
        match token {
            Token::Sign(Sign::CloseParenthesis) => {
                self.go_to(Stage::AfterParameters(first, name, Vec::new(self.alloc)));
                Ok(())
            }
            _ => self.name_parameter(first, name, Vec::new(self.alloc), at, token),
        }
    }

    // Where a parameter must stand.
    fn name_parameter(
        &mut self,
        first: u32,
        name: Name<'t>,
        parameters: Vec<Name<'t>>,
        at: u32,
        token: Token<'t>,
    ) -> Result<(), FaultKind>
        ensures { Steps result self.old self.new
            (λ before. name_parameter before first (named_of name.entry)
            (map named_of parameters.entry.items) at (token_of token.entry)) }
    {
        match token {
            Token::Name(bytes) => {
                let mut parameters = parameters;
                parameters.push(Name { at, bytes })?;
                self.go_to(Stage::AfterParameter(first, name, parameters));
                Ok(())
            }
            _ => Err(FaultKind::Unexpected),
        }
    }

    // Behind a parameter.
    fn behind_parameter(
        &mut self,
        first: u32,
        name: Name<'t>,
        parameters: Vec<Name<'t>>,
        token: Token<'t>,
    ) -> Result<(), FaultKind>
        ensures { Steps result self.old self.new
            (λ before. behind_parameter before first (named_of name.entry)
            (map named_of parameters.entry.items) (token_of token.entry)) }
    {
        match token {
            Token::Sign(Sign::Comma) => {
                self.go_to(Stage::BeforeParameter(first, name, parameters));
                Ok(())
            }
            Token::Sign(Sign::CloseParenthesis) => {
                self.go_to(Stage::AfterParameters(first, name, parameters));
                Ok(())
            }
            _ => Err(FaultKind::Unexpected),
        }
    }

    // Behind the parameters.
    fn behind_parameters(
        &mut self,
        first: u32,
        name: Name<'t>,
        parameters: Vec<Name<'t>>,
        token: Token<'t>,
    ) -> Result<(), FaultKind>
        ensures { Steps result self.old self.new
            (λ before. behind_parameters before first (named_of name.entry)
            (map named_of parameters.entry.items) (token_of token.entry)) }
    {
        match token {
            Token::Sign(Sign::Assign) => {
                self.express(Purpose::Body(first, name, parameters));
                Ok(())
            }
            _ => Err(FaultKind::Unexpected),
        }
    }

    // In an expression.
    fn go_on_with(
        &mut self,
        purpose: Purpose<'t>,
        at: u32,
        token: Token<'t>,
    ) -> Result<(), FaultKind>
        ensures { Steps result self.old self.new
            (λ before. moved before (in_expression (purpose_seen purpose.entry) (partial_seen self.old.expression))
            at (token_of token.entry)) }
    {
        if self.expression.is_whole() && purpose.is_ended_by(token) {
            let value = self.expression.finish()?;
            return self.end(purpose, value);
        }
        self.extend(purpose, at, token)
    }

    // In an expression that does not end here.
    fn extend(&mut self, purpose: Purpose<'t>, at: u32, token: Token<'t>) -> Result<(), FaultKind>
        ensures { Steps result self.old self.new
            (λ before. continued before (purpose_seen purpose.entry)
            (partial_with (partial_seen self.old.expression) at (token_of token.entry))) }
    {
        self.expression.take(at, token)?;
        self.go_to(Stage::InExpression(purpose));
        Ok(())
    }

    // Behind the end of an expression.
    #[tactic(auto, using(lrc_named_expression::proofs::Trees::expressions_push))]
    fn end(&mut self, purpose: Purpose<'t>, value: Expression<'t>) -> Result<(), FaultKind>
        ensures { Steps result self.old self.new
            (λ before. expressed before (purpose_seen purpose.entry) (expression_of value.entry)) }
    {
        match purpose {
            Purpose::Constant(first, name) => {
                self.declared(Declaration::Const(first, name, value))
            }
            Purpose::Size(items, name, sizes) => {
                let mut sizes = sizes;
                sizes.push(value)?;
                self.go_to(Stage::AfterItem(items, name, sizes));
                Ok(())
            }
            Purpose::Body(first, name, parameters) => {
                self.declared(Declaration::Function(first, name, parameters, value))
            }
        }
    }
}

impl<'t> Items<'t> {
    // These items, and another one.
    fn with(self, name: Name<'t>, sizes: Vec<Expression<'t>>) -> Result<Self, AllocError>
        ensures { IfOk result (λ items. items_seen items ≡ with_next (items_seen self.entry) (named_of name.entry)
            (expressions_of sizes.entry.items)) }
    {
        let Items { first, are, before } = self;
        let mut before = before;
        before.push(Place {
            name,
            indices: sizes,
        })?;
        Ok(Items { first, are, before })
    }

    // The declaration of these items.
    fn declaration(self) -> Declaration<'t>
        ensures { declaration_of result ≡ items_declared (items_seen self.entry) }
    {
        match self.are {
            Shared::Words => Declaration::Shared(self.first, self.before),
            Shared::Locks => Declaration::Lock(self.first, self.before),
        }
    }
}
