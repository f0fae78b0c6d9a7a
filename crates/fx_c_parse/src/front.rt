//! What the first tokens of a phrase say about it: one or two tokens decide.

ghost use Rattle.std.specs.Prelude.{◌≡◌, ◌<◌, ◌==◌, ◌||◌, nat_le, if◌then◌else◌, length, OnSome, Some};
ghost use Rattle.fx_c_parse.specs.Words.{rest_of, first_keyword};
ghost use Rattle.fx_c_parse.specs.Fronts.{operator_of, unary_of, begins_type, operator_at, unary_front, suffix_at, primary_front, primary_by_keyword, statement_front, statement_by_keyword, declaration_front};
ghost use Rattle.fx_c_lex.specs.declared.keyword.TheConstants.{SHARED, STRUCT};

use crate::cursor::Cursor;
use fx_c_ast::operator::{Binop, Unop};
use fx_c_lex::{keyword, sign};

/// A binary operator and its level; the tightest is 0.
#[derive(Clone, Copy, Debug, PartialEq, Eq)]
pub struct Operator {
    pub op: Binop,
    pub level: u8,
}

/// What stands before an operand.
#[derive(Clone, Copy, Debug, PartialEq, Eq)]
pub enum UnaryFront {
    Sign(Unop),
    Cast,
    Size,
    Postfix,
}

/// What follows an operand that it belongs to.
#[derive(Clone, Copy, Debug, PartialEq, Eq)]
pub enum Suffix {
    Index,
    Member,
    Arrow,
}

/// The kinds of primary expressions.
#[derive(Clone, Copy, Debug, PartialEq, Eq)]
pub enum PrimaryFront {
    Constant,
    Variable,
    Call,
    Parentheses,
    Gate,
    Putc,
    Getc,
    In,
    Out,
    Spawn,
    Switch,
    Me,
}

/// The kinds of statements.
#[derive(Clone, Copy, Debug, PartialEq, Eq)]
pub enum StatementFront {
    Empty,
    Block,
    Local,
    If,
    While,
    For,
    Break,
    Continue,
    Return,
    Simple,
}

/// The kinds of declarations, as far as the first tokens tell them.
#[derive(Clone, Copy, Debug, PartialEq, Eq)]
pub enum DeclarationFront {
    Struct,
    Granted,
    Entry,
    Plain,
}

/// The binary operator that a sign is.
pub fn operator_of(sign: u8) -> Option<Operator>
    ensures { result ≡ operator_of sign }
{
    let (op, level) = match sign {
        sign::STAR => (Binop::Mul, 0),
        sign::SLASH => (Binop::Div, 0),
        sign::PERCENT => (Binop::Rem, 0),
        sign::PLUS => (Binop::Add, 1),
        sign::MINUS => (Binop::Sub, 1),
        sign::SHIFT_LEFT => (Binop::Shl, 2),
        sign::SHIFT_RIGHT => (Binop::Shr, 2),
        sign::LESS => (Binop::Lt, 3),
        sign::GREATER => (Binop::Gt, 3),
        sign::LESS_EQUAL => (Binop::Le, 3),
        sign::GREATER_EQUAL => (Binop::Ge, 3),
        sign::EQUAL => (Binop::Eq, 4),
        sign::NOT_EQUAL => (Binop::Ne, 4),
        sign::AMPERSAND => (Binop::And, 5),
        sign::CARET => (Binop::Xor, 6),
        sign::BAR => (Binop::Or, 7),
        sign::AND_AND => (Binop::Land, 8),
        sign::BAR_BAR => (Binop::Lor, 9),
        _ => return None,
    };
    Some(Operator { op, level })
}

/// The unary operator that a sign is.
pub fn unary_of(sign: u8) -> Option<Unop>
    ensures { result ≡ unary_of sign }
{
    match sign {
        sign::MINUS => Some(Unop::Neg),
        sign::TILDE => Some(Unop::Not),
        sign::BANG => Some(Unop::Lnot),
        sign::STAR => Some(Unop::Deref),
        sign::AMPERSAND => Some(Unop::Addr),
        _ => None,
    }
}

impl<'a> Cursor<'a> {
    /// Whether a type begins here.
    pub fn has_type(self) -> bool
        ensures { result ≡ begins_type (first_keyword (rest_of self.entry)) }
    {
        match self.keyword() {
            Some(keyword) => keyword <= keyword::STRUCT,
            None => false,
        }
    }

    /// The operator of a level at the front.
    pub fn operator(self, level: u8) -> Option<Binop>
        ensures value { result ≡ operator_at level (rest_of self.entry) }
        ensures there { OnSome result (0 < length (rest_of self.entry)) }
    {
        match operator_of(self.sign()?) {
            Some(found) if found.level == level => Some(found.op),
            _ => None,
        }
    }

    /// What an operand begins with.
    pub fn unary_front(self) -> UnaryFront
        ensures { result ≡ unary_front (rest_of self.entry) }
    {
        match self.sign() {
            None if self.has_keyword(keyword::SIZEOF) => UnaryFront::Size,
            None => UnaryFront::Postfix,
            Some(sign) => match unary_of(sign) {
                Some(op) => UnaryFront::Sign(op),
                None if sign == sign::OPEN_PAREN && self.next().has_type() => UnaryFront::Cast,
                None => UnaryFront::Postfix,
            },
        }
    }

    /// What follows an operand.
    pub fn suffix(self) -> Option<Suffix>
        ensures value { result ≡ suffix_at (rest_of self.entry) }
        ensures there { OnSome result (0 < length (rest_of self.entry)) }
    {
        match self.sign()? {
            sign::OPEN_BRACKET => Some(Suffix::Index),
            sign::DOT => Some(Suffix::Member),
            sign::ARROW => Some(Suffix::Arrow),
            _ => None,
        }
    }

    /// What a primary expression begins with.
    pub fn primary_front(self) -> PrimaryFront
        ensures { result ≡ primary_front (rest_of self.entry) }
    {
        if self.is_name() {
            return if self.next().has_sign(sign::OPEN_PAREN) {
                PrimaryFront::Call
            } else {
                PrimaryFront::Variable
            };
        }
        if self.has_sign(sign::OPEN_PAREN) {
            return PrimaryFront::Parentheses;
        }
        match self.keyword() {
            Some(keyword) => keyword_front(keyword),
            None => PrimaryFront::Constant,
        }
    }

    /// What a declaration begins with.
    pub fn declaration_front(self) -> DeclarationFront
        ensures { result ≡ declaration_front (rest_of self.entry) }
    {
        match self.keyword() {
            Some(keyword) => {
                if keyword == keyword::STRUCT && self.next().next().has_sign(sign::OPEN_BRACE) {
                    DeclarationFront::Struct
                } else if keyword == keyword::SHARED || keyword == keyword::READ {
                    DeclarationFront::Granted
                } else if keyword == keyword::ENTRY {
                    DeclarationFront::Entry
                } else {
                    DeclarationFront::Plain
                }
            }
            None => DeclarationFront::Plain,
        }
    }

    /// What a statement begins with.
    pub fn statement_front(self) -> StatementFront
        ensures { result ≡ statement_front (rest_of self.entry) }
    {
        if self.has_sign(sign::SEMICOLON) {
            return StatementFront::Empty;
        }
        if self.has_sign(sign::OPEN_BRACE) {
            return StatementFront::Block;
        }
        match self.keyword() {
            Some(keyword) => statement_keyword(keyword),
            None => StatementFront::Simple,
        }
    }
}

fn keyword_front(keyword: u8) -> PrimaryFront
    ensures { result ≡ primary_by_keyword (Some keyword) }
{
    match keyword {
        keyword::GATE => PrimaryFront::Gate,
        keyword::PUTC => PrimaryFront::Putc,
        keyword::GETC => PrimaryFront::Getc,
        keyword::IN => PrimaryFront::In,
        keyword::OUT => PrimaryFront::Out,
        keyword::SPAWN => PrimaryFront::Spawn,
        keyword::SWITCH => PrimaryFront::Switch,
        keyword::SELF => PrimaryFront::Me,
        _ => PrimaryFront::Constant,
    }
}

fn local_or_simple(keyword: u8) -> StatementFront
    ensures { result ≡ (if keyword == SHARED || nat_le keyword STRUCT then StatementFront.Local else StatementFront.Simple) }
{
    if keyword == keyword::SHARED || keyword <= keyword::STRUCT {
        StatementFront::Local
    } else {
        StatementFront::Simple
    }
}

fn statement_keyword(keyword: u8) -> StatementFront
    ensures { result ≡ statement_by_keyword (Some keyword) }
{
    match keyword {
        keyword::IF => StatementFront::If,
        keyword::WHILE => StatementFront::While,
        keyword::FOR => StatementFront::For,
        keyword::BREAK => StatementFront::Break,
        keyword::CONTINUE => StatementFront::Continue,
        keyword::RETURN => StatementFront::Return,
        _ => local_or_simple(keyword),
    }
}
