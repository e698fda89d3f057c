//! The syntax tree: what the tokens spell, before any name is looked up. Each name, number, `{` and
//! `'` keeps its place, the offset of its first byte.
use pil_token::Name;
use sqlite_items::{Boxed, Items};

/// A name and its place.
#[derive(Debug, Drop)]
pub struct Ident {
    pub name: Name,
    pub at: u64,
}

/// A number and its place.
#[derive(Clone, Copy, Debug)]
pub struct Number {
    pub value: u64,
    pub at: u64,
}

/// `space.name[index]'`: a polynomial, or an element of an array of them; `next` is the place of
/// the mark `'` of the next row.
#[derive(Debug, Drop)]
pub struct Reference {
    pub space: Option<Ident>,
    pub name: Ident,
    pub index: Option<Number>,
    pub next: Option<u64>,
}

/// An expression, with its parentheses.
#[derive(Debug, Drop)]
pub enum Expr {
    Number(Number),
    Column(Reference),
    /// `%name`
    Constant(Ident),
    /// `:name`
    Public(Ident),
    Neg(Boxed<Expr>),
    Group(Boxed<Expr>),
    Add(Boxed<Expr>, Boxed<Expr>),
    Sub(Boxed<Expr>, Boxed<Expr>),
    Mul(Boxed<Expr>, Boxed<Expr>),
}

/// What stands before the `{` of a list: nothing, a polynomial, or an expression in parentheses.
#[derive(Debug, Drop)]
pub enum Selector {
    Every,
    Column(Reference),
    Group(Expr),
}

/// `selector { entry, .. }`, with the place of the `{`.
#[derive(Debug, Drop)]
pub struct ExprList {
    pub selector: Selector,
    pub at: u64,
    pub entries: Items<Expr>,
}

/// `name[length]`
#[derive(Debug, Drop)]
pub struct Declaration {
    pub name: Ident,
    pub length: Option<Number>,
}

/// Whether polynomials are constant or committed.
#[derive(Clone, Copy, Debug, PartialEq, Eq)]
pub enum ColumnKind {
    Constant,
    Commit,
}

/// The number of rows of a namespace: a number, or the `%name` of one.
#[derive(Debug, Drop)]
pub enum Size {
    Number(Number),
    Constant(Ident),
}

/// A statement, up to its `;`.
#[derive(Debug, Drop)]
pub enum Statement {
    /// `constant %name = value;`
    Constant {
        name: Ident,
        value: Number,
    },
    /// `namespace name(size);`
    Namespace {
        name: Ident,
        size: Size,
    },
    /// `pol constant declaration, ..;` or `pol commit declaration, ..;`
    Columns {
        kind: ColumnKind,
        declarations: Items<Declaration>,
    },
    /// `pol name = value;`
    Intermediate {
        name: Ident,
        value: Expr,
    },
    /// `public name = column(row);`
    Public {
        name: Ident,
        column: Reference,
        row: Number,
    },
    /// `left = right;`
    Identity {
        left: Expr,
        right: Expr,
    },
    /// `left in right;`
    Lookup {
        left: ExprList,
        right: ExprList,
    },
    /// `left + .. is right + ..;`
    Bus {
        left: Items<ExprList>,
        right: Items<ExprList>,
    },
}

/// The statements of a file.
#[derive(Debug, Drop)]
pub struct Syntax {
    pub statements: Items<Statement>,
}

/// Why tokens are refused.
#[derive(Clone, Copy, Debug, PartialEq, Eq)]
pub enum SyntaxErrKind {
    /// No file begins with the tokens up to this one; at the end, they are no file.
    Unexpected,
    /// A file begins so, but none that nests at most 32 deep and has at most 128 operators in an expression.
    TooDeep,
    /// There was no memory for the tree.
    NoMemory,
}

/// Why tokens are refused, and the place of the first token that is; at `NoMemory` the place is 0.
#[derive(Clone, Copy, Debug, PartialEq, Eq)]
pub struct SyntaxErr {
    pub kind: SyntaxErrKind,
    pub at: u64,
}
