//! The tree of a constraint text (docs/PIL.md).
use gold::Fe;
use sqlite_items::{Boxed, Items};

/// A constraint text: its namespaces in order.
#[derive(Drop)]
pub struct Pil {
    pub spaces: Items<Space>,
}

/// A namespace.
#[derive(Drop)]
pub struct Space {
    pub name: Items<u8>,
    /// The rows of each of its instances.
    pub rows: u32,
    pub items: Items<Item>,
}

/// A declaration or a line of a namespace.
#[derive(Drop)]
pub enum Item {
    /// A constant polynomial, or an array of `len` of them.
    Constant {
        name: Items<u8>,
        len: Option<u32>,
    },
    /// A committed polynomial, or an array of `len` of them.
    Commit {
        name: Items<u8>,
        len: Option<u32>,
    },
    /// A name for an expression.
    Inter {
        name: Items<u8>,
        value: Expr,
    },
    /// A name for a column's value at a row of instance 0.
    Public {
        name: Items<u8>,
        space: u32,
        column: u32,
        row: u32,
    },
    /// Both sides have one value at each row of the namespace `space`.
    Identity {
        space: u32,
        left: Expr,
        right: Expr,
    },
    /// Each tuple on the left is one on the right.
    Lookup {
        left: List,
        right: List,
    },
    /// Each tuple is on both sides equally often.
    Bus {
        left: Items<List>,
        right: Items<List>,
    },
}

/// The tuples of the selected rows of a namespace.
#[derive(Drop)]
pub struct List {
    pub space: u32,
    /// A row is selected where this isn't 0; every row, where there is none.
    pub sel: Option<Expr>,
    pub exprs: Items<Expr>,
}

/// An expression over the polynomials of one namespace.
#[derive(Drop)]
pub enum Expr {
    Number(Fe),
    /// A constant or committed polynomial at this row, or at the next. The constants of a namespace
    /// are counted first, then the committed ones, an array with a number for each element.
    Column { space: u32, column: u32, next: bool },
    /// The intermediate polynomial that is this item of its namespace, counted from 0.
    Inter { space: u32, item: u32, next: bool },
    /// The public with this number in order of the text, from 0.
    Public(u32),
    Neg(Boxed<Expr>),
    Add(Boxed<Expr>, Boxed<Expr>),
    Sub(Boxed<Expr>, Boxed<Expr>),
    Mul(Boxed<Expr>, Boxed<Expr>),
}

/// What a public names: a row of a column, of instance 0.
#[derive(Clone, Copy)]
pub struct Place {
    pub space: u32,
    pub column: u32,
    pub row: u32,
}
