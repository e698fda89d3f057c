//! The outline of a file: its constants, and its namespaces with their items.
ghost use Rattle.std.specs.Prelude.{◌≡◌, [], ◌∷◌, List, IfOk, OnOk};
ghost use Rattle.pil_syntax.specs.Tree.{Sentence, constant_is, namespace_of, columns as columns_of};
ghost use Rattle.pil_syntax.specs.Shown.{sentence, sentences};
ghost use Rattle.pil_names.specs.Outline.{Draft as DraftOf, outline_of};
ghost use Rattle.pil_names.specs.Gathering.{outline_with};
ghost use Rattle.pil_names.specs.Shown.{outlined, draft};

use pil_syntax::{
    ColumnKind, Declaration, Expr, ExprList, Ident, Number, Reference, Size, Statement, Syntax,
};
use sqlite_items::Items;
use std::alloc::{AllocError, Global};

/// `constant %name = value;`
#[derive(Clone, Copy)]
pub struct Constant<'a> {
    pub name: &'a Ident,
    pub value: Number,
}

/// An item of a namespace, with one declaration.
#[derive(Clone, Copy)]
pub enum Draft<'a> {
    Column {
        kind: ColumnKind,
        declaration: &'a Declaration,
    },
    Intermediate {
        name: &'a Ident,
        value: &'a Expr,
    },
    Public {
        name: &'a Ident,
        column: &'a Reference,
        row: Number,
    },
    Identity {
        left: &'a Expr,
        right: &'a Expr,
    },
    Lookup {
        left: &'a ExprList,
        right: &'a ExprList,
    },
    Bus {
        left: &'a [ExprList],
        right: &'a [ExprList],
    },
}

/// A namespace with its items in order.
#[derive(Drop)]
pub struct Home<'a> {
    pub name: &'a Ident,
    pub size: &'a Size,
    pub items: Items<Draft<'a>>,
}

/// A file as its constants and its namespaces.
#[derive(Drop)]
pub struct Outline<'a> {
    pub constants: Items<Constant<'a>>,
    pub homes: Items<Home<'a>>,
}

/// The outline of the statements so far: the namespaces before the last one, and the last one.
#[derive(Drop)]
struct Gathered<'a> {
    constants: Items<Constant<'a>>,
    homes: Items<Home<'a>>,
    last: Option<Home<'a>>,
}

impl<'a> Gathered<'a> {
    fn new(alloc: Global) -> Gathered<'a>
        ensures { (ss : List Sentence) → outline_with result [] ss ≡ outline_of ss }
    {
        Gathered {
            constants: Items::new(alloc),
            homes: Items::new(alloc),
            last: None,
        }
    }

    fn constant(&mut self, name: &'a Ident, value: Number) -> Result<(), AllocError>
        ensures { OnOk result ((ss : List Sentence) → outline_with self.new [] ss ≡ outline_with self.old [] (constant_is name.now value ∷ ss)) }
    {
        self.constants.push(Constant { name, value })
    }

    fn namespace(
        &mut self,
        alloc: Global,
        name: &'a Ident,
        size: &'a Size,
    ) -> Result<(), AllocError>
        ensures { OnOk result ((ss : List Sentence) → outline_with self.new [] ss ≡ outline_with self.old [] (namespace_of name.now size.now ∷ ss)) }
    {
        let opened = Home {
            name,
            size,
            items: Items::new(alloc),
        };
        if let Some(home) = self.last.replace(opened) {
            self.homes.push(home)?;
        }
        Ok(())
    }

    /// An item before the first namespace is in none.
    fn item(&mut self, item: Draft<'a>) -> Result<(), AllocError>
        ensures { OnOk result ((ds : List DraftOf) (ss : List Sentence) → outline_with self.new ds ss ≡ outline_with self.old (draft item.entry ∷ ds) ss) }
    {
        match &mut self.last {
            Some(home) => home.items.push(item),
            None => Ok(()),
        }
    }

    fn columns(
        &mut self,
        kind: ColumnKind,
        declarations: &'a [Declaration],
    ) -> Result<(), AllocError>
        ensures { OnOk result ((ss : List Sentence) → outline_with self.new [] ss ≡ outline_with self.old [] (columns_of kind declarations.now ∷ ss)) }
    {
        for declaration in declarations {
            self.item(Draft::Column { kind, declaration })?;
        }
        Ok(())
    }

    fn statement(&mut self, alloc: Global, statement: &'a Statement) -> Result<(), AllocError>
        ensures { OnOk result ((ss : List Sentence) → outline_with self.new [] ss ≡ outline_with self.old [] (sentence statement.now ∷ ss)) }
    {
        match statement {
            Statement::Constant { name, value } => self.constant(name, *value),
            Statement::Namespace { name, size } => self.namespace(alloc, name, size),
            Statement::Columns { kind, declarations } => {
                self.columns(*kind, declarations.as_slice())
            }
            Statement::Intermediate { name, value } => {
                self.item(Draft::Intermediate { name, value })
            }
            Statement::Public { name, column, row } => self.item(Draft::Public {
                name,
                column,
                row: *row,
            }),
            Statement::Identity { left, right } => self.item(Draft::Identity { left, right }),
            Statement::Lookup { left, right } => self.item(Draft::Lookup { left, right }),
            Statement::Bus { left, right } => self.item(Draft::Bus {
                left: left.as_slice(),
                right: right.as_slice(),
            }),
        }
    }

    fn finish(self) -> Result<Outline<'a>, AllocError>
        ensures { IfOk result (λ o. outlined o ≡ outline_with self.entry [] []) }
    {
        let Gathered {
            constants,
            mut homes,
            last,
        } = self;
        if let Some(home) = last {
            homes.push(home)?;
        }
        Ok(Outline { constants, homes })
    }
}

/// The outline of a file.
pub fn read_outline<'a>(alloc: Global, syntax: &'a Syntax) -> Result<Outline<'a>, AllocError>
    ensures { IfOk result (λ o. outlined o ≡ outline_of (sentences syntax.now)) }
{
    let mut gathered = Gathered::new(alloc);
    for statement in syntax.statements.as_slice() {
        gathered.statement(alloc, statement)?;
    }
    gathered.finish()
}
