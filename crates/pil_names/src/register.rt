//! Registers of the names of one kind.
ghost use Rattle.std.specs.Prelude.{◌≡◌, ◌<◌, ◌^◌, [], ◌∷◌, ◌++◌, List, length, map, flat_map, IfOk, OnOk};
ghost use Rattle.pil_names.specs.Finding.{Entry, constant_entries, home_entries, numbered, polynomials_from, public_entries, public_names, published_name};
ghost use Rattle.pil_names.specs.Directory.{Registers};
ghost use Rattle.pil_names.specs.Shown.{outlined, draft, home};

use crate::least::lesser;
use crate::names::Names;
use crate::outline::{Draft, Home, Outline};
use pil_syntax::Ident;
use sqlite_items::Items;
use std::alloc::{AllocError, Global};

/// A map of the names of one kind, and the least place of a name that stands among the earlier ones.
#[derive(Drop)]
pub(crate) struct Register {
    pub(crate) names: Names,
    pub(crate) repeated: Option<u64>,
}

impl Register {
    fn new(alloc: Global) -> Register
        ensures { Registers result [] }
    {
        Register {
            names: Names::new(alloc),
            repeated: None,
        }
    }

    fn add(&mut self, alloc: Global, name: &Ident, number: u32) -> Result<(), AllocError>
        ensures { OnOk result ((es : List Entry) → Registers self.old es → Registers self.new (es ++ record { name = name.now; number = number } ∷ [])) }
    {
        if self.names.add(alloc, name.name.bytes(), number)? {
            self.repeated = lesser(self.repeated, Some(name.at));
        }
        Ok(())
    }

    /// Adds the name of an item that is a polynomial.
    fn add_polynomial(&mut self, alloc: Global, item: &Draft, number: u32) -> Result<(), AllocError>
        ensures { OnOk result ((es : List Entry) → Registers self.old es → Registers self.new (es ++ polynomials_from number (draft item.now ∷ []))) }
    {
        match item {
            Draft::Column { declaration, .. } => self.add(alloc, &declaration.name, number),
            Draft::Intermediate { name, .. } => self.add(alloc, name, number),
            _ => Ok(()),
        }
    }
}

/// The register of names that are numbered in this order.
fn register_all(alloc: Global, names: &[&Ident]) -> Result<Register, AllocError>
    requires { length names.now < 2 ^ 32 }
    ensures { IfOk result (λ r. Registers r (numbered 0 (map (λ x. x.now) names.now))) }
{
    let mut register = Register::new(alloc);
    for (number, name) in names.iter().enumerate() {
        register.add(alloc, name, number as u32)?;
    }
    Ok(register)
}

/// The constants of a file.
pub(crate) fn register_constants(alloc: Global, outline: &Outline) -> Result<Register, AllocError>
    requires { length (outlined outline.now).constants < 2 ^ 32 }
    ensures { IfOk result (λ r. Registers r (constant_entries (outlined outline.now))) }
{
    let mut names = Items::new(alloc);
    for constant in outline.constants.as_slice() {
        names.push(constant.name)?;
    }
    register_all(alloc, names.as_slice())
}

/// The namespaces of a file.
pub(crate) fn register_homes(alloc: Global, outline: &Outline) -> Result<Register, AllocError>
    requires { length (outlined outline.now).homes < 2 ^ 32 }
    ensures { IfOk result (λ r. Registers r (home_entries (outlined outline.now))) }
{
    let mut names = Items::new(alloc);
    for home in outline.homes.as_slice() {
        names.push(home.name)?;
    }
    register_all(alloc, names.as_slice())
}

/// Adds the names of the publics among the items.
fn push_publics<'a>(items: &[Draft<'a>], names: &mut Items<&'a Ident>) -> Result<(), AllocError>
    ensures { OnOk result (map (λ x. x.now) names.new ≡ map (λ x. x.now) names.old ++ flat_map published_name (map draft items.now)) }
{
    for item in items {
        if let Draft::Public { name, .. } = item {
            names.push(*name)?;
        }
    }
    Ok(())
}

/// The names of the publics of a file, in order of the text.
fn publics_of<'a>(alloc: Global, homes: &[Home<'a>]) -> Result<Items<&'a Ident>, AllocError>
    ensures { IfOk result (λ ns. map (λ x. x.now) ns ≡ public_names (map home homes.now)) }
{
    let mut names = Items::new(alloc);
    for home in homes {
        push_publics(home.items.as_slice(), &mut names)?;
    }
    Ok(names)
}

/// The publics of a file.
pub(crate) fn register_publics(alloc: Global, outline: &Outline) -> Result<Register, AllocError>
    requires { length (public_names (outlined outline.now).homes) < 2 ^ 32 }
    ensures { IfOk result (λ r. Registers r (public_entries (outlined outline.now))) }
{
    let names = publics_of(alloc, outline.homes.as_slice())?;
    register_all(alloc, names.as_slice())
}

/// The polynomials of a namespace.
pub(crate) fn register_polynomials(alloc: Global, items: &[Draft]) -> Result<Register, AllocError>
    requires { length items.now < 2 ^ 32 }
    ensures { IfOk result (λ r. Registers r (polynomials_from 0 (map draft items.now))) }
{
    let mut register = Register::new(alloc);
    for (number, item) in items.iter().enumerate() {
        register.add_polynomial(alloc, item, number as u32)?;
    }
    Ok(register)
}
