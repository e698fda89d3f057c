//! What the names of a file stand for.
ghost use Rattle.std.specs.Prelude.{◌≡◌, ◌<◌, ◌^◌, ℕ, length, option_copied, option_map, slice_get};
ghost use Rattle.pil_names.specs.Outline.{home_at, constant_at};
ghost use Rattle.pil_names.specs.Finding.{found, constant_entries, public_entries, home_named, item_named};
ghost use Rattle.pil_names.specs.Wrongs.{constant_value as constant_value_of, rows_of};
ghost use Rattle.pil_names.specs.Shown.{outlined};
ghost use Rattle.pil_names.specs.Directory.{IsDirectory};

use crate::directory::Directory;
use crate::outline::Outline;
use pil_syntax::{Ident, Reference, Size};

impl Directory {
    /// The number of the constant with this name, in order of the text.
    pub fn constant(&self, outline: &Outline, name: &Ident) -> Option<u32>
        requires { IsDirectory (outlined outline.now) self.now }
        ensures { result ≡ found name.now.name (constant_entries (outlined outline.now)) }
    {
        self.constants.find(name.name.bytes())
    }

    /// The number of the public with this name, in order of the text.
    pub fn public(&self, outline: &Outline, name: &Ident) -> Option<u32>
        requires { IsDirectory (outlined outline.now) self.now }
        ensures { result ≡ found name.now.name (public_entries (outlined outline.now)) }
    {
        self.publics.find(name.name.bytes())
    }

    /// The number of the namespace that a reference names from the namespace `home`.
    pub fn home(&self, outline: &Outline, home: u32, space: &Option<Ident>) -> Option<u32>
        requires { IsDirectory (outlined outline.now) self.now }
        ensures { result ≡ home_named (outlined outline.now) home space.now }
    {
        match space {
            Some(name) => self.homes.find(name.name.bytes()),
            None => Some(home),
        }
    }

    /// The number of the item of the namespace `home` that a reference names.
    pub fn item(&self, outline: &Outline, home: u32, reference: &Reference) -> Option<u32>
        requires { IsDirectory (outlined outline.now) self.now }
        ensures { result ≡ item_named (outlined outline.now) home reference.now }
    {
        match self.polynomials.get(home as usize) {
            Some(names) => names.find(reference.name.name.bytes()),
            None => None,
        }
    }

    /// The number that a constant stands for: 0 where it isn't declared.
    pub fn constant_value(&self, outline: &Outline, name: &Ident) -> u64
        requires { IsDirectory (outlined outline.now) self.now }
        ensures { result ≡ constant_value_of (outlined outline.now) name.now }
    {
        match self.constant(outline, name) {
            Some(number) => match outline.constants.get(number as usize) {
                Some(constant) => constant.value.value,
                None => 0,
            },
            None => 0,
        }
    }

    /// The rows of a namespace of this size.
    pub fn rows(&self, outline: &Outline, size: &Size) -> u64
        requires { IsDirectory (outlined outline.now) self.now }
        ensures { result ≡ rows_of (outlined outline.now) size.now }
    {
        match size {
            Size::Number(number) => number.value,
            Size::Constant(name) => self.constant_value(outline, name),
        }
    }
}
