//! Tuples in arrays of their width.
ghost use Rattle.std.specs.Prelude.{◌≡◌, ◌<◌, ◌++◌, ◌∷◌, ℕ, [], List, true, false, length, slice_index_or, IfOk, OnOk};
ghost use Rattle.pil_ast.specs.Holds.{times};
ghost use Rattle.bus_check.specs.Bus.{numbers, held, Ascend};

use std::alloc::{AllocError, Global};
use std::convert::TryFrom;

/// Tuples one behind the other, each as an array, where all have one width of 1 to 8; else each is a
/// vector.
#[derive(Drop)]
pub enum Kept {
    One(Vec<[u64; 1]>),
    Two(Vec<[u64; 2]>),
    Three(Vec<[u64; 3]>),
    Four(Vec<[u64; 4]>),
    Five(Vec<[u64; 5]>),
    Six(Vec<[u64; 6]>),
    Seven(Vec<[u64; 7]>),
    Eight(Vec<[u64; 8]>),
    Mixed(Vec<Vec<u64>>),
}

/// A value of the arrays, whatever their width, or of the vectors.
macro_rules! kept {
    ($kept:expr, $arrays:ident => $of_arrays:expr, $vectors:ident => $of_vectors:expr) => {
        match $kept {
            Kept::One($arrays) => $of_arrays,
            Kept::Two($arrays) => $of_arrays,
            Kept::Three($arrays) => $of_arrays,
            Kept::Four($arrays) => $of_arrays,
            Kept::Five($arrays) => $of_arrays,
            Kept::Six($arrays) => $of_arrays,
            Kept::Seven($arrays) => $of_arrays,
            Kept::Eight($arrays) => $of_arrays,
            Kept::Mixed($vectors) => $of_vectors,
        }
    };
}

/// Whether another keeps its tuples as the pattern says; they are then appended.
macro_rules! alike {
    ($other:expr, $pattern:pat => $append:expr) => {
        match $other {
            $pattern => {
                $append?;
                Ok(true)
            }
            _ => Ok(false),
        }
    };
}

/// Puts a tuple at the end of arrays that have its width; false where they have another.
#[inline]
fn push_array<const W: usize>(arrays: &mut Vec<[u64; W]>, tuple: &[u64]) -> Result<bool, AllocError>
    ensures put { IfOk result (λ fits. fits ≡ true → arrays.new.items ≡ arrays.old.items ++ tuple.now ∷ []) }
    ensures left { IfOk result (λ fits. fits ≡ false → arrays.new.items ≡ arrays.old.items) }
{
    match <[u64; W]>::try_from(tuple) {
        Ok(array) => {
            arrays.push(array)?;
            Ok(true)
        }
        Err(_) => Ok(false),
    }
}

/// The array at a place.
#[inline]
fn array_at<const W: usize>(arrays: &Vec<[u64; W]>, place: usize) -> &[u64]
    requires { place < length arrays.now.items }
    ensures { result.now ≡ slice_index_or arrays.now.items place [] }
{
    arrays[place].as_slice()
}

/// What the vector at a place holds.
#[inline]
fn vector_at(vectors: &Vec<Vec<u64>>, place: usize) -> &[u64]
    requires { place < length vectors.now.items }
    ensures { result.now ≡ slice_index_or (numbers vectors.now.items) place [] }
{
    vectors[place].as_slice()
}

/// Puts arrays in order.
fn sort_arrays<const W: usize>(arrays: &mut Vec<[u64; W]>)
    ensures sorted { Ascend arrays.new.items }
    ensures times { (t : List ℕ) → times t arrays.new.items ≡ times t arrays.old.items }
{
    arrays.sort_unstable();
}

/// Puts vectors in order.
fn sort_vectors(vectors: &mut Vec<Vec<u64>>)
    ensures sorted { Ascend (numbers vectors.new.items) }
    ensures times { (t : List ℕ) → times t (numbers vectors.new.items) ≡ times t (numbers vectors.old.items) }
{
    vectors.sort_unstable();
}

impl Kept {
    /// No tuples, with arrays for this width if it is one of 1 to 8. It takes no memory.
    pub fn for_width(alloc: Global, width: usize) -> Kept
        ensures { held result ≡ [] }
    {
        match width {
            1 => Kept::One(Vec::new(alloc)),
            2 => Kept::Two(Vec::new(alloc)),
            3 => Kept::Three(Vec::new(alloc)),
            4 => Kept::Four(Vec::new(alloc)),
            5 => Kept::Five(Vec::new(alloc)),
            6 => Kept::Six(Vec::new(alloc)),
            7 => Kept::Seven(Vec::new(alloc)),
            8 => Kept::Eight(Vec::new(alloc)),
            _ => Kept::Mixed(Vec::new(alloc)),
        }
    }

    /// How many tuples there are.
    #[inline]
    pub fn len(&self) -> usize
        ensures { result ≡ length (held self.now) }
    {
        kept!(self, arrays => arrays.len(), vectors => vectors.len())
    }

    /// The tuple at a place.
    #[inline]
    pub fn at(&self, place: usize) -> &[u64]
        requires { place < length (held self.now) }
        ensures { result.now ≡ slice_index_or (held self.now) place [] }
    {
        kept!(self, arrays => array_at(arrays, place), vectors => vector_at(vectors, place))
    }

    /// Puts a tuple at the end if it is one of the arrays' width.
    #[inline]
    fn push_as_array(&mut self, tuple: &[u64]) -> Result<bool, AllocError>
        ensures put { IfOk result (λ fits. fits ≡ true → held self.new ≡ held self.old ++ tuple.now ∷ []) }
        ensures left { IfOk result (λ fits. fits ≡ false → held self.new ≡ held self.old) }
    {
        kept!(self, arrays => push_array(arrays, tuple), _vectors => Ok(false))
    }

    /// Copies of the tuples as vectors.
    fn copies(&self, alloc: Global) -> Result<Vec<Vec<u64>>, AllocError>
        ensures { IfOk result (λ vectors. numbers vectors.items ≡ held self.now) }
    {
        let mut vectors = Vec::with_capacity(alloc, self.len())?;
        for place in 0..self.len() {
            vectors.push(Vec::from_slice(alloc, self.at(place))?)?;
        }
        Ok(vectors)
    }

    /// Puts a tuple at the end as a vector, and turns all into vectors.
    fn push_as_vector(&mut self, alloc: Global, tuple: &[u64]) -> Result<(), AllocError>
        ensures { OnOk result (held self.new ≡ held self.old ++ tuple.now ∷ []) }
    {
        let vector = Vec::from_slice(alloc, tuple)?;
        let mut vectors = match self {
            Kept::Mixed(vectors) => {
                vectors.push(vector)?;
                return Ok(());
            }
            _ => self.copies(alloc)?,
        };
        vectors.push(vector)?;
        *self = Kept::Mixed(vectors);
        Ok(())
    }

    /// Puts a tuple at the end. The first one decides on the width of the arrays, and all are turned into
    /// vectors where a later one has another.
    pub fn push(&mut self, alloc: Global, tuple: &[u64]) -> Result<(), AllocError>
        ensures { OnOk result (held self.new ≡ held self.old ++ tuple.now ∷ []) }
    {
        if self.push_as_array(tuple)? {
            return Ok(());
        }
        if self.len() == 0 {
            *self = Kept::for_width(alloc, tuple.len());
        }
        if self.push_as_array(tuple)? {
            return Ok(());
        }
        self.push_as_vector(alloc, tuple)
    }

    /// Puts copies of another's tuples at the end.
    pub fn extend(&mut self, alloc: Global, other: &Kept) -> Result<(), AllocError>
        ensures { OnOk result (held self.new ≡ held self.old ++ held other.now) }
    {
        for place in 0..other.len() {
            self.push(alloc, other.at(place))?;
        }
        Ok(())
    }

    /// Moves another's tuples to the end if both are kept in arrays of one width, or in vectors.
    fn append_alike(&mut self, other: &mut Kept) -> Result<bool, AllocError>
        ensures put { IfOk result (λ alike. alike ≡ true → held self.new ≡ held self.old ++ held other.old) }
        ensures left { IfOk result (λ alike. alike ≡ false → (held self.new ≡ held self.old) × (held other.new ≡ held other.old)) }
    {
        match self {
            Kept::One(mine) => alike!(other, Kept::One(theirs) => mine.append(theirs)),
            Kept::Two(mine) => alike!(other, Kept::Two(theirs) => mine.append(theirs)),
            Kept::Three(mine) => alike!(other, Kept::Three(theirs) => mine.append(theirs)),
            Kept::Four(mine) => alike!(other, Kept::Four(theirs) => mine.append(theirs)),
            Kept::Five(mine) => alike!(other, Kept::Five(theirs) => mine.append(theirs)),
            Kept::Six(mine) => alike!(other, Kept::Six(theirs) => mine.append(theirs)),
            Kept::Seven(mine) => alike!(other, Kept::Seven(theirs) => mine.append(theirs)),
            Kept::Eight(mine) => alike!(other, Kept::Eight(theirs) => mine.append(theirs)),
            Kept::Mixed(mine) => alike!(other, Kept::Mixed(theirs) => mine.append(theirs)),
        }
    }

    /// Puts another's tuples at the end. They become the whole where there were none.
    pub fn append(&mut self, alloc: Global, other: Kept) -> Result<(), AllocError>
        ensures { OnOk result (held self.new ≡ held self.old ++ held other) }
    {
        if self.len() == 0 {
            *self = other;
            return Ok(());
        }
        let mut other = other;
        if !self.append_alike(&mut other)? {
            self.extend(alloc, &other)?;
        }
        Ok(())
    }

    /// Puts the tuples in order. It takes no memory.
    pub fn sort(&mut self)
        ensures sorted { Ascend (held self.new) }
        ensures times { (t : List ℕ) → times t (held self.new) ≡ times t (held self.old) }
    {
        kept!(self, arrays => sort_arrays(arrays), vectors => sort_vectors(vectors))
    }
}
