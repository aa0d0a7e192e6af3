//! The name of a thread: the path of forks from the root to it.
ghost use Rattle.std.specs.Prelude.{◌≡◌, ◌<◌, [], ◌∷◌, ◌++◌, ◌↔◌, IfOk, IsOk, IsTrue, SomeIff, length, slice_index, nat_eq};
ghost use Rattle.std.specs.Cmp.{partial_equiv_from_equiv};
ghost use Rattle.std.specs.Cmp.Lexicographic.{pointwise, nat_list_eq_equiv};
ghost use Rattle.arachne_program.specs.Name.{FitsBytes, FitsInline, FitsWords};

use crate::byte_list::ByteList;
use crate::word_list::WordList;
use std::alloc::{AllocError, Global};
use std::marker::Model;

/// The name of a thread: the path of forks from the root to it. Each thread's forks are numbered from 0.
///
/// A name of up to 30 numbers below 256, or up to 6 below 2^32, is stored without an allocation.
#[derive(Debug, Drop)]
pub struct Name {
    forks: Forks,
}

const _: () = prove!(size_of::<Name>() == 32);

/// The numbers of the forks on the path from the root to the thread, in this order.
#[derive(Debug, Drop)]
enum Forks {
    Bytes(ByteList),
    /// At most 6 numbers below 2^32, of which at least one is 256 or more, so that it isn't a byte.
    Words(WordList),
    Heap(Vec<u64>),
}

impl Model for Name {
    ghost use Rattle.std.specs.Prelude.{ℕ, List};

    ghost Value = { List ℕ };

    ghost use Rattle.arachne_program.specs.Name.{numbers, IsKeptShort};

    ghost view = { λ name. numbers name.forks };

    ghost invariant = { λ name. IsKeptShort name.forks };
}

impl Name {
    /// Returns the name of the root thread, which is empty. Allocates no memory.
    pub fn root(_alloc: Global) -> Name
        ensures { result ≡ [] }
    {
        Name {
            forks: Forks::Bytes(ByteList::empty()),
        }
    }

    /// Returns the name of this thread's child of number `number`, counted from 0.
    ///
    /// Allocates only if that name doesn't fit the 32 bytes of a `Name`.
    pub fn child(&self, alloc: Global, number: u64) -> Result<Name, AllocError>
        ensures named { IfOk result (λ name. name ≡ self.now ++ number ∷ []) }
        ensures inline { FitsInline (self.now ++ number ∷ []) → IsOk result }
    {
        if let Forks::Bytes(list) = &self.forks {
            if let Some(longer) = list.with(number) {
                return Ok(Name {
                    forks: Forks::Bytes(longer),
                });
            }
        }
        match self.words_with(number) {
            Some(longer) => Ok(Name {
                forks: Forks::Words(longer),
            }),
            None => self.long_child(alloc, number),
        }
    }

    /// Returns the numbers in the name of child `number`, or `None` if they don't fit a `WordList`.
    fn words_with(&self, number: u64) -> Option<WordList>
        ensures { SomeIff result (FitsWords (self.now ++ number ∷ [])) (self.now ++ number ∷ []) }
    {
        match &self.forks {
            Forks::Bytes(list) => WordList::of_bytes(list.as_slice())?.with(number),
            Forks::Words(list) => list.with(number),
            Forks::Heap(_) => None,
        }
    }

    /// Allocates the name of child `number`, which must fit neither a `ByteList` nor a `WordList`.
    #[inline(never)]
    fn long_child(&self, alloc: Global, number: u64) -> Result<Name, AllocError>
        requires bytes { ¬ FitsBytes (self.now ++ number ∷ []) }
        requires words { ¬ FitsWords (self.now ++ number ∷ []) }
        ensures { IfOk result (λ name. name ≡ self.now ++ number ∷ []) }
    {
        let forks = match &self.forks {
            Forks::Bytes(list) => list.widened(alloc, number)?,
            Forks::Words(list) => list.widened(alloc, number)?,
            Forks::Heap(list) => with_number(alloc, list.as_slice(), number)?,
        };
        Ok(Name {
            forks: Forks::Heap(forks),
        })
    }

    /// Returns the number of forks between the root and the thread.
    pub fn len(&self) -> usize
        ensures { result ≡ length self.now }
    {
        match &self.forks {
            Forks::Bytes(list) => list.as_slice().len(),
            Forks::Words(list) => list.as_slice().len(),
            Forks::Heap(list) => list.len(),
        }
    }

    /// Returns the number at index `k` of the name.
    pub fn number(&self, k: usize) -> u64
        requires { k < length self.now }
        ensures { result ≡ slice_index self.now k }
    {
        match &self.forks {
            Forks::Bytes(list) => u64::from(list.as_slice()[k]),
            Forks::Words(list) => u64::from(list.as_slice()[k]),
            Forks::Heap(list) => list[k],
        }
    }

    /// Returns whether this is the name of child `number`, counted from 0, of the thread with the name `parent`.
    pub fn is_child_of(&self, parent: &Name, number: u64) -> bool
        ensures { IsTrue result ↔ (self.now ≡ parent.now ++ number ∷ []) }
    {
        match (&self.forks, &parent.forks) {
            (Forks::Bytes(own), Forks::Bytes(front)) => own.is_longer_by(front, number),
            (Forks::Bytes(_), _) => false,
            (Forks::Words(own), Forks::Words(front)) => own.is_longer_by(front, number),
            (Forks::Words(own), Forks::Bytes(front)) => match WordList::of_bytes(front.as_slice()) {
                Some(front) => own.is_longer_by(&front, number),
                None => false,
            },
            (Forks::Words(_), Forks::Heap(_)) => false,
            (Forks::Heap(own), _) => match own.split_last() {
                Some((last, others)) => *last == number && parent.has_numbers(others),
                None => false,
            },
        }
    }

    fn has_numbers(&self, numbers: &[u64]) -> bool
        ensures { IsTrue result ↔ (self.now ≡ numbers.now) }
    {
        if self.len() != numbers.len() {
            return false;
        }
        for (k, number) in numbers.iter().enumerate() {
            if self.number(k) != *number {
                return false;
            }
        }
        true
    }
}

impl PartialEq for Name {
    ghost eq = { pointwise nat_eq };

    ghost laws = { partial_equiv_from_equiv nat_list_eq_equiv };

    fn eq(&self, other: &Name) -> bool
        ensures eq { result ≡ pointwise nat_eq self.now other.now }
        ensures same { IsTrue result ↔ (self.now ≡ other.now) }
    {
        match (&self.forks, &other.forks) {
            (Forks::Bytes(own), Forks::Bytes(others)) => own.as_slice() == others.as_slice(),
            (Forks::Words(own), Forks::Words(others)) => own.as_slice() == others.as_slice(),
            (Forks::Heap(own), Forks::Heap(others)) => own.as_slice() == others.as_slice(),
            _ => false,
        }
    }
}

impl Eq for Name {
    ghost laws = { nat_list_eq_equiv };
}

fn with_number(alloc: Global, numbers: &[u64], number: u64) -> Result<Vec<u64>, AllocError>
    ensures { IfOk result (λ longer. longer.items ≡ numbers.now ++ number ∷ []) }
{
    let mut longer = Vec::with_capacity(alloc, numbers.len() + 1)?;
    longer.extend_from_slice(numbers)?;
    longer.push(number)?;
    Ok(longer)
}
