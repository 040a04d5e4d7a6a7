// Lemmas in order.
ghost use Rattle.std.specs.Prelude.{◌≡◌, ◌<◌, [], ◌∷◌, ◌++◌, length, slice_get, Some, IfSome, IfOk, OnOk, OnErr, true};
ghost use Rattle.lgc_packed.specs.Packed.{IsFullAt, IsIncluded, is_full};
ghost use Rattle.lgc_lemmas.specs.declared.lemma.Reason.TheVariants.{Axiom};
ghost use Rattle.lgc_lemmas.specs.Answers.{IsProvedBy};

use crate::{Lemma, Reason};
use lgc_packed::{Packed, included_in};
use lgc_values::List;
use std::alloc::{AllocError, Global};
use std::marker::Model;

/// Lemmas in the order in which they were proved, seen as their list.
///
/// A goal that includes a lemma has the lemma's largest number, and each bit of its digest. So the places of the lemmas are also kept by
/// these numbers, with the digests, and only lemmas of the goal's numbers whose bits the goal has are compared with it. Nothing rests on
/// that: what is found there is compared.
#[derive(Drop)]
pub struct Lemmas<const N: usize> {
    items: List<Lemma<N>>,
    by_largest: Vec<Vec<Place>>,
}

// The place of a lemma, and its digest.
#[derive(Clone, Copy, Debug)]
struct Place {
    place: u64,
    digest: u64,
}

impl<const N: usize> Model for Lemmas<N> {
    ghost use Rattle.std.specs.Prelude.{List};
    ghost use Rattle.lgc_lemmas.specs.Plain.{PlainLemma};

    ghost Value = { List PlainLemma };

    ghost view = { λ lemmas. lemmas.items };
}

impl<const N: usize> Lemmas<N> {
    /// No lemmas. It takes no memory; `alloc` is kept for later ones.
    pub fn new(alloc: Global) -> Self
        ensures { result ≡ [] }
    {
        Lemmas {
            items: List::new(alloc),
            by_largest: Vec::new(alloc),
        }
    }

    /// The lemmas by their places, which count from 0.
    pub fn items(&self) -> &[Lemma<N>]
        ensures { result.now ≡ self.now }
    {
        self.items.items()
    }

    /// The lemma at a place.
    pub fn lemma(&self, place: u64) -> &Lemma<N>
        requires { place < length self.now }
        ensures { slice_get self.now place ≡ Some result.now }
    {
        self.items.get(place as usize)
    }

    /// Some lemma that the goal includes. None doesn't say that there is none.
    pub fn known(&self, goal: &Packed<N>) -> Option<u64>
        ensures { IfSome result (IsProvedBy N self.now goal.now) }
    {
        let digest = digest_of(goal);
        for pair in goal.pairs() {
            if let Some(place) = self.known_by(pair.0, goal, digest) {
                return Some(place);
            }
        }
        None
    }

    // Some lemma with this largest number that the goal, which has this digest, includes.
    fn known_by(&self, number: u64, goal: &Packed<N>, digest: u64) -> Option<u64>
        ensures { IfSome result (IsProvedBy N self.now goal.now) }
    {
        let lemmas = self.items.items();
        if number >= self.by_largest.len() as u64 {
            return None;
        }
        for entry in &self.by_largest[number as usize] {
            if entry.digest & digest == entry.digest && entry.place < lemmas.len() as u64 {
                let lemma = &lemmas[entry.place as usize];
                if included_in(&lemma.sequent, goal) {
                    return Some(entry.place);
                }
            }
        }
        None
    }

    /// Appends a lemma, and answers its place. On want of memory the lemmas are as they were, and the new one is dropped.
    pub fn append(&mut self, lemma: Lemma<N>) -> Result<u64, AllocError>
        ensures place { IfOk result (λ place. place ≡ length self.old) }
        ensures ok { OnOk result (self.new ≡ self.old ++ lemma.entry ∷ []) }
        ensures err { OnErr result (self.new ≡ self.old) }
    {
        let place = self.items.items().len() as u64;
        let entry = Place {
            place,
            digest: digest_of(&lemma.sequent),
        };
        put_at(&mut self.by_largest, largest_number(&lemma.sequent), entry)?;
        self.items.push(lemma)?;
        Ok(place)
    }
}

// Puts a place to a largest number.
fn put_at(places: &mut Vec<Vec<Place>>, number: usize, entry: Place) -> Result<(), AllocError> {
    for _ in places.len()..number {
        let alloc = *places.allocator();
        places.push(Vec::new(alloc))?;
    }
    if places.len() == number {
        let alloc = *places.allocator();
        places.push(Vec::new(alloc))?;
    }
    if number < places.len() {
        places[number].push(entry)?;
    }
    Ok(())
}

// A bit for each value that stands on a formula; several may share one. A sequent that includes another has all of its bits.
fn digest_of<const N: usize>(packed: &Packed<N>) -> u64 {
    let mut digest = 0;
    for pair in packed.pairs() {
        let (number, sign) = *pair;
        let shift = number.wrapping_mul(N as u64) % 49;
        digest |= u64::from(sign.mask()) << shift;
    }
    digest
}

// The largest number of a sequent, and 0 where it is empty.
fn largest_number<const N: usize>(packed: &Packed<N>) -> usize {
    match packed.pairs().last() {
        Some(pair) => pair.0 as usize,
        None => 0,
    }
}

/// The lemma of a formula that carries all values, by itself.
pub fn axiom_at<const N: usize>(
    alloc: Global,
    goal: &Packed<N>,
    at: usize,
) -> Result<Lemma<N>, AllocError>
    requires { IsFullAt N goal.now at }
    ensures axiom { IfOk result (λ lemma. lemma.reason ≡ Axiom) }
    ensures full { IfOk result (λ lemma. is_full N lemma.sequent ≡ true) }
    ensures included { IfOk result (λ lemma. IsIncluded N lemma.sequent goal.now) }
{
    let (number, sign) = goal.pairs()[at];
    let mut sequent = Packed::new(alloc);
    sequent.add(number, sign)?;
    Ok(Lemma {
        sequent,
        reason: Reason::Axiom,
    })
}
