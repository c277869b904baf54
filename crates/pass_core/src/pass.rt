//! Functions that are changed in the background.

ghost use Rattle.std.specs.Prelude.{◌≡◌, is_some, IsSome, IfSome};
ghost use Rattle.addr4.specs.Places.{key_of, IsBeyond};
ghost use Rattle.pass_core.specs.Passed.{is_beyond, function_at, present, holds_up, edited, stepped, finished, begun, latest_of, waits};
ghost use Rattle.pass_core.specs.Walks.{walked};

use addr4::{Family, Place, Prefix, V4};
use std::marker::Model;

/// A function, as of a filter, that is changed in the background. Contracts see the function in force and the walk that is
/// on, if any, with its place and the function that waits for its end. No call takes memory.
#[derive(Drop)]
pub struct Pass<T, F: Family = V4> {
    in_force: T,
    walk: Option<Walk<T, Prefix<F>>>,
}

// A walk over the prefixes. What waits is part of it, so nothing can wait without a walk.
#[derive(Drop)]
struct Walk<T, P> {
    next: T,
    place: Place<P>,
    waiting: Option<T>,
}

impl<T, F: Family> Model for Pass<T, F> {
    ghost use Rattle.pass_core.specs.Passed.{Passed, passed_code};
    ghost use Rattle.pass_core.specs.Walks.{walk_of};

    ghost Value = { Passed T };

    ghost coded = { passed_code T.code };

    ghost view = { λ p. record { in_force = p.in_force; walk = walk_of p.walk } };
}

// Whether the prefix lies beyond the place.
fn is_beyond<F: Family>(place: Place<Prefix<F>>, prefix: Prefix<F>) -> bool
    ensures { result ≡ is_beyond (key_of place) prefix }
{
    match place {
        Place::Before => true,
        Place::At(last) => last < prefix,
    }
}

// A walk that stands before all prefixes.
fn begun<T, F: Family>(next: T) -> Walk<T, Prefix<F>>
    ensures { walked result ≡ begun next }
{
    Walk {
        next,
        place: Place::Before,
        waiting: None,
    }
}

impl<T, P> Walk<T, P> {
    // The function that waits, or else the new one.
    fn latest(&self) -> &T
        ensures { result.now ≡ latest_of self.now.next self.now.waiting }
    {
        match &self.waiting {
            None => &self.next,
            Some(waiting) => waiting,
        }
    }
}

impl<T: Drop, F: Family> Pass<T, F> {
    /// The function is in force everywhere, and no walk is on.
    pub fn new(first: T) -> Pass<T, F>
        ensures { result ≡ record { in_force = first; walk = None } }
    {
        Pass {
            in_force: first,
            walk: None,
        }
    }

    /// Begins a walk that is to bring the function into force. During a walk the function waits for its end, in place of one
    /// that waited before.
    pub fn edit(&mut self, function: T)
        ensures { self.new ≡ edited self.old function }
    {
        match &mut self.walk {
            None => self.walk = Some(begun(function)),
            Some(walk) => walk.waiting = Some(function),
        }
    }

    /// The one function that holds at a prefix: up to the place of a walk, that prefix included, the new one, beyond it the
    /// one in force.
    pub fn at(&self, prefix: Prefix<F>) -> &T
        ensures { result.now ≡ function_at self.now prefix }
    {
        match &self.walk {
            None => &self.in_force,
            Some(walk) => {
                if is_beyond(walk.place, prefix) {
                    return &self.in_force;
                }
                &walk.next
            }
        }
    }

    /// The function of the latest edit: the one that waits, or else the new one of the walk, or else the one in force.
    pub fn present(&self) -> &T
        ensures { result.now ≡ present self.now }
    {
        match &self.walk {
            None => &self.in_force,
            Some(walk) => walk.latest(),
        }
    }

    /// Whether a walk is on.
    pub fn busy(&self) -> bool
        ensures { result ≡ is_some self.now.walk }
    {
        self.walk.is_some()
    }

    /// Whether a function waits for the end of the walk that is on.
    pub fn waits(&self) -> bool
        ensures { result ≡ waits self.now }
    {
        match &self.walk {
            None => false,
            Some(walk) => walk.waiting.is_some(),
        }
    }

    /// Whether another function than the latest one may hold at a prefix: a walk is on that has yet to come there, or at whose
    /// end a function waits.
    pub fn holds_up(&self, prefix: Prefix<F>) -> bool
        ensures { result ≡ holds_up self.now prefix }
    {
        match &self.walk {
            None => false,
            Some(walk) => is_beyond(walk.place, prefix) || walk.waiting.is_some(),
        }
    }

    /// How far the walk has come. To be asked while a walk is on.
    pub fn place(&self) -> Place<Prefix<F>>
        requires { IsSome self.now.walk }
        ensures { IfSome self.now.walk (λ walk. key_of result ≡ walk.place) }
    {
        match &self.walk {
            None => unreachable!(),
            Some(walk) => walk.place,
        }
    }

    /// The function that the walk brings into force. To be asked while a walk is on.
    pub fn coming(&self) -> &T
        requires { IsSome self.now.walk }
        ensures { IfSome self.now.walk (λ walk. result.now ≡ walk.next) }
    {
        match &self.walk {
            None => unreachable!(),
            Some(walk) => &walk.next,
        }
    }

    /// The walk goes on to a prefix beyond its place: there, and at all that lie between, the new function holds from now
    /// on. To be called while a walk is on.
    pub fn step_to(&mut self, prefix: Prefix<F>)
        requires busy { IsSome self.old.walk }
        requires beyond { IfSome self.old.walk (λ walk. IsBeyond walk.place prefix) }
        ensures { self.new ≡ stepped self.old prefix }
    {
        match &mut self.walk {
            None => unreachable!(),
            Some(walk) => walk.place = Place::At(prefix),
        }
    }

    /// Ends the walk: its function is in force everywhere, and one that waits begins a walk of its own. To be called while a
    /// walk is on.
    pub fn finish(&mut self)
        requires { IsSome self.old.walk }
        ensures { self.new ≡ finished self.old }
    {
        match self.walk.take() {
            None => unreachable!(),
            Some(walk) => {
                let Walk {
                    next,
                    place: _,
                    waiting,
                } = walk;
                self.in_force = next;
                if let Some(waiting) = waiting {
                    self.walk = Some(begun(waiting));
                }
            }
        }
    }
}
