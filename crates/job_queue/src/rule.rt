//! The rule of the queue, and what each step does to the view of a pass.
use crate::Ticket;
use crossbeam_queue::protocol::{Join, Lesson, Outcome, Protocol, Split};
use rv_model::Image;
use std::collections::LinkedList;
use std::marker::{Brand, PhantomData};

/// What the owner of a pass knows. It stands in contracts alone: no value of it is made.
pub struct View {
    /// The image whose jobs the queue holds.
    pub image: Image,
    /// The shares of all passes together.
    pub all: u32,
    /// The shares of this pass.
    pub shares: u32,
    /// What this pass pushed, in order.
    pub pushed: LinkedList<Ticket>,
    /// What it took, in order.
    pub taken: LinkedList<Ticket>,
}

/// The right to use a queue, with what its owner knows. It has no bytes.
pub type Pass = crossbeam_queue::Pass<Ticket, View>;

pub struct Truth;

impl Protocol<Ticket, View> for Truth {
    ghost use Rattle.job_queue.specs.Rule.{IsKept, blank};

    ghost holds = { λ items views. IsKept items views };

    ghost first = { blank };
}

/// What a queue is made for. The call that makes it picks both.
pub trait Purpose {
    ghost use Rattle.std.specs.Prelude.{ℕ};
    ghost use Rattle.rv_model.specs.Image.{Img};

    ghost image: { Img };

    ghost shares: { ℕ };
}

impl Purpose for Brand {
    ghost use Rattle.job_queue.specs.Rule.{no_image};

    ghost image = { no_image };

    ghost shares = { 0 };
}

/// Names the image and the shares, once; the second pass is spent.
pub struct Begin<U>(PhantomData<U>);

impl<U: Purpose> Split<View> for Begin<U> {
    ghost use Rattle.job_queue.specs.Rule.{whole, spent};

    ghost left = { λ v. whole U.image U.shares };

    ghost right = { λ v. spent };
}

/// One share goes to a new pass, and comes back with what that pass did.
pub struct Share;

impl Split<View> for Share {
    ghost use Rattle.job_queue.specs.Rule.{less_one, one_of};

    ghost left = { λ v. less_one v };

    ghost right = { λ v. one_of v };
}

impl Join<View> for Share {
    ghost use Rattle.job_queue.specs.Rule.{joined, spent};

    ghost both = { λ v w. joined v w };

    ghost spent = { spent };
}

pub struct Pushes;

impl Outcome<Ticket, View> for Pushes {
    ghost use Rattle.std.specs.Prelude.{◌≡◌};
    ghost use Rattle.job_queue.specs.Rule.{with_pushed};

    ghost then = { λ v t w. w ≡ with_pushed v t };
}

impl Lesson<Ticket, View> for Pushes {
    ghost use Rattle.job_queue.specs.Rule.{IsSeen};

    ghost fact = { λ v items. IsSeen v items };
}

pub struct Takes;

impl Outcome<Ticket, View> for Takes {
    ghost use Rattle.std.specs.Prelude.{◌≡◌};
    ghost use Rattle.job_queue.specs.Truth.{IsTrueOf};
    ghost use Rattle.job_queue.specs.Rule.{with_taken};

    ghost then = { λ v t w. (w ≡ with_taken v t) × IsTrueOf v.image t };
}

impl Lesson<Ticket, View> for Takes {
    ghost use Rattle.job_queue.specs.Rule.{IsSeen};

    ghost fact = { λ v items. IsSeen v items };
}
