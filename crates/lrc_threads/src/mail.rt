// What a node's thread needs of the post.

ghost use Rattle.std.specs.Prelude.{List, IfErr, IfOk, IfSome, IfNone, OnOk, ◌≡◌};
ghost use Rattle.lrc_post.specs.declared.fault.PostFault.TheVariants.{Closed};
ghost use Rattle.lrc_post.specs.declared.parcel.Parcel.{Parcel as AnyParcel};

use lrc_post::{Parcel, Post, PostFault};
use std::sync::Wait;
use std::thread;

/// What a node's thread needs of the post. Its ghost members tell what was put and taken between two states. Of one
/// state they tell whether a parcel is still to come and whether the post is closed.
pub trait Mail {
    /// These parcels were put, in order.
    ghost puts: { Self → List AnyParcel → Self → Type 0 };

    /// This parcel was taken.
    ghost takes: { Self → AnyParcel → Self → Type 0 };

    /// No parcel will come any more.
    ghost over: { Self → Type 0 };

    /// The post is closed.
    ghost shut: { Self → Type 0 };

    /// Puts parcels, in order. It fails with `Closed` only if the post is closed.
    fn put_all(&mut self, parcels: Vec<Parcel>) -> Result<(), PostFault>
        ensures put { OnOk result (puts self.old parcels.items self.new) }
        ensures closed { IfErr result (λ fault. fault ≡ Closed → shut self.new) };

    /// Returns the next parcel, or none if there is none now. One may still come later.
    fn poll(&mut self) -> Result<Option<Parcel>, PostFault>
        ensures some { IfOk result (λ parcel. IfSome parcel (λ p. takes self.old p self.new)) }
        ensures none { IfOk result (λ parcel. IfNone parcel (self.new ≡ self.old)) }
        ensures closed { IfErr result (λ fault. fault ≡ Closed → shut self.new) };

    /// Waits for the next parcel and returns it, or none if no parcel will come any more.
    fn take(&mut self) -> Result<Option<Parcel>, PostFault>
        ensures some { IfOk result (λ parcel. IfSome parcel (λ p. takes self.old p self.new)) }
        ensures none { IfOk result (λ parcel. IfNone parcel (self.new ≡ self.old)) }
        ensures ended { IfOk result (λ parcel. IfNone parcel (over self.new)) }
        ensures closed { IfErr result (λ fault. fault ≡ Closed → shut self.new) };
}

/// The connection of one node to the post. Its ghost members say nothing, because other threads use the post too, so
/// nothing is known of it.
#[derive(Drop)]
pub struct Line<'p, R> {
    pub rt: &'p R,
    pub post: &'p Post,
    pub me: u8,
}

impl<'p, R: Wait> Mail for Line<'p, R> {
    ghost puts = { λ before parcels after. Unit {0} };

    ghost takes = { λ before parcel after. Unit {0} };

    ghost over = { λ line. Unit {0} };

    ghost shut = { λ line. Unit {0} };

    fn put_all(&mut self, parcels: Vec<Parcel>) -> Result<(), PostFault> {
        match self.post.put_all(self.rt, self.me, parcels) {
            Ok(()) => Ok(()),
            Err(unput) => Err(unput.fault),
        }
    }

    fn poll(&mut self) -> Result<Option<Parcel>, PostFault> {
        self.post.poll(self.rt, self.me)
    }

    // A thread gives way once before it waits: what it waits for may come meanwhile, and then it is not put to sleep.
    fn take(&mut self) -> Result<Option<Parcel>, PostFault> {
        let here = self.poll()?;
        if here.is_some() {
            return Ok(here);
        }
        thread::yield_now();
        self.post.take(self.rt, self.me)
    }
}
