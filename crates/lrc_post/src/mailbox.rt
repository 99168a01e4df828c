// One node's mailbox.

ghost use Rattle.std.specs.Prelude.{◌≡◌, ◌≢◌, ◌%◌, [], ◌∷◌, true, false, length, IfOk, IfErr, IfSome, IsErrAnd, OnErr, OnOk, All, IsTrue, ◌↔◌};
ghost use Rattle.lrc_envelope.specs.declared.picker.Picker.TheVariants.{Twice};
ghost use Rattle.lrc_post.specs.declared.fault.PostFault.TheVariants.{Closed, NoMemory};
ghost use Rattle.lrc_post.specs.Mailbox.{with_puts, IsAllGiven, IsCutShort, GivesParcel};
ghost use Rattle.lrc_post.specs.Wires.{IsLegal, IsTakenBy, in_flight};

use crate::fault::{PostFault, Unput};
use crate::parcel::{Parcel, Wire};
use crate::queue::{drop_next, line_up, make_room, next_place, parcel_at};
use lrc_envelope::Picker;
use std::alloc::{AllocError, Global};
use std::collections::VecDeque;
use std::marker::Model;

/// The mailbox of one node, with the history of its puts and takes. Each take names an earlier put for the owner.
#[derive(Drop)]
pub struct Mailbox {
    owner: u8,
    picker: Picker,
    closed: bool,
    history: Vec<Wire>,
    flight: VecDeque<usize>,
}

impl Model for Mailbox {
    ghost use Rattle.lrc_post.specs.Mailbox.{MailboxRecord, IsMailboxKept};

    ghost Value = { MailboxRecord };

    ghost view = { λ m. record { owner = m.owner; picker = m.picker; closed = m.closed; history = m.history.items } };

    ghost invariant = { λ m. IsMailboxKept m.owner m.picker m.history.items m.flight.items };
}

impl Mailbox {
    /// Creates an empty, open mailbox for a node, the same whatever the number of nodes is. It fails if memory runs out.
    pub fn new(alloc: Global, owner: u8, nodes: u8, picker: Picker) -> Result<Self, AllocError>
        ensures { IfOk result (λ mailbox. mailbox
            ≡ record { owner = owner; picker = picker; closed = false; history = [] }) }
    {
        Ok(Mailbox {
            owner,
            picker,
            closed: false,
            history: Vec::with_capacity(alloc, usize::from(nodes))?,
            flight: VecDeque::new(alloc),
        })
    }

    /// Creates an empty, open mailbox without room. It takes no memory.
    pub(crate) fn empty(owner: u8, picker: Picker, alloc: Global) -> Self
        ensures { result ≡ record { owner = owner; picker = picker; closed = false; history = [] } }
    {
        Mailbox {
            owner,
            picker,
            closed: false,
            history: Vec::new(alloc),
            flight: VecDeque::new(alloc),
        }
    }

    /// Returns the node that owns the mailbox.
    pub fn owner(&self) -> u8
        ensures { result ≡ self.now.owner }
    {
        self.owner
    }

    /// Returns the picker, which says which parcel is given next.
    pub fn picker(&self) -> Picker
        ensures { result ≡ self.now.picker }
    {
        self.picker
    }

    /// Puts parcels for the owner, in order. A closed mailbox refuses them with `Closed`, and nothing changes. If
    /// memory runs out, the parcels before the refused one are put. An error hands back the refused parcel and all
    /// after it.
    pub fn put_all(&mut self, from: u8, parcels: Vec<Parcel>) -> Result<(), Unput>
        requires { All (λ p. p.to ≡ self.old.owner) parcels.items }
        ensures ok { OnOk result (self.new ≡ with_puts self.old from parcels.items) }
        ensures closed { self.old.closed ≡ true → IsErrAnd result
            (λ u. (u.fault ≡ Closed) × (u.parcels.items ≡ parcels.items)) }
        ensures unchanged { self.old.closed ≡ true → self.new ≡ self.old }
        ensures open { self.old.closed ≡ false → IfErr result (λ u. (u.fault ≡ NoMemory)
            × IsCutShort self.old from parcels.items u.parcels.items self.new) }
    {
        if self.closed {
            return Err(Unput {
                fault: PostFault::Closed,
                parcels,
            });
        }
        match self.put_each(from, parcels) {
            Ok(()) => Ok(()),
            Err(parcels) => Err(Unput {
                fault: PostFault::NoMemory,
                parcels,
            }),
        }
    }

    /// Gives the owner its next parcel: the oldest or the newest in flight, as the picker says. With `Twice` it is the
    /// oldest, which stays in flight after it was given for the first time. Returns none if no parcel is in flight or
    /// the mailbox is closed. If memory runs out, nothing changes.
    pub fn give(&mut self) -> Result<Option<Parcel>, PostFault>
        ensures ok { IfOk result (λ parcel. GivesParcel self.old parcel self.new) }
        ensures err { OnErr result (self.new ≡ self.old) }
        ensures fault { IfErr result (λ fault. fault ≡ NoMemory) }
    {
        if self.closed {
            return Ok(None);
        }
        let Some(place) = next_place(&self.flight, self.picker) else {
            return Ok(None);
        };
        self.history.reserve(1)?;
        let parcel = parcel_at(&self.history, place)?;
        let Ok(()) = self.history.push(Wire::Took {
            me: self.owner,
            place,
        })
        else {
            unreachable!()
        };
        drop_next(&mut self.flight, self.picker);
        Ok(Some(parcel))
    }

    /// Closes the mailbox. The history stays.
    pub fn close(&mut self)
        ensures { self.new ≡ record self.old { closed = true } }
    {
        self.closed = true;
    }

    /// Returns all puts and takes, in order.
    pub fn history(&self) -> &[Wire]
        ensures all { result.now ≡ self.now.history }
        ensures legal { IsLegal self.now.owner self.now.history }
        ensures taken { IsTakenBy self.now.picker self.now.history }
    {
        self.history.as_slice()
    }

    /// Returns whether no parcel is in flight: each parcel was given as often as the picker requires.
    pub fn is_empty(&self) -> bool
        ensures { IsTrue result ↔ IsAllGiven self.now }
    {
        self.flight.is_empty()
    }

    /// Gives the next parcel to a node, as `give` does, if that node is the owner. Any other node is given none.
    pub(crate) fn give_to(&mut self, me: u8) -> Result<Option<Parcel>, PostFault>
        ensures mine { IfOk result (λ parcel. IfSome parcel (λ p. p.to ≡ me)) }
        ensures given { self.old.owner ≡ me → IfOk result
            (λ parcel. GivesParcel self.old parcel self.new) }
        ensures err { OnErr result (self.new ≡ self.old) }
        ensures fault { IfErr result (λ fault. fault ≡ NoMemory) }
    {
        if self.owner() == me {
            self.give()
        } else {
            Ok(None)
        }
    }

    /// Puts one parcel, as `put_all` does. A parcel for another node is refused with `Closed`. An error changes nothing
    /// and hands the parcel back.
    pub(crate) fn put_own(&mut self, from: u8, parcel: Parcel) -> Result<(), (PostFault, Parcel)>
        ensures ok { OnOk result (self.new ≡ with_puts self.old from (parcel ∷ [])) }
        ensures err { OnErr result (self.new ≡ self.old) }
        ensures back { IfErr result (λ refused. refused.1 ≡ parcel) }
        ensures closed { self.old.closed ≡ true → IsErrAnd result (λ refused. refused.0 ≡ Closed) }
        ensures other { parcel.to ≢ self.old.owner
            → IsErrAnd result (λ refused. refused.0 ≡ Closed) }
        ensures open { self.old.closed ≡ false → parcel.to ≡ self.old.owner
            → IfErr result (λ refused. refused.0 ≡ NoMemory) }
    {
        if self.closed || parcel.to != self.owner {
            return Err((PostFault::Closed, parcel));
        }
        match self.put(from, parcel) {
            Ok(()) => Ok(()),
            Err(refused) => Err((PostFault::NoMemory, refused)),
        }
    }

    /// Returns whether the owner would wait for a parcel: the mailbox is open and no parcel is in flight.
    pub(crate) fn is_quiet(&self) -> bool
        ensures { IsTrue result ↔ ((self.now.closed ≡ false) × IsAllGiven self.now) }
    {
        !self.closed && self.is_empty()
    }

    /// Returns whether the next parcel was given once already, as with `Twice` after the first of its two takes.
    pub(crate) fn is_halfway(&self) -> bool
        ensures { IsTrue result ↔ ((self.now.picker ≡ Twice)
            × (length (in_flight self.now.picker self.now.history) % 2 ≡ 1)) }
    {
        self.picker == Picker::Twice && self.flight.len() % 2 == 1
    }

    // Puts parcels in order, until memory is wanted: then those that were not put come back.
    fn put_each(&mut self, from: u8, mut parcels: Vec<Parcel>) -> Result<(), Vec<Parcel>>
        requires { All (λ p. p.to ≡ self.old.owner) parcels.items }
        ensures ok { OnOk result (self.new ≡ with_puts self.old from parcels.items) }
        ensures err { IfErr result (λ back. IsCutShort self.old from parcels.items back.items
            self.new) }
    {
        parcels.reverse();
        while let Some(parcel) = parcels.pop() {
            if let Err(refused) = self.put(from, parcel) {
                parcels.push_reserved(refused);
                parcels.reverse();
                return Err(parcels);
            }
        }
        Ok(())
    }

    // Puts one parcel, which comes back for want of memory.
    fn put(&mut self, from: u8, parcel: Parcel) -> Result<(), Parcel>
        requires { parcel.to ≡ self.old.owner }
        ensures ok { OnOk result (self.new ≡ with_puts self.old from (parcel ∷ [])) }
        ensures err { OnErr result (self.new ≡ self.old) }
        ensures back { IfErr result (λ refused. refused ≡ parcel) }
    {
        if make_room(&mut self.history, &mut self.flight).is_err() {
            return Err(parcel);
        }
        let place = self.history.len();
        let put = Wire::Put {
            from,
            to: parcel.to,
            stamp: parcel.stamp,
            bytes: parcel.bytes,
        };
        self.history.push_reserved(put);
        line_up(&mut self.flight, self.picker, place);
        Ok(())
    }
}
