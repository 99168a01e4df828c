// The post between the threads of a run: each node's mailbox under a lock of its own.

ghost use Rattle.std.specs.Prelude.{◌≡◌, ◌<◌, ◌≤◌, [], All, IfOk, IfErr, IfSome, IsErrAnd, None, Ok, OnOk, length};
ghost use Rattle.std.specs.Vec.{vec_capacity};
ghost use Rattle.lrc_post.specs.declared.fault.PostFault.TheVariants.{Closed, NoMemory};
ghost use Rattle.lrc_post.specs.Post.{AreOf, IsHandedBack};

use crate::fault::{PostFault, Unput};
use crate::mailbox::Mailbox;
use crate::parcel::Parcel;
use crate::wires::Wires;
use lrc_envelope::Picker;
use std::alloc::{AllocError, Global};
use std::sync::atomic::{AtomicUsize, Ordering};
use std::sync::{Condvar, Mutex, Wait};

/// The mailbox of one node under its lock, and the condition on which its owner waits.
#[derive(Drop)]
struct Desk {
    mailbox: Mutex<Mailbox>,
    arrived: Condvar,
}

/// The mailboxes of all nodes, from node 0 up, for nodes that run on separate threads. The post closes by itself when
/// every node waits and no parcel is in flight, because then nothing can happen any more.
#[derive(Drop)]
pub struct Post {
    desks: Vec<Desk>,
    wires: Vec<Mailbox>,
    idle: AtomicUsize,
    nodes: u8,
    picker: Picker,
    alloc: Global,
    ghost empty: { wires.items ≡ [] },
    ghost room: { nodes ≤ vec_capacity wires },
    ghost each: { length desks.items ≡ nodes },
}

impl Post {
    /// Creates a post for this many nodes, each with an empty, open mailbox. It fails if memory runs out.
    pub fn new(alloc: Global, nodes: u8, picker: Picker) -> Result<Self, AllocError>
        ensures nodes { IfOk result (λ post. post.nodes ≡ nodes) }
        ensures picker { IfOk result (λ post. post.picker ≡ picker) }
    {
        let mut desks = Vec::new(alloc);
        for owner in 0..nodes {
            desks.push(Desk {
                mailbox: Mutex::new(Mailbox::new(alloc, owner, nodes, picker)?),
                arrived: Condvar::new(),
            })?;
        }
        Ok(Post {
            desks,
            wires: Vec::with_capacity(alloc, usize::from(nodes))?,
            idle: AtomicUsize::new(usize::from(nodes)),
            nodes,
            picker,
            alloc,
        })
    }

    /// Puts parcels, in order, each into the mailbox of its `to`. The call stops at the first refused parcel: it hands
    /// back that parcel and all after it, and the parcels before it stay put. The fault is `Closed` if that mailbox is
    /// closed or does not exist, and otherwise `NoMemory`. No parcel is put for a node that does not exist.
    pub fn put_all<R: Wait>(&self, rt: &R, from: u8, mut parcels: Vec<Parcel>) -> Result<(), Unput>
        ensures there { OnOk result (All (λ p. p.to < self.now.nodes) parcels.items) }
        ensures back { IfErr result (λ u. IsHandedBack self.now.nodes u.fault parcels.items
            u.parcels.items) }
    {
        parcels.reverse();
        while let Some(parcel) = parcels.pop() {
            if let Err((fault, refused)) = self.put(rt, from, parcel) {
                parcels.push_reserved(refused);
                parcels.reverse();
                return Err(Unput { fault, parcels });
            }
        }
        Ok(())
    }

    /// Returns the next parcel for a node, or none if no parcel is in flight for it, its mailbox is closed or there is no
    /// such node. It fails only if memory runs out, and then the mailbox does not change.
    pub fn poll<R: Wait>(&self, rt: &R, me: u8) -> Result<Option<Parcel>, PostFault>
        ensures mine { IfOk result (λ parcel. IfSome parcel (λ p. p.to ≡ me)) }
        ensures nowhere { self.now.nodes ≤ me → result ≡ Ok None }
        ensures fault { IfErr result (λ fault. fault ≡ NoMemory) }
    {
        let Some(desk) = self.desks.get(usize::from(me)) else {
            return Ok(None);
        };
        let mut mailbox = desk.mailbox.lock(rt);
        let parcel = mailbox.give_to(me)?;
        let stays = mailbox.is_halfway();
        drop(mailbox);
        if parcel.is_some() && !stays {
            self.settle(rt);
        }
        Ok(parcel)
    }

    /// Returns the next parcel for a node, as `poll` does, but waits until there is one or the mailbox is closed. It
    /// returns none only if the mailbox is closed or there is no such node, and fails only if memory runs out.
    pub fn take<R: Wait>(&self, rt: &R, me: u8) -> Result<Option<Parcel>, PostFault>
        ensures mine { IfOk result (λ parcel. IfSome parcel (λ p. p.to ≡ me)) }
        ensures nowhere { self.now.nodes ≤ me → result ≡ Ok None }
        ensures fault { IfErr result (λ fault. fault ≡ NoMemory) }
    {
        let Some(desk) = self.desks.get(usize::from(me)) else {
            return Ok(None);
        };
        if !desk.mailbox.lock(rt).is_quiet() {
            return self.poll(rt, me);
        }
        self.settle(rt);
        let mut mailbox = desk
            .arrived
            .wait_while(rt, desk.mailbox.lock(rt), |mailbox| mailbox.is_quiet());
        let parcel = mailbox.give_to(me)?;
        if parcel.is_some() && mailbox.is_halfway() {
            self.idle.fetch_add(1, Ordering::SeqCst);
        }
        Ok(parcel)
    }

    /// Closes all mailboxes, one after another, and wakes the nodes that wait. The histories stay.
    pub fn close<R: Wait>(&self, rt: &R) {
        for desk in &self.desks {
            desk.mailbox.lock(rt).close();
            desk.arrived.notify_all();
        }
    }

    /// Returns the mailboxes, one for each node, with their histories. All have the picker of the post. It takes no
    /// memory.
    #[tactic(auto, using(crate::proofs::Mailboxes::wires_more, crate::proofs::Mailboxes::no_wires))]
    pub fn into_wires(self) -> Wires
        ensures count { length result ≡ self.nodes }
        ensures picker { AreOf self.picker result }
    {
        let mut mailboxes = self.wires;
        let mut desks = self.desks.into_iter();
        for owner in 0..self.nodes {
            let mailbox = match desks.next() {
                Some(desk) => own_or_empty(
                    desk.mailbox.into_inner(),
                    owner,
                    self.picker,
                    self.alloc,
                ),
                None => Mailbox::empty(owner, self.picker, self.alloc),
            };
            // For the proof: the history of a mailbox is legal.
            let _history = mailbox.history();
            mailboxes.push_reserved(mailbox);
        }
        Wires { mailboxes }
    }

    // Puts one parcel and wakes its owner.
    fn put<R: Wait>(&self, rt: &R, from: u8, parcel: Parcel) -> Result<(), (PostFault, Parcel)>
        ensures there { OnOk result (parcel.to < self.now.nodes) }
        ensures back { IfErr result (λ refused. refused.1 ≡ parcel) }
        ensures nowhere { self.now.nodes ≤ parcel.to → IsErrAnd result
            (λ refused. refused.0 ≡ Closed) }
    {
        let Some(desk) = self.desks.get(usize::from(parcel.to)) else {
            return Err((PostFault::Closed, parcel));
        };
        self.idle.fetch_add(1, Ordering::SeqCst);
        let put = desk.mailbox.lock(rt).put_own(from, parcel);
        if put.is_ok() {
            desk.arrived.notify_one();
        } else {
            self.settle(rt);
        }
        put
    }

    // Takes one away from the idle count. Whoever brings it to 0 closes the post, and holds no lock meanwhile.
    fn settle<R: Wait>(&self, rt: &R) {
        if self.idle.fetch_sub(1, Ordering::SeqCst) == 1 {
            self.close(rt);
        }
    }
}

// A node's mailbox, which a lock gave back. That it is this node's, and of this picker, is known of no lock, so it is looked at.
fn own_or_empty(mailbox: Mailbox, owner: u8, picker: Picker, alloc: Global) -> Mailbox
    ensures owner { result.owner ≡ owner }
    ensures picker { result.picker ≡ picker }
    ensures own { mailbox.owner ≡ owner → mailbox.picker ≡ picker → result ≡ mailbox }
{
    if mailbox.owner() == owner && mailbox.picker() == picker {
        mailbox
    } else {
        Mailbox::empty(owner, picker, alloc)
    }
}
