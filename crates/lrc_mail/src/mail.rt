// A node's mail.

ghost use Rattle.std.specs.Prelude.{◌≡◌, ◌+◌, ◌<◌, ◌≤◌, Some, None, Err, All, IfOk, OnErr, OnOk, OnSome, false, [], ◌∷◌, ◌++◌, length, replicate, slice_index, slice_index_or, slice_set};
ghost use Rattle.lrc_envelope.specs.declared.limits.TheConstants.{MOST_NODES};
ghost use Rattle.lrc_mail.specs.declared.fault.MailFault.TheVariants.{Worn};
ghost use Rattle.lrc_protocol.specs.Times.{MOST_NUMBER};
ghost use Rattle.lrc_protocol.specs.Node.{envelope_of, fresh_mail, nothing, was_taken, with_taken, numbered};
ghost use Rattle.lrc_mail.specs.Sent.{AreCounts, number_after};

use crate::fault::MailFault;
use crate::letter::Letter;
use crate::numbers::Numbers;
use lrc_envelope::Envelope;
use lrc_need::Wait;
use std::alloc::{AllocError, Global};
use std::marker::Model;
use std::mem;

/// A node's mail: what the node waits for, how many messages it has sent to each node, and the numbers of the messages
/// that it has taken from each.
#[derive(Drop)]
pub struct Mail {
    wait: Wait,
    sent: Vec<u64>,
    taken: Vec<Numbers>,
    // Lists that were used before, for the messages of later turns.
    spare: Vec<Vec<Envelope>>,
    // The list of letters that were numbered last, for those of a later turn.
    letters: Vec<Letter>,
}

impl Model for Mail {
    ghost use Rattle.lrc_protocol.specs.Node as mail;

    ghost Value = { mail.Mail };

    ghost use Rattle.lrc_need.specs.Wait.{seen_wait};
    ghost use Rattle.lrc_mail.specs.Sent.{AreCounts};

    ghost view = { λ m. record { wait = seen_wait m.wait; sent = m.sent.items; taken = m.taken.items } };

    ghost invariant = { λ m. AreCounts m.sent.items };
}

impl Mail {
    ghost use Rattle.lrc_need.specs.Wait.{seen_wait};

    /// Creates the mail of a node in a run of 1 to 16 nodes, at the start. Nothing is awaited, sent or taken.
    pub fn new(alloc: Global, nodes: u8) -> Result<Self, AllocError>
        requires { nodes ≤ MOST_NODES }
        ensures { IfOk result (λ mail. mail ≡ fresh_mail nodes) }
    {
        Ok(Mail {
            wait: Wait::Nothing,
            sent: none_sent(alloc, nodes)?,
            taken: none_taken(alloc, nodes)?,
            spare: Vec::new(alloc),
            letters: Vec::new(alloc),
        })
    }

    /// Returns what the node waits for.
    pub fn wait(&self) -> &Wait
        ensures { seen_wait result.now ≡ self.now.wait }
    {
        &self.wait
    }

    /// Returns how many messages were sent to a node.
    pub fn sent(&self, to: u8) -> u64
        requires { to < length self.now.sent }
        ensures { result ≡ slice_index self.now.sent to }
    {
        self.sent[usize::from(to)]
    }

    /// Returns how many messages from a node were taken, not counting repeats.
    pub fn taken(&self, from: u8) -> u64
        requires { from < length self.now.taken }
        ensures { result ≡ length (slice_index_or self.now.taken from []) }
    {
        self.taken[usize::from(from)].count()
    }

    /// Sets what the node waits for.
    pub fn wait_for(&mut self, wait: Wait)
        ensures { self.new ≡ record self.old { wait = seen_wait wait } }
    {
        self.wait = wait;
    }

    /// Stops waiting, and returns what was awaited.
    pub fn stop_waiting(&mut self) -> Wait
        ensures was { seen_wait result ≡ self.old.wait }
        ensures after { self.new ≡ record self.old { wait = nothing } }
    {
        mem::replace(&mut self.wait, Wait::Nothing)
    }

    /// Returns whether this node's message with the given number was taken before.
    pub fn was_taken(&self, from: u8, number: u32) -> bool
        requires { from < length self.now.taken }
        ensures { result ≡ was_taken self.now from number }
    {
        self.taken[usize::from(from)].contains(number)
    }

    /// Notes that the message with this number from this node is taken. It must not have been taken before.
    pub fn note_taken(&mut self, from: u8, number: u32) -> Result<(), AllocError>
        requires from { from < length self.old.taken }
        requires anew { was_taken self.old from number ≡ false }
        ensures ok { OnOk result (self.new ≡ with_taken from number self.old) }
        ensures lengths { (length self.new.sent ≡ length self.old.sent)
            × (length self.new.taken ≡ length self.old.taken) }
    {
        self.taken[usize::from(from)].add(number)
    }

    /// Returns an empty list for letters. It reuses the list of the letters numbered last.
    pub fn letters(&mut self) -> Vec<Letter>
        ensures empty { result.items ≡ [] }
        ensures same { self.new ≡ self.old }
    {
        let none = Vec::new(*self.sent.allocator());
        let mut letters = mem::replace(&mut self.letters, none);
        letters.clear();
        letters
    }

    /// Numbers the letters of node `me`, and counts them as sent. The first message to each receiver has the number
    /// `first`, and each later one the number of the one before plus one. It fails with `Worn` if a number would pass
    /// 4,294,967,295, and with `NoMemory` if memory runs out. An error counts no letter.
    pub fn number(
        &mut self,
        me: u8,
        first: u32,
        mut letters: Vec<Letter>,
    ) -> Result<Vec<Envelope>, MailFault>
        requires me { me < MOST_NODES }
        requires to { All (λ letter. letter.to < length self.old.sent) letters.items }
        ensures numbers { IfOk result (λ out. numbered me first self.old.sent letters.items
            ≡ Some (out.items, self.new.sent)) }
        ensures after { OnOk result (self.new ≡ record self.old { sent = self.new.sent }) }
        ensures worn { result ≡ Err Worn → numbered me first self.old.sent letters.items ≡ None }
        ensures refused { OnErr result (self.new ≡ self.old) }
        ensures lengths { (length self.new.sent ≡ length self.old.sent)
            × (length self.new.taken ≡ length self.old.taken) }
    {
        let mut counts = [0u64; 16];
        let counts = &mut counts[..self.sent.len()];
        counts.copy_from_slice(&self.sent);
        let out = self.list_for(letters.len())?;
        let out = number_all(counts, me, first, &mut letters, out)?;
        self.sent.copy_from_slice(counts);
        self.letters = letters;
        Ok(out)
    }

    /// Keeps a list of messages that are no longer needed, so that the messages of a later turn can reuse its memory.
    pub fn keep_list(&mut self, mut out: Vec<Envelope>)
        ensures { self.new ≡ self.old }
    {
        if out.capacity() > 0 {
            out.clear();
            // Without memory for it the list is given up.
            let _given_up = self.spare.push(out);
        }
    }

    // An empty list with room for so many messages, one that was kept where there is any.
    fn list_for(&mut self, count: usize) -> Result<Vec<Envelope>, AllocError>
        ensures same { self.new ≡ self.old }
        ensures empty { IfOk result (λ out. out.items ≡ []) }
    {
        let Some(mut out) = self.spare.pop() else {
            return Vec::with_capacity(*self.sent.allocator(), count);
        };
        out.clear();
        out.reserve(count)?;
        Ok(out)
    }
}

// For each of so many nodes, that no message was sent to it.
fn none_sent(alloc: Global, nodes: u8) -> Result<Vec<u64>, AllocError>
    ensures { IfOk result (λ sent. sent.items ≡ replicate nodes 0) }
{
    let mut sent = Vec::with_capacity(alloc, usize::from(nodes))?;
    for _ in 0..nodes {
        sent.push(0)?;
    }
    Ok(sent)
}

// For each of so many nodes, that no message from it was taken.
fn none_taken(alloc: Global, nodes: u8) -> Result<Vec<Numbers>, AllocError>
    ensures { IfOk result (λ taken. taken.items ≡ replicate nodes []) }
{
    let mut taken = Vec::with_capacity(alloc, usize::from(nodes))?;
    for _ in 0..nodes {
        taken.push(Numbers::empty(alloc))?;
    }
    Ok(taken)
}

// The number of the next message to a node, which counts as sent, unless the number would be too large.
fn next_number(sent: &mut [u64], to: u8, first: u32) -> Option<u32>
    requires counts { AreCounts sent.old }
    requires to { to < length sent.old }
    requires first { first ≤ MOST_NUMBER }
    ensures number { result ≡ number_after first (slice_index sent.old to) }
    ensures after { OnSome result (sent.new ≡ slice_set sent.old to (slice_index sent.old to + 1)) }
    ensures counts { AreCounts sent.new }
{
    let count = &mut sent[usize::from(to)];
    let number = u32::try_from(u64::from(first) + *count).ok()?;
    *count += 1;
    Some(number)
}

// The letters with their numbers, each of which counts as sent, in a list that is empty. They leave their own list.
fn number_all(
    sent: &mut [u64],
    me: u8,
    first: u32,
    letters: &mut Vec<Letter>,
    mut envelopes: Vec<Envelope>,
) -> Result<Vec<Envelope>, MailFault>
    requires counts { AreCounts sent.old }
    requires empty { envelopes.items ≡ [] }
    requires me { me < MOST_NODES }
    requires to { All (λ letter. letter.to < length sent.old) letters.old.items }
    ensures numbers { IfOk result (λ out. numbered me first sent.old letters.old.items
        ≡ Some (out.items, sent.new)) }
    ensures worn { result ≡ Err Worn → numbered me first sent.old letters.old.items ≡ None }
    ensures counts { AreCounts sent.new }
{
    for letter in letters.drain(..) {
        put_numbered(sent, me, first, letter, &mut envelopes)?;
    }
    Ok(envelopes)
}

/// Appends the letter with its number, and counts it as sent.
fn put_numbered(
    sent: &mut [u64],
    me: u8,
    first: u32,
    letter: Letter,
    envelopes: &mut Vec<Envelope>,
) -> Result<(), MailFault>
    requires counts { AreCounts sent.old }
    requires me { me < MOST_NODES }
    requires to { letter.to < length sent.old }
    ensures number { OnOk result (number_after first (slice_index sent.old letter.to)
        ≡ Some (first + slice_index sent.old letter.to)) }
    ensures put { OnOk result (envelopes.new.items
        ≡ envelopes.old.items ++ envelope_of me (first + slice_index sent.old letter.to) letter
        ∷ []) }
    ensures after { OnOk result (sent.new ≡ slice_set sent.old letter.to
        (slice_index sent.old letter.to + 1)) }
    ensures worn { result ≡ Err Worn → number_after first (slice_index sent.old letter.to) ≡ None }
    ensures counts { AreCounts sent.new }
{
    let Some(number) = next_number(sent, letter.to, first) else {
        return Err(MailFault::Worn);
    };
    envelopes.push(Envelope {
        from: me,
        to: letter.to,
        number,
        message: letter.message,
    })?;
    Ok(())
}
