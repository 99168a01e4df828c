// One node's thread.

ghost use Rattle.std.specs.Prelude.{List, ◌≡◌, ◌++◌, ◌∷◌, [], IfOk, OnOk, Ok, map, MatchOption, is_err, true, false, IfErr, IfSome, IfNone, ◌≢◌, All, Any};
ghost use Rattle.lrc_protocol.specs.Run as log;
ghost use Rattle.lrc_protocol.specs.Run.{EntryRecord};
ghost use Rattle.lrc_node.specs.Logged.{sound};
ghost use Rattle.lrc_wire.specs.Reading.{envelope_of};
ghost use Rattle.lrc_threads.specs.declared.stop.Stop.TheVariants.{Closed, NoMemory, Worn};
ghost use Rattle.lrc_threads.specs.Worker.{GoesTo, IsIdle, IsRead, IsShort, IsTooLong, LogsLast, SendsTo, TakesIn, TakesNext, TracesTo, made_of, shown, shown_sent, stop_of};

use crate::gate::Gate;
use crate::mail::Mail;
use crate::spin::Spin;
use crate::stop::Stop;
use lrc_envelope::Envelope;
use lrc_node::{Logged, NodeFault};
use lrc_post::{Parcel, PostFault};
use lrc_trace::act::Deed;
use lrc_wire::{EncodeFault, WireFault, decode, encode};
use std::alloc::Global;
use std::sync::Wait;
use std::thread;

/// The most turns that a node makes by itself before it looks for a message.
const TURNS: u32 = 64;

/// Makes a node's turns until it waits and no message will come any more. The node goes on while it is ready. When it
/// is not ready, it waits for messages and takes them. A ready node looks for messages after each release of a lock,
/// and after every 64 turns. A node that spins under a lock lets other threads go on meanwhile. The messages of a turn
/// are put before the next turn. A message that cannot be read, or that the node does not expect, is taken and makes no
/// turn.
///
/// It ends well only if the node waits and its mail, asked for the next message, says that there will be none. It fails
/// with `Closed` only if its mail says that the post is closed. What either means is up to the mail: a `Line`, whose
/// post other threads use too, means nothing by it. `Worn` comes only of a turn that is too large, or that has a
/// message which is too long to be sent.
pub fn work<M: Mail, G: Gate, R: Wait>(
    rt: &R,
    alloc: Global,
    gate: &G,
    mail: &mut M,
    node: &mut Logged<'_>,
    me: u8,
) -> Result<(), Stop>
    ensures goes { (l : log.Logged) → node.old.logged ≡ sound l
        → GoesTo M.puts M.takes mail.old l mail.new node.new.logged result }
    ensures over { (l : log.Logged) → node.old.logged ≡ sound l
        → OnOk result (IsIdle node.new.logged) }
    ensures ended { OnOk result (M.over mail.new) }
    ensures closed { IfErr result (λ stop. stop ≡ Closed → M.shut mail.new) }
    ensures traced { TracesTo node.old node.new result }
{
    let mut spin = Spin::new();
    for _round in rt.forever() {
        go_on(alloc, gate, mail, node, me, &mut spin)?;
        if !receive(alloc, gate, mail, node, me, &mut spin)? {
            return Ok(());
        }
    }
    Ok(())
}

// The node goes on by itself, or stands aside where it spins.
fn go_on<M: Mail, G: Gate>(
    alloc: Global,
    gate: &G,
    mail: &mut M,
    node: &mut Logged<'_>,
    me: u8,
    spin: &mut Spin,
) -> Result<(), Stop>
    ensures goes { (l : log.Logged) → node.old.logged ≡ sound l
        → GoesTo M.puts M.takes mail.old l mail.new node.new.logged result }
    ensures closed { IfErr result (λ stop. stop ≡ Closed → M.shut mail.new) }
    ensures traced { TracesTo node.old node.new result }
{
    if spin.rest() {
        thread::yield_now();
        return Ok(());
    }
    run_on(alloc, gate, mail, node, me, spin)
}

// The node goes on by itself while it is ready, up to its next release of a lock, but not too long.
fn run_on<M: Mail, G: Gate>(
    alloc: Global,
    gate: &G,
    mail: &mut M,
    node: &mut Logged<'_>,
    me: u8,
    spin: &mut Spin,
) -> Result<(), Stop>
    ensures goes { (l : log.Logged) → node.old.logged ≡ sound l
        → GoesTo M.puts M.takes mail.old l mail.new node.new.logged result }
    ensures closed { IfErr result (λ stop. stop ≡ Closed → M.shut mail.new) }
    ensures traced { TracesTo node.old node.new result }
{
    for _turn in 0..TURNS {
        if !node.ready() {
            return Ok(());
        }
        run_once(alloc, gate, mail, node, me)?;
        if spin.note_turn(last_deed(node)) {
            return Ok(());
        }
    }
    Ok(())
}

// What the node did in its newest turn, if it made an act.
fn last_deed(node: &Logged<'_>) -> Option<Deed> {
    let act = node.log().last()?.turn.act?;
    Some(act.deed)
}

// The node goes on by one turn, if it is ready.
fn run_once<M: Mail, G: Gate>(
    alloc: Global,
    gate: &G,
    mail: &mut M,
    node: &mut Logged<'_>,
    me: u8,
) -> Result<(), Stop>
    ensures goes { (l : log.Logged) → node.old.logged ≡ sound l
        → GoesTo M.puts M.takes mail.old l mail.new node.new.logged result }
    ensures closed { IfErr result (λ stop. stop ≡ Closed → M.shut mail.new) }
    ensures traced { TracesTo node.old node.new result }
{
    gate.pass(usize::from(me), turns_of(node));
    if is_made(node.run())? {
        send_last(alloc, mail, node)
    } else {
        Ok(())
    }
}

// The node takes its next message: one that is there, or where the node is not ready one that it waits for. Whether the node goes
// on: it does not where it waits and there will be no message.
fn receive<M: Mail, G: Gate>(
    alloc: Global,
    gate: &G,
    mail: &mut M,
    node: &mut Logged<'_>,
    me: u8,
    spin: &mut Spin,
) -> Result<bool, Stop>
    ensures goes { (l : log.Logged) → node.old.logged ≡ sound l
        → GoesTo M.puts M.takes mail.old l mail.new node.new.logged result }
    ensures over { (l : log.Logged) → node.old.logged ≡ sound l
        → IfOk result (λ goes. goes ≡ false → IsIdle node.new.logged) }
    ensures ended { IfOk result (λ goes. goes ≡ false → M.over mail.new) }
    ensures closed { IfErr result (λ stop. stop ≡ Closed → M.shut mail.new) }
    ensures traced { TracesTo node.old node.new result }
{
    let ready = node.ready();
    let Some(parcel) = next_parcel(mail, ready)? else {
        return Ok(ready);
    };
    spin.note_message();
    gate.pass(usize::from(me), turns_of(node));
    take_in(alloc, mail, node, &parcel)?;
    Ok(true)
}

// The next parcel: one that is there, or else one that is waited for.
fn next_parcel<M: Mail>(mail: &mut M, ready: bool) -> Result<Option<Parcel>, Stop>
    ensures next { IfOk result (λ parcel. TakesNext M.takes mail.old parcel mail.new) }
    ensures ended { ready ≡ false → IfOk result (λ parcel. IfNone parcel (M.over mail.new)) }
    ensures closed { IfErr result (λ stop. stop ≡ Closed → M.shut mail.new) }
    ensures unworn { IfErr result (λ stop. stop ≢ Worn) }
{
    let taken = if ready { mail.poll() } else { mail.take() };
    match taken {
        Ok(parcel) => Ok(parcel),
        Err(fault) => Err(stop_of(fault)),
    }
}

// The node takes the message of a parcel, with the parcel's stamp.
fn take_in<M: Mail>(
    alloc: Global,
    mail: &mut M,
    node: &mut Logged<'_>,
    parcel: &Parcel,
) -> Result<(), Stop>
    ensures goes { (l : log.Logged) → node.old.logged ≡ sound l
        → TakesIn M.puts M.takes mail.old parcel.now l mail.new node.new.logged result }
    ensures closed { IfErr result (λ stop. stop ≡ Closed → M.shut mail.new) }
    ensures traced { TracesTo node.old node.new result }
{
    let Some(envelope) = read(alloc, &parcel.bytes)? else {
        return Ok(());
    };
    if is_made(node.take(envelope, parcel.stamp))? {
        send_last(alloc, mail, node)
    } else {
        Ok(())
    }
}

// Puts the messages of the node's newest turn.
fn send_last<M: Mail>(alloc: Global, mail: &mut M, node: &Logged<'_>) -> Result<(), Stop>
    ensures sent { (entry : EntryRecord) → LogsLast node.now.logged entry
        → SendsTo M.puts mail.old entry mail.new result }
    ensures closed { IfErr result (λ stop. stop ≡ Closed → M.shut mail.new) }
{
    let Some(entry) = node.log().last() else {
        return Ok(());
    };
    let parcels = parcels_of(alloc, &entry.turn.out, entry.stamp)?;
    match mail.put_all(parcels) {
        Ok(()) => Ok(()),
        Err(fault) => Err(stop_of(fault)),
    }
}

// The parcels of messages that are sent in one turn.
fn parcels_of(alloc: Global, out: &[Envelope], stamp: u64) -> Result<Vec<Parcel>, Stop>
    ensures shown { IfOk result (λ parcels. map shown parcels.items
        ≡ map (shown_sent stamp) out.now) }
    ensures short { OnOk result (All IsShort out.now) }
    ensures worn { IfErr result (λ stop. stop ≡ Worn → Any IsTooLong out.now) }
    ensures open { IfErr result (λ stop. stop ≢ Closed) }
{
    let mut parcels = Vec::with_capacity(alloc, out.len())?;
    for envelope in out {
        parcels.push(parcel_of(alloc, envelope, stamp)?)?;
    }
    Ok(parcels)
}

// The parcel of a message.
fn parcel_of(alloc: Global, envelope: &Envelope, stamp: u64) -> Result<Parcel, Stop>
    ensures shown { IfOk result (λ parcel. shown parcel ≡ shown_sent stamp envelope.now) }
    ensures short { OnOk result (IsShort envelope.now) }
    ensures worn { IfErr result (λ stop. stop ≡ Worn → IsTooLong envelope.now) }
    ensures open { IfErr result (λ stop. stop ≢ Closed) }
{
    match encode(alloc, envelope) {
        Ok(bytes) => Ok(Parcel {
            to: envelope.to,
            stamp,
            bytes,
        }),
        Err(EncodeFault::TooLong) => Err(Stop::Worn),
        Err(EncodeFault::NoMemory) => Err(Stop::NoMemory),
    }
}

// The message that bytes spell, if they spell one.
fn read(alloc: Global, bytes: &[u8]) -> Result<Option<Envelope>, Stop>
    ensures read { IfOk result (λ envelope. IsRead envelope (envelope_of bytes.now)) }
    ensures err { IfErr result (λ stop. stop ≡ NoMemory) }
{
    match decode(alloc, bytes) {
        Ok(envelope) => Ok(Some(envelope)),
        Err(WireFault::NoMemory) => Err(Stop::NoMemory),
        Err(_fault) => Ok(None),
    }
}

// Whether a node made a turn.
fn is_made(outcome: Result<(), NodeFault>) -> Result<bool, Stop>
    ensures { result ≡ made_of outcome }
{
    match outcome {
        Ok(()) => Ok(true),
        Err(NodeFault::NotReady | NodeFault::Unexpected) => Ok(false),
        Err(NodeFault::Worn) => Err(Stop::Worn),
        Err(NodeFault::Failed | NodeFault::NoMemory) => Err(Stop::NoMemory),
    }
}

// Why a thread stops whose post refuses.
fn stop_of(fault: PostFault) -> Stop
    ensures { result ≡ stop_of fault }
{
    match fault {
        PostFault::Closed => Stop::Closed,
        PostFault::NoMemory => Stop::NoMemory,
    }
}

// How many turns a node has made, as far as a gate counts them.
fn turns_of(node: &Logged<'_>) -> u32 {
    u32::try_from(node.log().len()).unwrap_or(u32::MAX)
}
