// What a node waits for, and the messages that it has sent and taken.

ghost use Rattle.std.specs.Prelude.{◌≡◌, ◌<◌};
ghost use Rattle.std.specs.Prelude.{length};

use crate::checks::holds;
use lrc_envelope::{Clean, Message};
use lrc_mail::{Letter, Mail, MailFault, requests, requests_for};
use lrc_need::{Asked, Base, Need, Wait};
use lrc_page::{Page, Size};
use lrc_store::Key;
use std::alloc::{AllocError, Global};

/// What is done with the mail of one of two nodes, or wanted of it.
#[derive(Clone, Copy)]
enum Step<'a> {
    /// Takes these numbers from node 1, where they were not taken.
    Take(&'a [u32]),
    /// Takes every second one of the numbers below 4,000 from node 1, from the first or the second on.
    TakeHalf(u32),
    /// These numbers of a node were taken, or not.
    Taken(u8, &'a [(u32, bool)]),
    /// So many of the numbers below 5,000 were taken from node 1.
    Count(u32),
    /// Letters for nodes 1, 0 and 1 get these numbers, from the first one on.
    Number(u32, Result<[u32; 3], MailFault>),
}

/// Takes a number from node 1 that was not taken. No, where memory was refused.
fn take(mail: &mut Mail, number: u32) -> bool
    requires { length mail.old.taken ≡ 2 }
    ensures taken { length mail.new.taken ≡ 2 }
    ensures sent { length mail.new.sent ≡ length mail.old.sent }
{
    mail.was_taken(1, number) || mail.note_taken(1, number).is_ok()
}

fn take_each(mail: &mut Mail, numbers: &[u32]) -> bool
    requires taken { length mail.old.taken ≡ 2 }
    requires sent { length mail.old.sent ≡ 2 }
    ensures taken { length mail.new.taken ≡ 2 }
    ensures sent { length mail.new.sent ≡ 2 }
{
    for number in numbers {
        if !take(mail, *number) {
            return false;
        }
    }
    true
}

fn take_half(mail: &mut Mail, from: u32) -> bool
    requires taken { length mail.old.taken ≡ 2 }
    requires sent { length mail.old.sent ≡ 2 }
    ensures taken { length mail.new.taken ≡ 2 }
    ensures sent { length mail.new.sent ≡ 2 }
{
    for half in 0..2_000u32 {
        if !take(mail, (half * 2).saturating_add(from)) {
            return false;
        }
    }
    true
}

fn were_taken(mail: &Mail, from: u8, numbers: &[(u32, bool)]) -> bool
    requires { length mail.now.taken ≡ 2 }
{
    for (number, wanted) in numbers {
        if from >= 2 || mail.was_taken(from, *number) != *wanted {
            return false;
        }
    }
    true
}

fn count_taken(mail: &Mail) -> u32
    requires { length mail.now.taken ≡ 2 }
{
    let mut count: u32 = 0;
    for number in 0..5_000u32 {
        if mail.was_taken(1, number) {
            count = count.saturating_add(1);
        }
    }
    count
}

/// A letter for a node.
fn letter(to: u8) -> Letter
    ensures { result.to ≡ to }
{
    Letter {
        to,
        message: Message::Clean(Clean { episode: 1 }),
    }
}

/// The numbers that letters for nodes 1, 0 and 1 get.
fn numbers(alloc: Global, mail: &mut Mail, first: u32) -> Result<[u32; 3], MailFault>
    requires { length mail.old.sent ≡ 2 }
    ensures taken { length mail.new.taken ≡ length mail.old.taken }
    ensures sent { length mail.new.sent ≡ 2 }
{
    let letters = vec![in alloc; letter(1), letter(0), letter(1)]?;
    let out = mail.number(0, first, letters)?;
    match out.as_slice() {
        [one, two, three] => Ok([one.number, two.number, three.number]),
        _ => Ok([0; 3]),
    }
}

/// Takes a step, and answers whether what was wanted came out.
fn is_met(alloc: Global, mail: &mut Mail, step: Step) -> bool
    requires taken { length mail.old.taken ≡ 2 }
    requires sent { length mail.old.sent ≡ 2 }
    ensures taken { length mail.new.taken ≡ 2 }
    ensures sent { length mail.new.sent ≡ 2 }
{
    match step {
        Step::Take(numbers) => take_each(mail, numbers),
        Step::TakeHalf(from) => take_half(mail, from),
        Step::Taken(from, numbers) => were_taken(mail, from, numbers),
        Step::Count(count) => count_taken(mail) == count,
        Step::Number(first, wanted) => numbers(alloc, mail, first) == wanted,
    }
}

fn are_met(alloc: Global, mail: &mut Mail, steps: &[Step]) -> bool
    requires taken { length mail.old.taken ≡ 2 }
    requires sent { length mail.old.sent ≡ 2 }
{
    for step in steps {
        if !is_met(alloc, mail, *step) {
            return false;
        }
    }
    true
}

fn all_are_met(alloc: Global, mail: Mail, steps: &[Step]) -> bool
    requires taken { length mail.taken ≡ 2 }
    requires sent { length mail.sent ≡ 2 }
{
    let mut mail = mail;
    are_met(alloc, &mut mail, steps)
}

/// Whether the mail of one of two nodes, which has sent and taken nothing, meets each of the steps.
fn meets(alloc: Global, steps: &[Step]) -> bool {
    match Mail::new(alloc, 2) {
        Ok(mail) => all_are_met(alloc, mail, steps),
        Err(_) => false,
    }
}

const ANY_ORDER: &[Step] = &[
    Step::Take(&[2, 4, 3, 6]),
    Step::Taken(
        1,
        &[
            (1, false),
            (2, true),
            (3, true),
            (4, true),
            (5, false),
            (6, true),
        ],
    ),
    Step::Take(&[5, 1]),
    Step::Taken(
        1,
        &[
            (1, true),
            (2, true),
            (3, true),
            (4, true),
            (5, true),
            (6, true),
        ],
    ),
    // Numbers that nobody sent.
    Step::Taken(0, &[(2, false)]),
    Step::Taken(1, &[(0, false), (7, false)]),
];

const WITH_GAPS: &[Step] = &[
    Step::TakeHalf(1),
    Step::Count(2_000),
    Step::TakeHalf(0),
    Step::Count(4_000),
];

const NUMBERED: &[Step] = &[
    Step::Number(7, Ok([7, 7, 8])),
    Step::Number(7, Ok([9, 8, 10])),
];

const WORN: &[Step] = &[Step::Number(4_294_967_295, Err(MailFault::Worn))];

const ROWS: &[(&str, &[Step])] = &[
    ("takes numbers in any order", ANY_ORDER),
    ("takes thousands of numbers with gaps", WITH_GAPS),
    ("numbers letters for each node by itself", NUMBERED),
    ("wears where a number is too large", WORN),
];

#[test]
fn mails_are_as_worked(rt: HostRuntime) {
    for (name, steps) in ROWS {
        holds(&rt, name, meets(rt.alloc(), steps));
    }
}

/// A key of page 3.
fn key(node: u8, index: u32) -> Key
    ensures { result ≡ record { node = node; index = index; page = 3 } }
{
    Key {
        node,
        index,
        page: 3,
    }
}

/// What an absent page 3 needs at a node among three: its base copy of node 2, and changes of nodes 1 and 2, of which the
/// one of node 1's interval 5 is known.
fn absent_page(alloc: Global) -> Result<Need, AllocError> {
    let keys = vec![in alloc; key(2, 4), key(1, 5), key(1, 9), key(1, 7)]?;
    let unknown = [key(2, 4), key(1, 9), key(1, 7)];
    Need::new(alloc, 3, 3, Base::Due(2), keys, &unknown)
}

/// Whether these changes, and no other, are asked of a maker.
fn is_asked(asked: &Asked, maker: u8, indices: &[u32]) -> bool {
    asked.maker == maker && asked.indices.as_slice() == indices
}

/// Whether changes are asked of node 1 and of node 2.
fn are_asked(makers: &[Asked]) -> bool {
    match makers {
        [one, two] => is_asked(one, 1, &[7, 9]) && is_asked(two, 2, &[4]),
        _ => false,
    }
}

/// Whether letters go to these nodes.
fn go_to(letters: &[Letter], nodes: [u8; 3]) -> bool {
    match letters {
        [one, two, three] => [one.to, two.to, three.to] == nodes,
        _ => false,
    }
}

/// Whether the keeper and each maker are asked for what an absent page needs.
fn asks_for(alloc: Global, need: &Need) -> bool {
    match requests_for(alloc, need) {
        Ok(letters) => {
            go_to(&letters, [2, 1, 2]) && need.missing().len() == 4 && are_asked(need.asked())
        }
        Err(_) => false,
    }
}

fn asks(alloc: Global) -> bool {
    match absent_page(alloc) {
        Ok(need) => asks_for(alloc, &need),
        Err(_) => false,
    }
}

#[test]
fn asks_the_keeper_and_each_maker(rt: HostRuntime) {
    holds(&rt, "an absent page", asks(rt.alloc()));
}

fn are_needs_met(needs: &[Need]) -> bool {
    for need in needs {
        if !need.is_met() {
            return false;
        }
    }
    true
}

/// Whether a wait is over, whether it is for page 3 of node 2 and of node 1, and whether all needs are met.
fn state(wait: &Wait) -> [bool; 4] {
    [
        wait.is_idle(),
        wait.awaits_page(3, 2),
        wait.awaits_page(3, 1),
        are_needs_met(wait.needs()),
    ]
}

/// How a wait for what a page needs stands once the changes have come, and once the base copy has come too, and how many
/// requests there are then.
fn comes(
    alloc: Global,
    need: Need,
    copy: Box<Page>,
) -> Result<([[bool; 4]; 2], usize), AllocError> {
    let mut wait = Wait::Access(need);
    wait.take_changes(3, 1);
    wait.take_changes(3, 2);
    let before = state(&wait);
    wait.take_page(3, copy);
    let after = state(&wait);
    let more = requests(alloc, wait.needs())?;
    Ok(([before, after], more.len()))
}

/// Whether a wait is over once the changes and the base copy have come, and asks for nothing more.
fn is_over(alloc: Global) -> Result<bool, AllocError> {
    let copy = Box::new(alloc, Page::zero(Size::Words64))?;
    let need = absent_page(alloc)?;
    let states = [[false, true, false, false], [false, false, false, true]];
    Ok(comes(alloc, need, copy)? == (states, 0))
}

#[test]
fn waits_until_all_has_come(rt: HostRuntime) {
    holds(&rt, "an absent page", is_over(rt.alloc()) == Ok(true));
}
