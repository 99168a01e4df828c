// The nodes of a run, each on a thread of its own.

ghost use Rattle.std.specs.Prelude.{◌≡◌, ◌<◌, ◌≤◌, [], IfOk, length, map, vec_capacity};
ghost use Rattle.lrc_protocol.specs.Node.{fresh_node};
ghost use Rattle.lrc_node.specs.Options.{options_of};
ghost use Rattle.lrc_threads.specs.Threads.{AreFirstPasts, ArePastsOf, ArePastsOwed, IsPast, node_of};

use crate::coded::Coded;
use crate::gate::Gate;
use crate::life::Past;
use crate::member::Member;
use crate::thread::{on_thread, unborn};
use lrc_post::Post;
use lrc_program::Program;
use lrc_setting::setting::Setting;
use std::alloc::{AllocError, Global};
use std::sync::Wait;
use std::thread;
use std::thread::{Promise, PromisedHandle, Threads};

// What a node's thread owes: what this node of the program did, and why the thread stopped.
#[derive(Clone, Copy)]
struct PastOf<'p> {
    program: &'p Program,
    member: Member,
}

impl<'p> Promise<Past> for PastOf<'p> {
    ghost kept_by = { λ owed past. IsPast (node_of owed) past };
}

/// Runs all nodes of a program and returns what is left of them, from node 0 up. Each node lives on a separate thread
/// until the post is closed, and all share one code. If a node fails, or there is no memory for a thread, the post is
/// closed at once. A node without a thread makes no turn. The call fails if there is no memory for the lists, before
/// any thread starts.
pub fn pasts_of<C: Coded + Sync, G: Gate + Sync, R: Threads + Wait + Sync>(
    rt: &R,
    alloc: Global,
    program: &Program,
    setting: &Setting,
    code: &C,
    post: &Post,
    gate: &G,
) -> Result<Vec<Past>, AllocError>
    requires code { C.program_of code.now ≡ program.now }
    ensures { IfOk result (λ pasts. ArePastsOf program.now setting.now.nodes.count
        (options_of setting.now) pasts.items) }
{
    thread::scope(
        thread::scope_env(),
        rt,
        |scope| -> Result<Vec<Past>, AllocError>
            requires { C.program_of code.now ≡ program.now }
            ensures { IfOk result (λ pasts. ArePastsOf program.entry.now
                setting.entry.now.nodes.count
                (options_of setting.entry.now) pasts.items) }
        {
            let nodes = setting.nodes.number();
            let room = Vec::with_capacity(alloc, usize::from(nodes))?;
            let mut threads = Vec::with_capacity(alloc, usize::from(nodes))?;
            for me in 0..nodes {
                let body = move || -> Past
                    requires { me < setting.now.nodes.count }
                    ensures { IsPast (fresh_node (C.program_of code.entry.now)
                        setting.entry.now.nodes.count
                        (options_of setting.entry.now) me) result }
                {
                    let member = Member::new(setting, me);
                    on_thread(rt, alloc, code.code(), member, post, gate)
                };
                let member = Member::new(setting, me);
                let owed = PastOf { program, member };
                let Ok(thread) = scope.spawn_with(owed, body) else {
                    post.close(rt);
                    break;
                };
                if threads.push(thread).is_err() {
                    post.close(rt);
                    break;
                }
            }
            let pasts = joined(rt, room, threads);
            Ok(filled(alloc, program, setting, pasts))
        },
    )
}

// What is left of threads that are joined in order, as they promised. There is room for it.
fn joined<R: Threads>(
    rt: &R,
    room: Vec<Past>,
    threads: Vec<PromisedHandle<Past, PastOf<'_>>>,
) -> Vec<Past>
    requires none { room.items ≡ [] }
    requires room { length threads.items ≤ vec_capacity room }
    ensures owed { ArePastsOwed (map (λ handle. handle.promise) threads.entry.items)
        result.items }
    ensures room { vec_capacity result ≡ vec_capacity room }
{
    let mut pasts = room;
    for thread in threads {
        pasts.push_reserved(thread.join(rt));
    }
    pasts
}

// What is left of all nodes of a program, of which some may have had no thread. There is room for it.
fn filled(alloc: Global, program: &Program, setting: &Setting, before: Vec<Past>) -> Vec<Past>
    requires few { length before.items ≤ setting.now.nodes.count }
    requires room { setting.now.nodes.count ≤ vec_capacity before }
    requires pasts { AreFirstPasts program.now setting.now.nodes.count (options_of setting.now)
        before.items }
    ensures { ArePastsOf program.now setting.now.nodes.count (options_of setting.now)
        result.items }
{
    let mut pasts = before;
    let nodes = setting.nodes.number();
    let first = pasts.len() as u8;
    for me in first..nodes {
        let member = Member::new(setting, me);
        pasts.push_reserved(unborn(alloc, &member));
    }
    pasts
}
