// Long runs, of which the last line is looked at, and how many lines there are.

use crate::asking::{ALL, MANY_STEPS, Run, is_text, lines_of};
use crate::checks::{Mistake, passes};
use lrc_node::Options;
use lrc_page::Size;
use lrc_protocol::Event;
use lrc_states::{Range, StatesFault, Telling};
use std::alloc::{AllocError, Global};

// Adds an event so many times.
fn repeat(events: &mut Vec<Event>, event: Event, times: u32) -> Result<(), AllocError> {
    for _ in 0..times {
        events.push(event)?;
    }
    Ok(())
}

// Whether there are so many lines, and this is the last of them.
fn end_in(lines: &[Vec<u8>], many: usize, last: &[u8]) -> Result<(), Mistake> {
    match lines.last() {
        Some(line) if lines.len() == many && line.as_slice() == last => Ok(()),
        _ => Err(Mistake::Lines),
    }
}

// So many steps for each node, and no collections.
fn on_small_pages(steps: u32) -> Options {
    Options {
        steps,
        collect: 0,
        first: 0,
        size: Size::Words64,
    }
}

// ---- one node that counts

const ENDLESS: &[u8] = b"words 1;
locks 0;
while 1 {
  x = x + 1;
}
";

// The lines of a run of so many turns.
fn endless(alloc: Global, turns: u32, range: Range) -> Result<Vec<Vec<u8>>, Mistake> {
    let mut events = Vec::new(alloc);
    repeat(&mut events, Event::Run(0), turns)?;
    let run = Run {
        text: ENDLESS,
        nodes: 1,
        options: on_small_pages(2_001),
        events: &events,
    };
    lines_of(alloc, Telling::InWords, &run, range)
}

const LAST_OF_2000: &[u8] =
    b"{\"turn\":1999,\"event\":\"run 0\",\"node\":0,\"take\":null,\"again\":false,\
      \"act\":{\"position\":1999,\"deed\":\"quiet\",\"line\":4,\"interval\":1},\"sends\":[],\
      \"state\":{\"time\":[0],\"open\":1,\"waits\":\"no\",\"needs\":[],\"at\":3,\"names\":{\"x\":\"1000\"},\
      \"locks\":[],\"episode\":0,\"manager\":{\"done\":0,\"arrived\":[],\"clean\":null},\"pages\":[],\
      \"intervals\":[],\"collected\":[0],\"sent\":[0],\"taken\":[0]}}\n";

fn as_many_as_may_be(alloc: Global) -> Result<(), Mistake> {
    let lines = endless(alloc, 2_000, ALL)?;
    end_in(&lines, 2_001, LAST_OF_2000)
}

fn one_turn_more(alloc: Global) -> Result<(), Mistake> {
    match endless(alloc, 2_001, ALL) {
        Ok(_) => Err(Mistake::Lines),
        Err(Mistake::States(StatesFault::TooLong)) => Ok(()),
        Err(mistake) => Err(mistake),
    }
}

const PART_OF_2001: &[u8] =
    b"{\"nodes\":1,\"words\":1,\"locks\":0,\"page\":64,\"labels\":[],\"flight\":[],\
      \"states\":[{\"time\":[0],\"open\":1,\"waits\":\"no\",\"needs\":[],\"at\":3,\"names\":{\"x\":\"999\"},\
      \"locks\":[],\"episode\":0,\"manager\":{\"done\":0,\"arrived\":[],\"clean\":null},\"pages\":[],\
      \"intervals\":[],\"collected\":[0],\"sent\":[0],\"taken\":[0]}],\"written\":[]}\n\
      {\"turn\":1998,\"event\":\"run 0\",\"node\":0,\"take\":null,\"again\":false,\"act\":{\"position\":1998,\
      \"deed\":\"quiet\",\"line\":3,\"interval\":1},\"sends\":[],\"state\":{\"time\":[0],\"open\":1,\
      \"waits\":\"no\",\"needs\":[],\"at\":4,\"names\":{\"x\":\"999\"},\"locks\":[],\"episode\":0,\
      \"manager\":{\"done\":0,\"arrived\":[],\"clean\":null},\"pages\":[],\"intervals\":[],\"collected\":[0],\
      \"sent\":[0],\"taken\":[0]}}\n\
      {\"turn\":1999,\"event\":\"run 0\",\"node\":0,\"take\":null,\"again\":false,\"act\":{\"position\":1999,\
      \"deed\":\"quiet\",\"line\":4,\"interval\":1},\"sends\":[],\"state\":{\"time\":[0],\"open\":1,\
      \"waits\":\"no\",\"needs\":[],\"at\":3,\"names\":{\"x\":\"1000\"},\"locks\":[],\"episode\":0,\
      \"manager\":{\"done\":0,\"arrived\":[],\"clean\":null},\"pages\":[],\"intervals\":[],\"collected\":[0],\
      \"sent\":[0],\"taken\":[0]}}\n\
      {\"turn\":2000,\"event\":\"run 0\",\"node\":0,\"take\":null,\"again\":false,\"act\":{\"position\":2000,\
      \"deed\":\"quiet\",\"line\":3,\"interval\":1},\"sends\":[],\"state\":{\"time\":[0],\"open\":1,\
      \"waits\":\"steps used up\",\"needs\":[],\"at\":4,\"names\":{\"x\":\"1000\"},\"locks\":[],\"episode\":0,\
      \"manager\":{\"done\":0,\"arrived\":[],\"clean\":null},\"pages\":[],\"intervals\":[],\"collected\":[0],\
      \"sent\":[0],\"taken\":[0]}}\n";

fn part_of_more(alloc: Global) -> Result<(), Mistake> {
    let part = Range {
        from: Some(1_998),
        to: None,
    };
    let lines = endless(alloc, 2_001, part)?;
    if is_text(&lines, PART_OF_2001) {
        Ok(())
    } else {
        Err(Mistake::Lines)
    }
}

// ---- 16 nodes that count one after the other

const COUNTER: &[u8] =
    b"# Each node adds 1 to the one shared word, under a lock, and reads it after a barrier: all read the number of nodes.
words 1;
locks 1;
acquire 0;
x = [0];
[0] = x + 1;
release 0;
barrier;
y = [0];
print y;
";

// All nodes ask for the lock. It goes from one to the next, and each reads what those before it wrote, up to node 13.
fn handed_on(alloc: Global) -> Result<Vec<Event>, AllocError> {
    let mut events = Vec::new(alloc);
    for node in 0..16 {
        events.push(Event::Run(node))?;
    }
    repeat(&mut events, Event::Deliver(0), 15)?;
    events.push(Event::Run(0))?;
    repeat(&mut events, Event::Deliver(0), 15)?;
    for node in 0..13 {
        repeat(&mut events, Event::Run(node), 2)?;
        events.push(Event::Deliver(0))?;
        events.push(Event::Run(node))?;
        events.push(Event::Run(node + 1))?;
        repeat(&mut events, Event::Deliver(0), 2 * node + 3)?;
    }
    Ok(events)
}

const READ_OF_13: &[u8] =
    b"{\"turn\":306,\"event\":\"deliver 0\",\"node\":13,\"take\":{\"from\":12,\"to\":13,\
      \"number\":1,\"bytes\":34,\"message\":\"changes-reply page 0 changes 2[0=13]\"},\"again\":false,\
      \"act\":{\"position\":66,\"deed\":\"read 0 13\",\"line\":5,\"interval\":2},\"sends\":[],\
      \"state\":{\"time\":[2,2,2,2,2,2,2,2,2,2,2,2,2,1,0,0],\"open\":2,\"waits\":\"no\",\"needs\":[],\"at\":6,\
      \"names\":{\"x\":\"13\"},\"locks\":[{\"lock\":0,\"token\":\"held\",\"released\":null,\"next\":{\"node\":14,\
      \"time\":[0,0,0,0,0,0,0,0,0,0,0,0,0,0,1,0]},\"recent\":null}],\"episode\":0,\"manager\":null,\
      \"pages\":[{\"page\":0,\"copy\":\"valid\",\"words\":{\"0\":\"13\"},\"twin\":null,\"since\":null,\"lacks\":[],\
      \"keeper\":0,\"base\":null}],\"intervals\":[{\"interval\":\"12.2\",\"stamp\":[2,2,2,2,2,2,2,2,2,2,2,2,2,0,0,\
      0],\"pages\":[0],\"changes\":{\"0\":{\"0\":\"13\"}}}],\"collected\":[0,0,0,0,0,0,0,0,0,0,0,0,0,0,0,0],\
      \"sent\":[2,1,1,1,1,1,1,1,1,1,1,1,1,0,0,0],\"taken\":[2,1,1,1,1,1,1,1,1,1,1,1,2,0,0,0]}}\n";

fn sixteen_nodes(alloc: Global) -> Result<(), Mistake> {
    let events = handed_on(alloc)?;
    let run = Run {
        text: COUNTER,
        nodes: 16,
        options: on_small_pages(MANY_STEPS),
        events: &events,
    };
    let lines = lines_of(alloc, Telling::InWords, &run, ALL)?;
    end_in(&lines, 308, READ_OF_13)
}

#[test]
fn long_runs(rt: HostRuntime) {
    let alloc = rt.alloc();
    passes(&rt, "as many turns as are shown", as_many_as_may_be(alloc));
    passes(&rt, "one turn more", one_turn_more(alloc));
    passes(&rt, "the end of one turn more", part_of_more(alloc));
    passes(&rt, "the lock goes through 14 nodes", sixteen_nodes(alloc));
}
