// Runs whose nodes wait for one another.

use crate::checks::passes;
use crate::shell::{ALL_STEPS, Case, Question, first_wrong};

// Nodes 0 and 3 wait for each other, and so do nodes 1 and 2.
const TWO_CIRCLES: Case = Case {
    name: "two circles",
    text: b"words 1;
locks 4;
acquire me;
barrier;
acquire 3 - me;
",
    nodes: 4,
    steps: ALL_STEPS,
    acts: b"0 acquire 0
1 acquire 1
2 acquire 2
3 acquire 3
0 arrive
1 arrive
2 arrive
3 arrive
0 depart
1 depart
2 depart
3 depart
",
    first_race: None,
    told: b"node 0 unfinished
  next, line 5: acquire 3, held by node 3 since line 3
node 1 unfinished
  next, line 5: acquire 2, held by node 2 since line 3
node 2 unfinished
  next, line 5: acquire 1, held by node 1 since line 3
node 3 unfinished
  next, line 5: acquire 0, held by node 0 since line 3
deadlock: node 0 waits for node 3 waits for node 0
deadlock: node 1 waits for node 2 waits for node 1
",
};

// Each node waits for the one before it.
const THREE_BACK: Case = Case {
    name: "three back",
    text: b"words 1;
locks 3;
acquire me;
barrier;
acquire (me + 2) % 3;
",
    nodes: 3,
    steps: ALL_STEPS,
    acts: b"0 acquire 0
1 acquire 1
2 acquire 2
0 arrive
1 arrive
2 arrive
0 depart
1 depart
2 depart
",
    first_race: None,
    told: b"node 0 unfinished
  next, line 5: acquire 2, held by node 2 since line 3
node 1 unfinished
  next, line 5: acquire 0, held by node 0 since line 3
node 2 unfinished
  next, line 5: acquire 1, held by node 1 since line 3
deadlock: node 0 waits for node 2 waits for node 1 waits for node 0
",
};

// Node 0 waits for a circle, and is not of it.
const TAIL: Case = Case {
    name: "tail",
    text: b"words 1;
locks 3;
if me > 0 { acquire me; }
barrier;
if me == 0 { acquire 1; }
if me == 1 { acquire 2; }
if me == 2 { acquire 1; }
",
    nodes: 3,
    steps: ALL_STEPS,
    acts: b"0 quiet
1 quiet
2 quiet
0 arrive
1 acquire 1
2 acquire 2
1 arrive
2 arrive
0 depart
1 depart
2 depart
0 quiet
1 quiet
2 quiet
1 quiet
2 quiet
2 quiet
",
    first_race: None,
    told: b"node 0 unfinished
  next, line 5: acquire 1, held by node 1 since line 3
node 1 unfinished
  next, line 6: acquire 2, held by node 2 since line 3
node 2 unfinished
  next, line 7: acquire 1, held by node 1 since line 3
deadlock: node 1 waits for node 2 waits for node 1
",
};

// Node 0 waits at a barrier for nodes 1 and 2, and each of these for the lock of node 0: of those that have not come it waits for the
// lowest.
const LOWEST_MISSING: Case = Case {
    name: "lowest missing",
    text: b"words 1;
locks 1;
if me == 0 {
  acquire 0;
  barrier;
  release 0;
} else {
  acquire 0;
  release 0;
  barrier;
}
",
    nodes: 3,
    steps: ALL_STEPS,
    acts: b"0 quiet
1 quiet
2 quiet
0 acquire 0
0 arrive
",
    first_race: None,
    told: b"node 0 unfinished
  next, line 5: barrier 1, without node 1, node 2
node 1 unfinished
  next, line 8: acquire 0, held by node 0 since line 4
node 2 unfinished
  next, line 8: acquire 0, held by node 0 since line 4
deadlock: node 0 waits for node 1 waits for node 0
",
};

const CROSSED: &[u8] = b"words 2;
locks 2;
if me == 0 {
  acquire 0;
  acquire 1;
  release 1;
  release 0;
} else {
  acquire 1;
  acquire 0;
  release 0;
  release 1;
}
";

// A step is left for the acquire at which each node waits.
const LAST_STEP: Case = Case {
    name: "last step",
    text: CROSSED,
    nodes: 2,
    steps: 3,
    acts: b"0 quiet
1 quiet
0 acquire 0
1 acquire 1
",
    first_race: None,
    told: b"node 0 unfinished
  next, line 5: acquire 1, held by node 1 since line 9
node 1 unfinished
  next, line 10: acquire 0, held by node 0 since line 4
deadlock: node 0 waits for node 1 waits for node 0
",
};

// No step is left for it, so nobody waits.
const NO_STEP: Case = Case {
    name: "no step",
    steps: 2,
    told: b"node 0 unfinished
  next, line 5: steps used up
node 1 unfinished
  next, line 10: steps used up
",
    ..LAST_STEP
};

const DEADLOCKED: &[Case] = &[
    TWO_CIRCLES,
    THREE_BACK,
    TAIL,
    LOWEST_MISSING,
    LAST_STEP,
    NO_STEP,
];

#[test]
fn circles_of_waiting_are_told(rt: HostRuntime) {
    passes(
        &rt,
        first_wrong(rt.alloc(), DEADLOCKED, Question::Explained),
    );
}
