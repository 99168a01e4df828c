// Acts after which nobody can go on, with any number of steps.

use crate::checks::passes;
use crate::shell::{ALL_STEPS, Case, Question, first_wrong};

// A node that trapped has the lock, and nothing is told of it.
const HOLDER_TRAPPED: Case = Case {
    name: "holder trapped",
    text: b"words 1;
locks 1;
acquire 0;
x = 1 / me;
release 0;
",
    nodes: 2,
    steps: ALL_STEPS,
    acts: b"0 acquire 0
0 trap 1
",
    first_race: None,
    told: b"node 1 unfinished
  next, line 3: acquire 0, held by node 0 since line 3
",
};

// A node holds a lock over a barrier, to which another one comes only with the lock.
const LOCK_AND_BARRIER: Case = Case {
    name: "lock and barrier",
    text: b"words 1;
locks 1;
if me == 0 {
  acquire 0;
  barrier;
  release 0;
} else {
  acquire 0;
  release 0;
  barrier;
}
",
    nodes: 2,
    steps: ALL_STEPS,
    acts: b"0 quiet
0 acquire 0
0 arrive
1 quiet
",
    first_race: None,
    told: b"node 0 unfinished
  next, line 5: barrier 1, without node 1
node 1 unfinished
  next, line 8: acquire 0, held by node 0 since line 4
deadlock: node 0 waits for node 1 waits for node 0
",
};

// A lock with a label, and one without.
const CIRCLE_LABELLED: Case = Case {
    name: "circle, labelled",
    text: b"words 1; locks 2; #: lock 0 mutex
acquire me;
acquire 1 - me;
",
    nodes: 2,
    steps: ALL_STEPS,
    acts: b"0 acquire 0
1 acquire 1
",
    first_race: None,
    told: b"node 0 unfinished
  next, line 3: acquire 1, held by node 1 since line 2
node 1 unfinished
  next, line 3: acquire 0 (mutex), held by node 0 since line 2
deadlock: node 0 waits for node 1 waits for node 0
",
};

// A node waits at a barrier for one that ended, and that is no circle.
const OTHER_ENDED: Case = Case {
    name: "other ended",
    text: b"words 1;
locks 1;
acquire 0;
x = [0];
[0] = 1 + me;
release 0;
if x == 2 { barrier; }
",
    nodes: 2,
    steps: ALL_STEPS,
    acts: b"1 acquire 0
1 read 0 0
1 write 0 2
1 release 0
0 acquire 0
0 read 0 2
0 write 0 1
0 release 0
0 quiet
0 arrive
1 quiet
1 end
",
    first_race: None,
    told: b"node 0 unfinished
  next, line 7: barrier 1, without node 1 (ended)
",
};

const STUCK: &[Case] = &[
    HOLDER_TRAPPED,
    LOCK_AND_BARRIER,
    CIRCLE_LABELLED,
    OTHER_ENDED,
];

#[test]
fn only_the_unfinished_nodes_are_told_of(rt: HostRuntime) {
    passes(&rt, first_wrong(rt.alloc(), STUCK, Question::Unfinished));
}
