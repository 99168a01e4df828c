// Runs that stopped before their nodes came to the end.

use crate::checks::passes;
use crate::shell::{ALL_STEPS, Case, Question, first_wrong};

// Each node comes to its own statement.
const EACH_KIND_ACTS: &[u8] = b"0 quiet
1 quiet
1 quiet
2 quiet
2 quiet
2 quiet
2 acquire 1
3 quiet
3 quiet
3 quiet
3 quiet
4 quiet
4 quiet
4 quiet
4 quiet
4 quiet
5 quiet
5 quiet
5 quiet
5 quiet
5 quiet
5 quiet
";

// A read, a write, a release, an assignment, an acquire and a statement that traps come next.
const EACH_KIND: Case = Case {
    name: "each kind",
    text: b"words 2;
locks 2;
if me == 0 { x = [1]; }
if me == 1 { [1] = 4; }
if me == 2 { acquire 1; release 1; }
if me == 3 { x = 1; }
if me == 4 { acquire 1; }
if me == 5 { [2] = 0; }
",
    nodes: 6,
    steps: ALL_STEPS,
    acts: EACH_KIND_ACTS,
    first_race: None,
    told: b"node 0 unfinished
  next, line 3: read of word 1
node 1 unfinished
  next, line 4: write of word 1
node 2 unfinished
  next, line 5: release 1
node 3 unfinished
  next, line 6: assignment or condition
node 4 unfinished
  next, line 7: acquire 1, held by node 2 since line 5
node 5 unfinished
  next, line 8: trap 2, word out of range
",
};

// The same, each word and lock with its label: the first that names it. The number of a trap has none.
const EACH_KIND_LABELLED: Case = Case {
    name: "each kind, labelled",
    text: b"words 2; #: words 0 1 flags
locks 2; #: lock 1 mutex
if me == 0 { x = [1]; } #: word 1 late
if me == 1 { [1] = 4; } #: lock 0 flags
if me == 2 { acquire 1; release 1; }
if me == 3 { x = 1; }
if me == 4 { acquire 1; }
if me == 5 { [2] = 0; }
",
    nodes: 6,
    steps: ALL_STEPS,
    acts: EACH_KIND_ACTS,
    first_race: None,
    told: b"node 0 unfinished
  next, line 3: read of word 1 (flags[1])
node 1 unfinished
  next, line 4: write of word 1 (flags[1])
node 2 unfinished
  next, line 5: release 1 (mutex)
node 3 unfinished
  next, line 6: assignment or condition
node 4 unfinished
  next, line 7: acquire 1 (mutex), held by node 2 since line 5
node 5 unfinished
  next, line 8: trap 2, word out of range
",
};

// The line is that of the acquire by which the lock is held, and not that of an earlier one.
const NEWEST_ACQUIRE: Case = Case {
    name: "newest acquire",
    text: b"words 1;
locks 1;
if me == 0 {
  acquire 0;
  release 0;
  acquire 0;
} else {
  acquire 0;
  print 1;
}
",
    nodes: 2,
    steps: ALL_STEPS,
    acts: b"0 quiet
0 acquire 0
0 release 0
0 acquire 0
1 quiet
",
    first_race: None,
    told: b"node 0 unfinished
  next, line 11: end
node 1 unfinished
  next, line 8: acquire 0, held by node 0 since line 6
",
};

// The lock was released.
const RELEASED: Case = Case {
    name: "released",
    text: b"words 1;
locks 1;
if me == 0 {
  acquire 0;
  release 0;
}
acquire 0;
",
    nodes: 2,
    steps: ALL_STEPS,
    acts: b"0 quiet
0 acquire 0
0 release 0
1 quiet
",
    first_race: None,
    told: b"node 0 unfinished
  next, line 7: acquire 0, held by nobody
node 1 unfinished
  next, line 7: acquire 0, held by nobody
",
};

// Nodes 0 and 2 have come to the barrier, and node 1 is about to.
const NOT_ARRIVED: Case = Case {
    name: "not arrived",
    text: b"words 1;
locks 0;
print me;
barrier;
",
    nodes: 3,
    steps: ALL_STEPS,
    acts: b"0 print 0
0 arrive
1 print 1
2 print 2
2 arrive
",
    first_race: None,
    told: b"node 0 prints 0
node 0 unfinished
  next, line 4: barrier 1, without node 1
node 1 prints 1
node 1 unfinished
  next, line 4: barrier 1, reached by all others
node 2 prints 2
node 2 unfinished
  next, line 4: barrier 1, without node 1
",
};

// Node 0 has come to its second barrier with its last step, and node 1 never comes there.
const SECOND_BARRIER: Case = Case {
    name: "second barrier",
    text: b"words 1;
locks 0;
barrier;
if me == 0 {
  barrier;
}
",
    nodes: 2,
    steps: 3,
    acts: b"0 arrive
1 arrive
0 depart
1 depart
0 quiet
1 quiet
0 arrive
1 end
",
    first_race: None,
    told: b"node 0 unfinished
  next, line 5: barrier 2, without node 1 (ended)
node 1 ended
",
};

const PASSED: &[u8] = b"words 1;
locks 0;
barrier;
print 1;
";

// A depart takes no step, so one is left.
const STEP_LEFT: Case = Case {
    name: "step left",
    text: PASSED,
    nodes: 1,
    steps: 2,
    acts: b"0 arrive
0 depart
",
    first_race: None,
    told: b"node 0 unfinished
  next, line 4: print
",
};

const STEPS_USED_UP: Case = Case {
    name: "steps used up",
    steps: 1,
    told: b"node 0 unfinished
  next, line 4: steps used up
",
    ..STEP_LEFT
};

const UNFINISHED: &[Case] = &[
    EACH_KIND,
    EACH_KIND_LABELLED,
    NEWEST_ACQUIRE,
    RELEASED,
    NOT_ARRIVED,
    SECOND_BARRIER,
    STEP_LEFT,
    STEPS_USED_UP,
];

#[test]
fn what_comes_next_is_told(rt: HostRuntime) {
    passes(
        &rt,
        first_wrong(rt.alloc(), UNFINISHED, Question::Explained),
    );
}
