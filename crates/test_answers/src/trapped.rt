// Runs with nodes that trapped.

use crate::checks::passes;
use crate::shell::{ALL_STEPS, Case, Question, first_wrong};

// Each cause has its number and its words.
const EACH_CAUSE: Case = Case {
    name: "each cause",
    text: b"words 1;
locks 1;
if me == 0 { x = 1 / 0; }
if me == 1 { [1] = 1; }
if me == 2 { acquire 1; }
if me == 3 { acquire 0; acquire 0; }
if me == 4 { release 0; }
",
    nodes: 5,
    steps: ALL_STEPS,
    acts: b"0 quiet
0 trap 1
1 quiet
1 quiet
1 trap 2
2 quiet
2 quiet
2 quiet
2 trap 3
3 quiet
3 quiet
3 quiet
3 quiet
3 acquire 0
3 trap 4
4 quiet
4 quiet
4 quiet
4 quiet
4 quiet
4 trap 5
",
    first_race: None,
    told: b"node 0 trapped 1
  line 3: division by zero
node 1 trapped 2
  line 4: word out of range
node 2 trapped 3
  line 5: lock out of range
node 3 trapped 4
  line 6: lock held already
node 4 trapped 5
  line 7: lock not held
",
};

// The line is that of the statement's first word.
const FIRST_WORD: Case = Case {
    name: "first word",
    text: b"words 1; locks 1;
print 1;
acquire
 1;
",
    nodes: 1,
    steps: ALL_STEPS,
    acts: b"0 print 1
0 trap 3
",
    first_race: None,
    told: b"node 0 prints 1
node 0 trapped 3
  line 3: lock out of range
",
};

// Those that have not come to a barrier ended, trapped, or wait for a lock.
const MISSED: Case = Case {
    name: "missed",
    text: b"words 1;
locks 1;
if me == 0 { acquire 0; barrier; }
if me == 1 { x = 1 / 0; }
if me == 2 { acquire 0; barrier; }
",
    nodes: 4,
    steps: ALL_STEPS,
    acts: b"0 quiet
1 quiet
2 quiet
3 quiet
0 acquire 0
1 quiet
2 quiet
3 quiet
0 arrive
1 trap 1
2 quiet
3 quiet
3 end
",
    first_race: None,
    told: b"node 0 unfinished
  next, line 3: barrier 1, without node 1 (trapped), node 2, node 3 (ended)
node 1 trapped 1
  line 4: division by zero
node 2 unfinished
  next, line 5: acquire 0, held by node 0 since line 3
node 3 ended
",
};

const TRAPPED: &[Case] = &[EACH_CAUSE, FIRST_WORD, MISSED];

#[test]
fn traps_have_their_lines_and_causes(rt: HostRuntime) {
    passes(&rt, first_wrong(rt.alloc(), TRAPPED, Question::Explained));
}
